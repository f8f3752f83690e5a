//! Links that are served one after the other over one town, at readings of 10.00.

ghost use Rattle.std.specs.Prelude.{IfOk};
ghost use Rattle.ss_desk.specs.Passes.{AreOf};
ghost use Rattle.ss_town.specs.Town.{desks_of, passes_of};

use crate::terms::accounts::accounts;
use crate::terms::case::{Case, Planned};
use crate::terms::ending::Ending;
use crate::terms::telling::link;
use anyhow::anyhow;
use ss_booked::Booked;
use ss_connection::{End, TurnNote, serve_connection};
use ss_keeper::MemKeeper;
use ss_links::MemLink;
use ss_outside::MemClock;
use ss_route::Manner;
use ss_town::{Passes, Town};
use std::alloc::{AllocError, Global};
use std::sync::Wait;

/// The room for what is written to a link.
pub const ROOM: usize = 4096;

/// What a connection noted and wrote, and how it ended.
#[derive(Drop)]
pub struct Outcome {
    pub end: End,
    pub turns: Vec<TurnNote>,
    pub link: MemLink,
}

/// A town of the accounts 7 and 8, both fresh.
pub fn open(
    alloc: Global,
    most: u32,
    failing: u64,
) -> anyhow::Result<(Town<Booked<MemKeeper>>, Passes<Booked<MemKeeper>>)>
    ensures of { IfOk result (λ r. AreOf (desks_of r.0) (passes_of r.1)) }
{
    match Town::open(alloc, accounts(alloc, most, failing)?) {
        Ok(both) => Ok(both),
        Err((accounts, _)) => {
            drop(accounts);
            Err(anyhow!("no town"))
        }
    }
}

/// Serves a link, whose conditions are read in this manner, through this gate.
pub fn serve<R: Wait>(
    rt: &R,
    alloc: Global,
    manner: Manner,
    gate: Ending,
    town: &Town<Booked<MemKeeper>>,
    passes: &mut Passes<Booked<MemKeeper>>,
    planned: Planned,
) -> Result<Outcome, AllocError>
    requires of { AreOf (desks_of town.now) (passes_of passes.old) }
    ensures of { AreOf (desks_of town.now) (passes_of passes.new) }
{
    let Planned { pieces, failing } = planned;
    let mut link = MemLink::new(alloc, pieces, ROOM, vec![in alloc; failing]?)?;
    let mut clock = MemClock::new(vec![in alloc; 1000u64; 16]?);
    let mut turns = Vec::new(alloc);
    let end = serve_connection(
        rt, alloc, manner, &mut link, &mut clock, &gate, 0, town, passes, &mut turns,
    );
    Ok(Outcome { end, turns, link })
}

/// What is told of a link that is served.
fn served<R: Wait>(
    rt: &R,
    alloc: Global,
    manner: Manner,
    gate: Ending,
    town: &Town<Booked<MemKeeper>>,
    passes: &mut Passes<Booked<MemKeeper>>,
    planned: Planned,
) -> anyhow::Result<String>
    requires of { AreOf (desks_of town.now) (passes_of passes.old) }
    ensures of { AreOf (desks_of town.now) (passes_of passes.new) }
{
    let outcome = serve(rt, alloc, manner, gate, town, passes, planned)?;
    let line = link(alloc, outcome.end, outcome.turns.as_slice(), &outcome.link);
    drop(outcome);
    line
}

/// A line on each link.
fn lines<R: Wait>(
    rt: &R,
    alloc: Global,
    manner: Manner,
    gate: Ending,
    town: &Town<Booked<MemKeeper>>,
    passes: &mut Passes<Booked<MemKeeper>>,
    links: Vec<Planned>,
) -> anyhow::Result<String>
    requires of { AreOf (desks_of town.now) (passes_of passes.old) }
{
    let mut text = format!(in alloc; "{} links", links.len())?;
    for planned in links {
        let line = served(rt, alloc, manner, gate, town, passes, planned)?;
        text.push_str(line.as_str())?;
    }
    Ok(text)
}

/// What is told of links over one town.
pub fn connection_line<R: Wait>(rt: &R, alloc: Global, case: Case) -> anyhow::Result<String> {
    let Case {
        manner,
        most,
        failing,
        gate,
        links,
        connections: _,
        rests: _,
        damaged: _,
        words: _,
    } = case;
    let (town, mut passes) = open(alloc, most, failing.keeper)?;
    let text = lines(
        rt,
        alloc,
        manner,
        Ending { from: gate },
        &town,
        &mut passes,
        links,
    );
    drop(passes);
    drop(town);
    text
}
