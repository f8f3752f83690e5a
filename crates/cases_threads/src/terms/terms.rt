//! Terms of two workers over the accounts 7 and 8, at readings of 10.00.

ghost use Rattle.std.specs.Prelude.{◌≡◌, All, IfOk, vec_len};
ghost use Rattle.ss_links.specs.Links.{IsUnusedLink, link_tells};

use crate::terms::accounts::accounts;
use crate::terms::case::{Case, Planned};
use crate::terms::connections::ROOM;
use crate::terms::ending::Ending;
use crate::terms::telling::link as link_line;
use anyhow::bail;
use ss_booked::Booked;
use ss_keeper::MemKeeper;
use ss_links::{Gate, MemLink, MemPort};
use ss_outside::MemClock;
use ss_serve::{LinkReport, TermEnd, serve_term};
use std::alloc::{AllocError, Global};
use std::sync::Wait;
use std::thread::Threads;

pub type Ended = TermEnd<MemLink, MemClock, MemKeeper>;

/// A link as it is planned.
fn link(alloc: Global, planned: Planned) -> Result<MemLink, AllocError>
    ensures { IfOk result (λ link. IsUnusedLink (link_tells link)) }
{
    let Planned { pieces, failing } = planned;
    MemLink::new(alloc, pieces, ROOM, vec![in alloc; failing]?)
}

/// Links as they are planned.
fn links(alloc: Global, planned: Vec<Planned>) -> Result<Vec<MemLink>, AllocError>
    ensures { IfOk result (λ links. All (λ link. IsUnusedLink (link_tells link)) links.items) }
{
    let mut links = Vec::new(alloc);
    for planned in planned {
        links.push(link(alloc, planned)?)?;
    }
    Ok(links)
}

/// A port that gives these links, and whose call with this number fails; 0 is none. It may rest after each link.
pub fn port(
    alloc: Global,
    planned: Vec<Planned>,
    failing: u64,
    rests: bool,
) -> Result<MemPort, AllocError> {
    let links = links(alloc, planned)?;
    let port = MemPort::new(links, vec![in alloc; failing]?);
    Ok(if rests { port.resting() } else { port })
}

/// The clocks of two workers.
fn clocks(alloc: Global) -> Result<Vec<MemClock>, AllocError>
    ensures { IfOk result (λ clocks. vec_len clocks ≡ 2) }
{
    let first = MemClock::new(vec![in alloc; 1000u64; 16]?);
    let second = MemClock::new(vec![in alloc; 1000u64; 16]?);
    Ok(vec![in alloc; first, second]?)
}

/// The term of a case.
pub fn serve<G: Gate + Sync, R: Threads + Wait + Sync>(
    rt: &R,
    alloc: Global,
    case: Case,
    gate: &G,
) -> anyhow::Result<Ended> {
    let Case {
        manner,
        most,
        connections,
        failing,
        gate: _,
        rests,
        links,
        damaged: _,
        words: _,
    } = case;
    if connections > 1000 {
        bail!("too many links");
    }
    let mut port = port(alloc, links, failing.port, rests)?;
    let clocks = clocks(alloc)?;
    let accounts = accounts(alloc, most, failing.keeper)?;
    let ended = serve_term(
        rt,
        alloc,
        manner,
        &mut port,
        clocks,
        gate,
        accounts,
        connections,
    );
    drop(port);
    Ok(ended)
}

/// A line on each link, in the order of their texts, since workers report in any order.
pub fn lines(alloc: Global, reports: &[LinkReport<MemLink>]) -> anyhow::Result<String> {
    let mut lines = Vec::new(alloc);
    for report in reports {
        let turns = report.turns.as_slice();
        lines.push(link_line(alloc, report.end, turns, &report.link)?)?;
    }
    lines.sort()?;
    let mut text = String::new(alloc);
    for line in lines.iter() {
        text.push_str(line.as_str())?;
    }
    Ok(text)
}

/// The uids of the accounts that came back.
fn uids(alloc: Global, accounts: &[(u32, Booked<MemKeeper>)]) -> Result<String, AllocError> {
    let mut uids = String::new(alloc);
    for (uid, _) in accounts {
        uids.push_str(format!(in alloc; " {uid}")?.as_str())?;
    }
    Ok(uids)
}

/// What is told of a term that ended: why, which accounts came back, and its links.
pub fn reported(alloc: Global, ended: &Ended) -> anyhow::Result<String> {
    let uids = uids(alloc, ended.accounts.as_slice())?;
    let lines = lines(alloc, ended.links.as_slice())?;
    Ok(format!(in alloc; "{:?}, accounts{uids}{lines}", ended.ended)?)
}

/// What is told of the term of a case.
pub fn term_line<R: Threads + Wait + Sync>(
    rt: &R,
    alloc: Global,
    case: Case,
) -> anyhow::Result<String> {
    let gate = Ending { from: case.gate };
    let ended = serve(rt, alloc, case, &gate)?;
    let text = reported(alloc, &ended);
    drop(ended);
    text
}
