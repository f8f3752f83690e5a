//! A crowd of links, served by four workers over two accounts.

ghost use Rattle.std.specs.Prelude.{◌≡◌, All, IfOk};
ghost use Rattle.ss_booked.specs.Booked.{journal_of};
ghost use Rattle.ss_links.specs.Links.{IsUnusedLink, link_tells};
ghost use Rattle.ss_town.specs.Opening.{AreBare};

use crate::accounts::{add, booked};
use crate::crowd::messages::{Draw, message, pieces};
use crate::crowd::plain::replies;
use anyhow::bail;
use ss_booked::Booked;
use ss_bso::Kept;
use ss_connection::{End, Turn};
use ss_keeper::SureKeeper;
use ss_links::{MemLink, MemPort, OpenGate};
use ss_outside::CountClock;
use ss_query::Reply;
use ss_route::{Manner, render};
use ss_serve::{LinkReport, TermEnd, TermStop, serve_term};
use std::alloc::Global;
use std::sync::Wait;
use std::thread::Threads;

const LINKS: u32 = 64;

const MESSAGES: u32 = 100;

/// The most entries of a journal.
const ENTRIES: u32 = 10_000;

/// The room for what is written to a link.
const ROOM: usize = 262_144;

type Ended = TermEnd<MemLink, CountClock, SureKeeper>;

/// A link from which drawn messages come in drawn pieces.
fn link(alloc: Global, number: u32) -> anyhow::Result<MemLink>
    ensures { IfOk result (λ link. IsUnusedLink (link_tells link)) }
{
    let mut draw = Draw::new(u64::from(number));
    let mut text = String::new(alloc);
    for _ in 0..MESSAGES {
        text.push_str(message(alloc, &mut draw)?.as_str())?;
    }
    let pieces = pieces(alloc, text.as_str(), &mut draw)?;
    Ok(MemLink::new(alloc, pieces, ROOM, Vec::new(alloc))?)
}

fn links(alloc: Global) -> anyhow::Result<Vec<MemLink>>
    ensures { IfOk result (λ links. All (λ link. IsUnusedLink (link_tells link)) links.items) }
{
    let mut links = Vec::new(alloc);
    for number in 0..LINKS {
        links.push(link(alloc, number)?)?;
    }
    Ok(links)
}

fn accounts(alloc: Global) -> anyhow::Result<Vec<(u32, Booked<SureKeeper>)>>
    ensures bare { IfOk result (λ accounts. AreBare (λ b. (journal_of b).entries) accounts.items) }
{
    let mut accounts = Vec::new(alloc);
    for uid in [7, 8] {
        let keeper = SureKeeper::new(Kept::fresh(alloc));
        add(&mut accounts, uid, booked(alloc, uid, keeper, ENTRIES)?)?;
    }
    Ok(accounts)
}

fn serve<R: Threads + Wait + Sync>(rt: &R, alloc: Global) -> anyhow::Result<Ended> {
    let mut port = MemPort::new(links(alloc)?, Vec::new(alloc));
    let clocks = vec![in alloc;
        CountClock::new(0),
        CountClock::new(1000),
        CountClock::new(2000),
        CountClock::new(3000),
    ]?;
    let accounts = accounts(alloc)?;
    let manner = Manner::Profile;
    let ended = serve_term(
        rt, alloc, manner, &mut port, clocks, &OpenGate, accounts, LINKS,
    );
    drop(port);
    Ok(ended)
}

/// The replies at the places of the journals of the accounts, each with its ticket.
#[derive(Drop)]
struct Places {
    replies: Vec<(u32, Vec<(u64, Reply)>)>,
}

impl Places {
    fn of(alloc: Global, accounts: &[(u32, Booked<SureKeeper>)]) -> anyhow::Result<Places> {
        let mut all = Vec::new(alloc);
        for (uid, booked) in accounts {
            all.push((*uid, replies(alloc, booked)?))?;
        }
        Ok(Places { replies: all })
    }

    fn count(&self) -> usize {
        let mut count: usize = 0;
        for (_, replies) in self.replies.iter() {
            count = count.saturating_add(replies.len());
        }
        count
    }

    /// The reply at the place with this ticket of an account's journal.
    fn at(&self, uid: u32, ticket: u64) -> anyhow::Result<&Reply> {
        for (other, replies) in self.replies.iter() {
            if *other == uid {
                return match replies.get(usize::try_from(ticket)?) {
                    Some((of, reply)) if *of == ticket => Ok(reply),
                    _ => bail!("no place with this ticket"),
                };
            }
        }
        bail!("no such account")
    }

    /// The bytes that the turns of a link give.
    fn bytes(&self, alloc: Global, report: &LinkReport<MemLink>) -> anyhow::Result<Vec<u8>> {
        let mut bytes = Vec::new(alloc);
        for note in report.turns.iter() {
            let Turn::Call { uid, ticket } = note.turn else {
                bail!("a turn without a place");
            };
            let response = render(alloc, self.at(uid, ticket)?, false, false)?;
            bytes.extend_from_slice(response.as_slice())?;
        }
        Ok(bytes)
    }
}

/// Whether a link was served whole, and its bytes are those of its turns.
fn is_as_told(
    alloc: Global,
    places: &Places,
    report: &LinkReport<MemLink>,
) -> anyhow::Result<bool> {
    let bytes = places.bytes(alloc, report)?;
    Ok(
        report.end == End::Closed
            && report.link.is_closed()
            && report.turns.len() == MESSAGES as usize
            && report.link.written() == Some(bytes.as_slice()),
    )
}

/// How many links a term served and how many turns there were, and how many links are as the places tell.
fn compared(alloc: Global, places: &Places, ended: &Ended) -> anyhow::Result<String> {
    let mut told: u32 = 0;
    let mut turns: usize = 0;
    for report in ended.links.iter() {
        turns = turns.saturating_add(report.turns.len());
        if is_as_told(alloc, places, report)? {
            told = told.saturating_add(1);
        }
    }
    if ended.ended != TermStop::Connections || places.count() != turns {
        bail!("another end, or another number of entries");
    }
    Ok(format!(in alloc;
        "{} links, {turns} turns; the bytes of {told} links are those of their places",
        ended.links.len()
    )?)
}

/// What a term comes to.
fn tell(alloc: Global, ended: &Ended) -> anyhow::Result<String> {
    let places = Places::of(alloc, ended.accounts.as_slice())?;
    let told = compared(alloc, &places, ended);
    drop(places);
    told
}

/// Serves a crowd, and compares what each link wrote with the plain program.
pub fn crowd_line<R: Threads + Wait + Sync>(rt: &R, alloc: Global) -> anyhow::Result<String> {
    let ended = serve(rt, alloc)?;
    let told = tell(alloc, &ended);
    drop(ended);
    told
}
