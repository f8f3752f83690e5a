//! Two keepers, each of whose commits waits until the other one was asked to commit.

ghost use Rattle.std.specs.Prelude.{◌≡◌, All, IfOk};
ghost use Rattle.ss_booked.specs.Booked.{journal_of};
ghost use Rattle.ss_links.specs.Links.{IsUnusedLink, link_tells};
ghost use Rattle.ss_town.specs.Opening.{AreBare};

use crate::accounts::{add, booked};
use ss_booked::Booked;
use ss_bso::{Changes, Kept};
use ss_keeper::{KeepFault, Keeper, SureKeeper};
use ss_links::{MemLink, MemPort, OpenGate};
use ss_outside::CountClock;
use ss_route::Manner;
use ss_serve::{LinkReport, TermEnd, serve_term};
use std::alloc::{AllocError, Global};
use std::sync::Wait;
use std::sync::atomic::{AtomicU64, Ordering};
use std::thread::{Threads, yield_now};

/// How often a commit that waits looks whether the other keeper was asked.
const LOOKS: u64 = 10_000_000;

type Ended<'a> = TermEnd<MemLink, CountClock, Guest<'a>>;

/// How many commits each of two keepers was asked for, and how many waited in vain.
#[derive(Drop)]
struct Meeting {
    seven: AtomicU64,
    eight: AtomicU64,
    late: AtomicU64,
}

/// A keeper of a meeting.
#[derive(Drop)]
struct Guest<'a> {
    keeper: SureKeeper,
    mine: &'a AtomicU64,
    other: &'a AtomicU64,
    late: &'a AtomicU64,
}

impl<'a> Guest<'a> {
    /// Says that it was asked, and waits for the other one for a stated number of looks.
    fn meet(&self) {
        self.mine.fetch_add(1, Ordering::SeqCst);
        for _ in 0..LOOKS {
            if self.other.load(Ordering::SeqCst) > 0 {
                return;
            }
            yield_now();
        }
        self.late.fetch_add(1, Ordering::SeqCst);
    }
}

impl<'a> Keeper for Guest<'a> {
    ghost told = { λ guest. ⟦<SureKeeper as Keeper>⟧.told guest.keeper };

    ghost keep_faults = { λ guest. ⟦<SureKeeper as Keeper>⟧.keep_faults guest.keeper };

    ghost calls = { λ guest. ⟦<SureKeeper as Keeper>⟧.calls guest.keeper };

    fn load(&mut self, alloc: Global) -> Result<Kept, KeepFault> {
        self.keeper.load(alloc)
    }

    fn commit(&mut self, alloc: Global, changes: &Changes) -> Result<(), KeepFault> {
        self.meet();
        self.keeper.commit(alloc, changes)
    }
}

/// A link from which a PUT to an account comes.
fn link(alloc: Global, uid: u32) -> Result<MemLink, AllocError>
    ensures { IfOk result (λ link. IsUnusedLink (link_tells link)) }
{
    let text = format!(in alloc;
        "PUT /1.5/{uid}/storage/forms/a HTTP/1.1\r\nContent-Length: 15\r\n\r\n{{\"payload\":\"s\"}}"
    )?;
    let pieces = vec![in alloc; text.into_bytes()]?;
    MemLink::new(alloc, pieces, 4096, Vec::new(alloc))
}

/// A link for each of the accounts 7 and 8.
fn links(alloc: Global) -> Result<Vec<MemLink>, AllocError>
    ensures { IfOk result (λ links. All (λ link. IsUnusedLink (link_tells link)) links.items) }
{
    let seven = link(alloc, 7)?;
    let eight = link(alloc, 8)?;
    Ok(vec![in alloc; seven, eight]?)
}

/// Adds a fresh account of this uid, which a guest keeps.
fn add_guest<'a>(
    alloc: Global,
    accounts: &mut Vec<(u32, Booked<Guest<'a>>)>,
    uid: u32,
    mine: &'a AtomicU64,
    other: &'a AtomicU64,
    late: &'a AtomicU64,
) -> anyhow::Result<()>
    requires bare { AreBare (λ b. (journal_of b).entries) accounts.old.items }
    ensures bare { IfOk result (λ done. AreBare (λ b. (journal_of b).entries) accounts.new.items) }
{
    let guest = Guest {
        keeper: SureKeeper::new(Kept::fresh(alloc)),
        mine,
        other,
        late,
    };
    let booked = booked(alloc, uid, guest, 2)?;
    add(accounts, uid, booked)?;
    Ok(())
}

/// Adds the accounts 7 and 8, whose keepers meet.
fn add_both<'a>(
    alloc: Global,
    accounts: &mut Vec<(u32, Booked<Guest<'a>>)>,
    meeting: &'a Meeting,
) -> anyhow::Result<()>
    requires bare { AreBare (λ b. (journal_of b).entries) accounts.old.items }
    ensures bare { IfOk result (λ done. AreBare (λ b. (journal_of b).entries) accounts.new.items) }
{
    let (seven, eight) = (&meeting.seven, &meeting.eight);
    add_guest(alloc, accounts, 7, seven, eight, &meeting.late)?;
    add_guest(alloc, accounts, 8, eight, seven, &meeting.late)?;
    Ok(())
}

/// The accounts 7 and 8, whose keepers meet.
fn accounts(alloc: Global, meeting: &Meeting) -> anyhow::Result<Vec<(u32, Booked<Guest<'_>>)>>
    ensures bare { IfOk result (λ accounts. AreBare (λ b. (journal_of b).entries) accounts.items) }
{
    let mut accounts = Vec::new(alloc);
    match add_both(alloc, &mut accounts, meeting) {
        Ok(()) => Ok(accounts),
        Err(error) => {
            drop(accounts);
            Err(error)
        }
    }
}

/// The term of these accounts and links, of two workers.
fn serve<'a, R: Threads + Wait + Sync>(
    rt: &R,
    alloc: Global,
    meeting: &'a Meeting,
) -> anyhow::Result<Ended<'a>> {
    let mut port = MemPort::new(links(alloc)?, Vec::new(alloc));
    let clocks = vec![in alloc; CountClock::new(1000), CountClock::new(1000)]?;
    let accounts = accounts(alloc, meeting)?;
    let manner = Manner::Profile;
    let ended = serve_term(rt, alloc, manner, &mut port, clocks, &OpenGate, accounts, 2);
    drop(port);
    Ok(ended)
}

/// How many links were answered with 200.
fn answered(reports: &[LinkReport<MemLink>]) -> u32 {
    let mut answered: u32 = 0;
    for report in reports {
        let written = report.link.written().unwrap_or(b"untold");
        if written.starts_with(b"HTTP/1.1 200 OK\r\n") {
            answered = answered.saturating_add(1);
        }
    }
    answered
}

/// How two PUTs are answered, to two accounts whose keepers wait for each other, by two workers.
pub fn meeting_line<R: Threads + Wait + Sync>(rt: &R, alloc: Global) -> anyhow::Result<String> {
    let meeting = Meeting {
        seven: AtomicU64::new(0),
        eight: AtomicU64::new(0),
        late: AtomicU64::new(0),
    };
    let ended = serve(rt, alloc, &meeting)?;
    let answered = answered(ended.links.as_slice());
    drop(ended);
    let late = meeting.late.load(Ordering::SeqCst);
    Ok(format!(in alloc;
        "two keepers wait for each other: {answered} PUTs are answered with 200, and {late} waited in vain"
    )?)
}
