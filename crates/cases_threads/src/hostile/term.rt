//! Terms of one worker, whose clock reads 10.00, 10.01 and so on, a reading for each response.

ghost use Rattle.std.specs.Prelude.{All};
ghost use Rattle.ss_booked.specs.Booked.{journal_of};
ghost use Rattle.ss_links.specs.Links.{IsUnusedLink, link_tells};
ghost use Rattle.ss_town.specs.Opening.{AreBare};

use ss_booked::Booked;
use ss_keeper::MemKeeper;
use ss_links::{MemLink, MemPort, OpenGate};
use ss_outside::CountClock;
use ss_route::Manner;
use ss_serve::{TermEnd, serve_term};
use std::alloc::{AllocError, Global};
use std::sync::Wait;
use std::thread::Threads;

pub type Ended = TermEnd<MemLink, CountClock, MemKeeper>;

/// The most links of a term.
const LINKS: u32 = 1_000;

/// Serves these links over these accounts.
pub fn serve<R: Threads + Wait + Sync>(
    rt: &R,
    alloc: Global,
    links: Vec<MemLink>,
    accounts: Vec<(u32, Booked<MemKeeper>)>,
) -> Result<Ended, AllocError>
    requires unused { All (λ link. IsUnusedLink (link_tells link)) links.items }
    requires bare { AreBare (λ b. (journal_of b).entries) accounts.items }
{
    let clocks = vec![in alloc; CountClock::new(1000)]?;
    let mut port = MemPort::new(links, Vec::new(alloc));
    let manner = Manner::Profile;
    let ended = serve_term(
        rt, alloc, manner, &mut port, clocks, &OpenGate, accounts, LINKS,
    );
    drop(port);
    Ok(ended)
}
