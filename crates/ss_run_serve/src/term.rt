//! One term of a server, and what its site is told of it.

ghost use Rattle.std.specs.Prelude.{◌≡◌, ◌<◌, ◌≤◌, ℕ, map, vec_len, All, IfOk, IfErr, IfSome, IfNone, OnOk, OnErr};
ghost use Rattle.ss_laws.specs.Journal.{Journal};
ghost use Rattle.ss_booked.specs.Booked.{journal_of};
ghost use Rattle.ss_links.specs.Ports.{Accepts};
ghost use Rattle.ss_town.specs.Opening.{AreBare};
ghost use Rattle.ss_site.specs.Sites.{HasAdded};
ghost use Rattle.ss_outside.specs.Plans.{raised_count};
ghost use Rattle.ss_run_serve.specs.Logs.{HasCut};
ghost use Rattle.ss_run_serve.specs.Logbooks.{number_in, is_kept, files_in, failures_in};
ghost use Rattle.ss_run_serve.specs.Watched.{port_in};
ghost use Rattle.ss_run_serve.specs.Hosted.{hosted_at, HasEmptyJournal};
ghost use Rattle.ss_run_serve.specs.Once.{Follows, IsOnce, IsUntold};
ghost use Rattle.ss_town.specs.Limits.{most_connections, most_workers};

use crate::lines;
use crate::logbook::Logbook;
use crate::stop::Stop;
use crate::watched::Watched;
use ss_booked::Booked;
use ss_keeper::Keeper;
use ss_laws::Journal;
use ss_links::{Gate, Port};
use ss_outside::{Clock, Sink};
use ss_route::Manner;
use ss_serve::{LinkReport, TermEnd, TermStop, serve_term};
use ss_site::{Site, SiteFault};
use std::alloc::{AllocError, Global};
use std::sync::Wait;
use std::thread::Threads;

/// The accounts of a server and the clocks of its workers.
#[derive(Drop)]
pub(crate) struct Crew<K: Keeper, C> {
    pub(crate) accounts: Vec<(u32, Booked<K>)>,
    pub(crate) clocks: Vec<C>,
}

/// The journals of accounts, lent.
fn journals_of<K: Keeper>(
    alloc: Global,
    accounts: &[(u32, Booked<K>)],
) -> Result<Vec<(u32, &Journal)>, AllocError>
    ensures { IfOk result (λ journals. map {B = ℕ × Journal} (λ journal. (journal.0, journal.1.now)) journals.items
        ≡ map {B = ℕ × Journal} (λ account. (account.0, journal_of account.1)) accounts.now) }
{
    let mut journals = Vec::new(alloc);
    for (uid, booked) in accounts {
        journals.push((*uid, booked.journal()))?;
    }
    Ok(journals)
}

/// Tells a site the reports of a term and the journals of its accounts.
fn tell<X: Site>(
    alloc: Global,
    site: &mut X,
    reports: Vec<X::Report>,
    accounts: &[(u32, Booked<X::Keeper>)],
) -> Result<(), Stop>
where
    X::Report: Drop,
    ensures told { OnOk result (HasAdded (record {
      reports = reports.items;
      journals = map {B = ℕ
          × Journal} (λ account. (account.0, journal_of account.1)) accounts.now;
    }) (X.terms site.old)
        (X.terms site.new)) }
    ensures counts { OnOk result (X.counts site.new ≡ X.counts site.old) }
    ensures untold { IfErr result (λ stop. IsUntold (X.counts site.old) (X.counts site.new) stop) }
    ensures terms { OnErr result (X.terms site.new ≡ X.terms site.old) }
    ensures kept { X.kept site.new ≡ X.kept site.old }
    ensures lent { X.lent site.new ≡ X.lent site.old }
    ensures logs { X.logs site.new ≡ X.logs site.old }
{
    let Ok(journals) = journals_of(alloc, accounts) else {
        return Err(Stop::Memory);
    };
    match site.ended(alloc, reports, journals.as_slice()) {
        Ok(()) => Ok(()),
        Err(SiteFault::Fault) => Err(Stop::Site),
        Err(SiteFault::Memory) => Err(Stop::Memory),
    }
}

/// Why no further term begins, where none does.
fn stop_after<P: Port>(ended: TermStop, port: &Watched<P>) -> Option<Stop>
    ensures { Follows ended (P.counts (port_in port.now)) result }
{
    match ended {
        TermStop::Port => Some(Stop::Port),
        TermStop::PortEnded => Some(Stop::PortEnded),
        TermStop::Memory | TermStop::Town(_) => Some(Stop::Memory),
        TermStop::Connections | TermStop::Rested | TermStop::Full { .. } if port.has_ended() => {
            Some(Stop::PortEnded)
        }
        TermStop::Connections | TermStop::Rested | TermStop::Full { .. } => None,
    }
}

/// One term: the accounts are served in this manner, the site is told what came of it, and the logs are saved. Why no
/// further term begins comes with what is handed back.
pub(crate) fn serve_once<X, G, T, R>(
    rt: &R,
    alloc: Global,
    manner: Manner,
    site: &mut X,
    port: &mut Watched<X::Port>,
    gate: &G,
    err: &mut T,
    connections: u32,
    book: &mut Logbook<X::Log>,
    crew: Crew<X::Keeper, X::Clock>,
) -> (Crew<X::Keeper, X::Clock>, Option<Stop>)
where
    X: Site<Report = LinkReport<<<X as Site>::Port as Port>::Link>>,
    X::Keeper: Send,
    X::Clock: Drop + Send,
    <<X as Site>::Port as Port>::Link: Drop + Send,
    G: Gate + Sync,
    T: Sink,
    R: Threads + Wait + Sync,
    requires clocks { (0 < vec_len crew.clocks) × (vec_len crew.clocks ≤ most_workers) }
    requires connections { connections ≤ most_connections }
    requires bare { AreBare (λ b. (journal_of b).entries) crew.accounts.items }
    requires begun { All (λ account. HasEmptyJournal account.1) (map (hosted_at X.Keeper.told X.Keeper.keep_faults)
        crew.accounts.items) }
    ensures once { IsOnce manner X.Port.Link.Told.told X.Port.Link.closed (G.says gate.now) connections
        (number_in book.old) result.1
        (record {
          accounts = map (hosted_at X.Keeper.told X.Keeper.keep_faults) crew.accounts.items;
          coming = map X.Clock.coming crew.clocks.items;
          terms = X.terms site.old;
          counts = X.counts site.old;
          port = X.Port.counts (port_in port.old);
          logs = files_in X.Log.held book.old;
        })
        (record {
          accounts = map (hosted_at X.Keeper.told X.Keeper.keep_faults) result.0.accounts.items;
          coming = map X.Clock.coming result.0.clocks.items;
          terms = X.terms site.new;
          counts = X.counts site.new;
          port = X.Port.counts (port_in port.new);
          logs = files_in X.Log.held book.new;
        }) }
    ensures number { IfNone result.1 (number_in book.new ≡ raised_count (number_in book.old)) }
    ensures cut { IfSome result.1 (HasCut (failures_in X.Log.store_faults book.new)) }
    ensures same { is_kept book.new ≡ is_kept book.old }
    ensures kept { X.kept site.new ≡ X.kept site.old }
    ensures lent { X.lent site.new ≡ X.lent site.old }
    ensures logs { X.logs site.new ≡ X.logs site.old }
{
    let Crew { accounts, clocks } = crew;
    let TermEnd {
        accounts,
        links,
        clocks,
        ended,
    } = serve_term(rt, alloc, manner, port, clocks, gate, accounts, connections);
    match ended {
        TermStop::Town(_) => {
            drop(links);
            (Crew { accounts, clocks }, Some(Stop::Memory))
        }
        _ => {
            lines::tell_term(alloc, err, links.as_slice(), ended);
            match tell(alloc, site, links, accounts.as_slice()) {
                Ok(()) => {
                    let last = stop_after(ended, port);
                    match book.save_term(alloc, err, accounts.as_slice()) {
                        Ok(()) => (Crew { accounts, clocks }, last),
                        Err(stop) => (Crew { accounts, clocks }, Some(stop)),
                    }
                }
                Err(stop) => (Crew { accounts, clocks }, Some(stop)),
            }
        }
    }
}
