//! The terms of a server, one after the other.

ghost use Rattle.std.specs.Prelude.{◌≡◌, ◌<◌, ◌≤◌, map, vec_len, All, OnOk};
ghost use Rattle.std.specs.List.{AllZip};
ghost use Rattle.ss_links.specs.Ports.{idle_port};
ghost use Rattle.ss_run_serve.specs.Logs.{HasCut};
ghost use Rattle.ss_run_serve.specs.Logbooks.{number_in, is_kept, files_in, failures_in};
ghost use Rattle.ss_run_serve.specs.Watched.{port_in};
ghost use Rattle.ss_run_serve.specs.Hosted.{hosted_account, hosted_at, HasEmptyJournal};
ghost use Rattle.ss_run_serve.specs.Terms.{BeginsAnew};
ghost use Rattle.ss_run_serve.specs.Course.{Course, SameKeeper};
ghost use Rattle.ss_town.specs.Limits.{most_connections, most_workers};

use crate::logbook::Logbook;
use crate::stop::Stop;
use crate::term::{Crew, serve_once};
use crate::watched::Watched;
use ss_booked::Booked;
use ss_keeper::Keeper;
use ss_links::{Gate, Port};
use ss_outside::{Clock, Sink};
use ss_serve::LinkReport;
use ss_site::Site;
use ss_words::ServeCommand;
use std::alloc::{AllocError, Global};
use std::sync::Wait;
use std::thread::Threads;

/// Folds the journal of an account, so that it begins anew.
fn fold<K: Keeper>(account: &mut (u32, Booked<K>)) -> Result<(), AllocError>
    ensures folded { OnOk result (BeginsAnew (hosted_at K.told K.keep_faults account.old)
        (hosted_at K.told K.keep_faults account.new)) }
    ensures same { SameKeeper (hosted_at K.told K.keep_faults account.old)
        (hosted_at K.told K.keep_faults account.new) }
{
    account.1.fold()
}

/// Folds the journal of each account. Where memory is wanting some are folded and others not.
fn fold_all<K: Keeper>(accounts: &mut [(u32, Booked<K>)]) -> Result<(), AllocError>
    ensures folded { OnOk result (AllZip BeginsAnew (map (hosted_at K.told K.keep_faults) accounts.old)
        (map (hosted_at K.told K.keep_faults) accounts.new)) }
    ensures same { AllZip SameKeeper (map (hosted_at K.told K.keep_faults) accounts.old)
        (map (hosted_at K.told K.keep_faults) accounts.new) }
{
    for account in accounts.iter_mut() {
        fold(account)?;
    }
    Ok(())
}

/// Serves terms one after the other, in the command's manner, until the server stops, and folds the journals between
/// two, once their logs are saved. The accounts come back, and why it stopped.
pub(crate) fn serve_terms<X, G, T, R>(
    rt: &R,
    alloc: Global,
    site: &mut X,
    port: &mut Watched<X::Port>,
    gate: &G,
    err: &mut T,
    command: &ServeCommand,
    book: &mut Logbook<X::Log>,
    mut crew: Crew<X::Keeper, X::Clock>,
) -> (Vec<(u32, Booked<X::Keeper>)>, Stop)
where
    X: Site<Report = LinkReport<<<X as Site>::Port as Port>::Link>>,
    X::Keeper: Send,
    X::Clock: Drop + Send,
    <<X as Site>::Port as Port>::Link: Drop + Send,
    G: Gate + Sync,
    T: Sink,
    R: Threads + Wait + Sync,
    requires clocks { (0 < vec_len crew.clocks) × (vec_len crew.clocks ≤ most_workers) }
    requires connections { command.now.connections ≤ most_connections }
    requires terms { command.now.terms ≤ 999999999999 }
    requires begun { All (λ account. HasEmptyJournal account.1) (map (hosted_at X.Keeper.told X.Keeper.keep_faults)
        crew.accounts.items) }
    requires idle { X.Port.counts (port_in port.old) ≡ idle_port }
    ensures course { Course command.now.manner X.Port.Link.Told.told X.Port.Link.closed (G.says gate.now)
        (map (hosted_at X.Keeper.told X.Keeper.keep_faults) crew.accounts.items) (map X.Clock.coming crew.clocks.items)
        command.now.connections command.now.terms (X.terms site.old) (X.terms site.new) (X.counts site.old) (X.counts site.new) (X.Port.counts (port_in port.new))
        (map (hosted_at X.Keeper.told X.Keeper.keep_faults) result.0.items) result.1
        (number_in book.old) (files_in X.Log.held book.old) (files_in X.Log.held book.new) }
    ensures cut { HasCut (failures_in X.Log.store_faults book.new) result.1 }
    ensures same { is_kept book.new ≡ is_kept book.old }
    ensures kept { X.kept site.new ≡ X.kept site.old }
    ensures lent { X.lent site.new ≡ X.lent site.old }
    ensures logs { X.logs site.new ≡ X.logs site.old }
{
    let mut left = command.terms;
    'terms: for _ in rt.forever() {
        let (after, last) = serve_once(
            rt,
            alloc,
            command.manner,
            site,
            port,
            gate,
            err,
            command.connections as u32,
            book,
            crew,
        );
        crew = after;
        match last {
            Some(stop) => return (crew.accounts, stop),
            None => {
                if left == 1 {
                    return (crew.accounts, Stop::Terms);
                }
                left = left.saturating_sub(1);
                match fold_all(crew.accounts.as_mut_slice()) {
                    Ok(()) => {}
                    Err(_) => return (crew.accounts, Stop::Memory),
                }
            }
        }
    }
    unreachable!()
}
