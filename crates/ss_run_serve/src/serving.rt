//! A server, from the opening of its accounts until all that it got is given back.

ghost use Rattle.std.specs.Prelude.{◌≡◌, ◌≤◌, map, replicate, vec_len, All, IfOk};
ghost use Rattle.ss_words.specs.declared.commands.Command.TheVariants.{Serve};
ghost use Rattle.ss_words.specs.Commands.{HasRange};
ghost use Rattle.ss_run_serve.specs.Watched.{port_in};
ghost use Rattle.ss_run_serve.specs.Hosted.{hosted_at, HasEmptyJournal};
ghost use Rattle.ss_run_serve.specs.Lending.{AllAreBack, ListensAt, OpensAt};
ghost use Rattle.ss_run_serve.specs.Course.{CameTo};
ghost use Rattle.ss_run_serve.specs.Serving.{IsServerRun};
ghost use Rattle.ss_run_serve.specs.Logs.{logs_of, AreLoggedUntil, AreLoggedAt, HasCut, LogsFailed};
ghost use Rattle.ss_run_serve.specs.Logbooks.{number_in, is_kept, files_in, failures_in};

use crate::lines;
use crate::logbook::{Logbook, close_book, open_book};
use crate::opening::open_accounts;
use crate::retiring::retire_all;
use crate::stop::Stop;
use crate::term::Crew;
use crate::terms::serve_terms;
use crate::watched::Watched;
use ss_booked::Booked;
use ss_links::{Gate, Port};
use ss_outside::Sink;
use ss_serve::LinkReport;
use ss_site::{Site, SiteFault};
use ss_words::ServeCommand;
use std::alloc::{AllocError, Global};
use std::sync::Wait;
use std::thread::Threads;

/// A clock for each worker, of which none was read.
fn clocks_of<X: Site>(
    alloc: Global,
    site: &mut X,
    workers: usize,
) -> Result<Vec<X::Clock>, AllocError>
where
    X::Clock: Drop,
    ensures count { IfOk result (λ clocks. vec_len clocks ≡ workers) }
    ensures unread { IfOk result (λ clocks. map X.Clock.coming clocks.items
        ≡ replicate workers (X.lent site.old).readings) }
    ensures counts { X.counts site.new ≡ X.counts site.old }
    ensures terms { X.terms site.new ≡ X.terms site.old }
    ensures kept { X.kept site.new ≡ X.kept site.old }
    ensures lent { X.lent site.new ≡ X.lent site.old }
    ensures logs { X.logs site.new ≡ X.logs site.old }
{
    let mut clocks = Vec::with_capacity(alloc, workers)?;
    for _worker in 0..workers {
        clocks.push_reserved(site.clock());
    }
    Ok(clocks)
}

/// Serves accounts that are open. They come back, and why the server stopped.
fn serve_opened<X, G, T, R>(
    rt: &R,
    alloc: Global,
    site: &mut X,
    gate: &G,
    err: &mut T,
    command: &ServeCommand,
    book: &mut Logbook<X::Log>,
    accounts: Vec<(u32, Booked<X::Keeper>)>,
) -> (Vec<(u32, Booked<X::Keeper>)>, Stop)
where
    X: Site<Report = LinkReport<<<X as Site>::Port as Port>::Link>>,
    X::Keeper: Send,
    X::Clock: Drop + Send,
    <<X as Site>::Port as Port>::Link: Drop + Send,
    G: Gate + Sync,
    T: Sink,
    R: Threads + Wait + Sync,
    requires range { HasRange (Serve command.now) }
    requires begun { All (λ account. HasEmptyJournal account.1) (map (hosted_at X.Keeper.told X.Keeper.keep_faults)
        accounts.items) }
    ensures came { CameTo command.now.manner X.Port.Link.Told.told X.Port.Link.closed (G.says gate.now)
        (map (hosted_at X.Keeper.told X.Keeper.keep_faults) accounts.items)
        (replicate command.now.workers (X.lent site.old).readings) command.now.connections command.now.terms
        (X.terms site.old) (X.terms site.new) (X.counts site.old) (X.counts site.new)
        (map (hosted_at X.Keeper.told X.Keeper.keep_faults) result.0.items) result.1
        (λ told. AreLoggedUntil result.1 (logs_of (number_in book.old) told) (files_in X.Log.held book.old)
        (files_in X.Log.held book.new)) }
    ensures cut { HasCut (failures_in X.Log.store_faults book.new) result.1 }
    ensures same { is_kept book.new ≡ is_kept book.old }
    ensures logs { X.logs site.new ≡ X.logs site.old }
    ensures kept { X.kept site.new ≡ X.kept site.old }
    ensures returned { AllAreBack (X.lent site.old) (X.lent site.new) }
    ensures listens { ListensAt command.now.address (X.lent site.old) (X.lent site.new) }
    ensures keepers { (X.lent site.new).keepers ≡ (X.lent site.old).keepers }
{
    let Ok(clocks) = clocks_of(alloc, site, command.workers as usize) else {
        return (accounts, Stop::Memory);
    };
    let mut port = match site.listen(alloc, command.address.as_str()) {
        Ok(port) => Watched::new(port),
        Err(SiteFault::Fault) => return (accounts, Stop::Site),
        Err(SiteFault::Memory) => return (accounts, Stop::Memory),
    };
    lines::tell_listening(alloc, err, command);
    let crew = Crew { accounts, clocks };
    let (accounts, stop) = serve_terms(rt, alloc, site, &mut port, gate, err, command, book, crew);
    site.shut(port.into_port());
    (accounts, stop)
}

/// Serves accounts that are open, and keeps the logs of their terms where the command names a folder. The accounts come
/// back, and why the server stopped.
fn serve_logged<X, G, T, R>(
    rt: &R,
    alloc: Global,
    site: &mut X,
    gate: &G,
    err: &mut T,
    command: &ServeCommand,
    accounts: Vec<(u32, Booked<X::Keeper>)>,
) -> (Vec<(u32, Booked<X::Keeper>)>, Stop)
where
    X: Site<Report = LinkReport<<<X as Site>::Port as Port>::Link>>,
    X::Keeper: Send,
    X::Clock: Drop + Send,
    <<X as Site>::Port as Port>::Link: Drop + Send,
    G: Gate + Sync,
    T: Sink,
    R: Threads + Wait + Sync,
    requires range { HasRange (Serve command.now) }
    requires begun { All (λ account. HasEmptyJournal account.1) (map (hosted_at X.Keeper.told X.Keeper.keep_faults)
        accounts.items) }
    ensures came { CameTo command.now.manner X.Port.Link.Told.told X.Port.Link.closed (G.says gate.now)
        (map (hosted_at X.Keeper.told X.Keeper.keep_faults) accounts.items)
        (replicate command.now.workers (X.lent site.old).readings) command.now.connections command.now.terms
        (X.terms site.old) (X.terms site.new) (X.counts site.old) (X.counts site.new)
        (map (hosted_at X.Keeper.told X.Keeper.keep_faults) result.0.items) result.1
        (λ told. AreLoggedAt command.now.logs result.1 told (X.logs site.old) (X.logs site.new)) }
    ensures failed { LogsFailed (X.counts site.old) (X.counts site.new) result.1 }
    ensures kept { X.kept site.new ≡ X.kept site.old }
    ensures returned { AllAreBack (X.lent site.old) (X.lent site.new) }
    ensures listens { ListensAt command.now.address (X.lent site.old) (X.lent site.new) }
    ensures keepers { (X.lent site.new).keepers ≡ (X.lent site.old).keepers }
{
    let mut book = match open_book(alloc, site, command) {
        Ok(book) => book,
        Err(stop) => return (accounts, stop),
    };
    let (accounts, stop) = serve_opened(rt, alloc, site, gate, err, command, &mut book, accounts);
    close_book(site, book);
    (accounts, stop)
}

/// Opens the accounts of a server, serves them, and gives their keepers back.
pub(crate) fn serve<X, G, T, R>(
    rt: &R,
    alloc: Global,
    site: &mut X,
    gate: &G,
    err: &mut T,
    command: &ServeCommand,
) -> Stop
where
    X: Site<Report = LinkReport<<<X as Site>::Port as Port>::Link>>,
    X::Keeper: Send,
    X::Clock: Drop + Send,
    <<X as Site>::Port as Port>::Link: Drop + Send,
    G: Gate + Sync,
    T: Sink,
    R: Threads + Wait + Sync,
    requires range { HasRange (Serve command.now) }
    ensures served { IsServerRun X.Port.Link.Told.told X.Port.Link.closed (G.says gate.now) command.now result
        (record {
          counts = X.counts site.old;
          terms = X.terms site.old;
          kept = X.kept site.old;
          logs = X.logs site.old;
          readings = (X.lent site.old).readings;
        })
        (record {
          counts = X.counts site.new;
          terms = X.terms site.new;
          kept = X.kept site.new;
          logs = X.logs site.new;
          readings = (X.lent site.new).readings;
        }) }
    ensures returned { AllAreBack (X.lent site.old) (X.lent site.new) }
    ensures listens { ListensAt command.now.address (X.lent site.old) (X.lent site.new) }
    ensures opens { OpensAt command.now.folder command.now.uids (X.lent site.old) (X.lent site.new) }
{
    let folder = command.folder.as_str();
    let accounts = match open_accounts(alloc, site, folder, command.uids.as_slice()) {
        Ok(accounts) => accounts,
        Err(stop) => return stop,
    };
    let (accounts, stop) = serve_logged(rt, alloc, site, gate, err, command, accounts);
    retire_all(site, folder, accounts);
    stop
}
