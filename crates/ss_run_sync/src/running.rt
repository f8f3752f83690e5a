//! A run of the command `sync`.

ghost use Rattle.std.specs.Prelude.{◌≡◌, ◌≢◌, map, string_bytes};
ghost use Rattle.ss_words.specs.Urls.{HasHost};
ghost use Rattle.ss_run_sync.specs.Endings.{Reports, status_of};
ghost use Rattle.ss_run_sync.specs.Syncs.{Went, outside_of};
ghost use Rattle.ss_run_sync.specs.Joined.{HangsJoinedLinks};
ghost use Rattle.ss_run_sync.specs.Runs.{Runs, Causes};

use crate::endings::{Ending, Trouble};
use crate::files::{load, save};
use crate::lines::stopped;
use crate::linking::{Came, over_links};
use crate::naming::host_named;
use crate::reports::Report;
use ss_client::{Fetch, Machine, SyncFault};
use ss_links::{Dial, Store};
use ss_outside::Sink;
use ss_words::{Command, SyncCommand, WordsFault, read_command};
use std::alloc::Global;

/// What is told of a run that stopped.
fn stop(alloc: Global, fault: SyncFault) -> Report
    ensures { Reports fault result }
{
    match stopped(alloc, &fault) {
        Ok(line) => Report::Line {
            ending: Ending::Stopped(fault),
            line,
        },
        Err(_) => Report::Short(Trouble::Memory),
    }
}

/// Which rows a sync fetches.
fn fetch_of(command: &SyncCommand) -> Fetch
    ensures { result ≡ Rattle.ss_run_sync.specs.Syncs.fetch_of command.now }
{
    if command.newer {
        Fetch::Newer
    } else {
        Fetch::Whole
    }
}

/// Syncs the device of a file with an account of a server.
fn sync<D: Dial, S: Store>(
    alloc: Global,
    command: &SyncCommand,
    dial: &mut D,
    store: &mut S,
) -> Report
    requires { HasHost command.now.server }
    ensures { Went command.now result
        (outside_of D.asked D.hung D.dial_faults S.held S.store_faults dial.old store.old)
        (outside_of D.asked D.hung D.dial_faults S.held S.store_faults dial.new store.new) }
{
    let Ok(host) = host_named(alloc, &command.server) else {
        return Report::Short(Trouble::Memory);
    };
    let device = match load(alloc, command.file.as_str(), store) {
        Ok(device) => device,
        Err(trouble) => return Report::Short(trouble),
    };
    let (machine, request) = Machine::start(alloc, device, fetch_of(command));
    match over_links(
        alloc,
        machine,
        request,
        &command.server,
        host.as_str(),
        dial,
    ) {
        Came::Done(device, summary) => {
            save(alloc, command.file.as_str(), &device, &summary, store)
        }
        Came::Stop(fault) => stop(alloc, fault),
        Came::Wire => Report::Short(Trouble::Wire),
        Came::Memory => Report::Short(Trouble::Memory),
    }
}

/// Reads the words, syncs, and prints the line.
fn run<D: Dial, S: Store, T: Sink>(
    alloc: Global,
    words: &[String],
    dial: &mut D,
    store: &mut S,
    output: &mut T,
) -> Ending
    ensures { Runs (map (λ word. string_bytes word) words.now) result
        (outside_of D.asked D.hung D.dial_faults S.held S.store_faults dial.old store.old)
        (outside_of D.asked D.hung D.dial_faults S.held S.store_faults dial.new store.new)
        (T.Told.told output.old) (T.Told.told output.new) }
{
    let command = match read_command(alloc, words) {
        Ok(command) => command,
        Err(WordsFault::Refused(_)) => return Ending::OtherWords,
        Err(WordsFault::Memory) => return Report::Short(Trouble::Memory).print(output),
    };
    let Command::Sync(command) = command else {
        return Ending::OtherWords;
    };
    sync(alloc, &command, dial, store).print(output)
}

/// Runs the words `sync URL FILE [--newer]`, prints one line of how it went, and answers how it ended: `Synced` where
/// the device was synced and saved; `OtherWords` where the words ask no sync, and nothing is done or printed; `Stopped`
/// where the server refused a request, something changed four times, the plan is beyond the server's limits or a reply
/// can't be read; `Failed` where a dial or a link failed, the file is no device's file or could not be read or written,
/// or without memory; `Unprinted` where the line could not be printed.
pub fn run_sync<D: Dial, S: Store, T: Sink>(
    alloc: Global,
    words: &[String],
    dial: &mut D,
    store: &mut S,
    output: &mut T,
) -> Ending
    // What was dialled, sent, heard, saved and printed.
    ensures runs { Runs (map (λ word. string_bytes word) words.now) result
        (outside_of D.asked D.hung D.dial_faults S.held S.store_faults dial.old store.old)
        (outside_of D.asked D.hung D.dial_faults S.held S.store_faults dial.new store.new)
        (T.Told.told output.old) (T.Told.told output.new) }
    // What went over all links together: the requests of the machine for the responses that came.
    ensures joined { HangsJoinedLinks (map (λ word. string_bytes word) words.now)
        (outside_of D.asked D.hung D.dial_faults S.held S.store_faults dial.old store.old)
        (outside_of D.asked D.hung D.dial_faults S.held S.store_faults dial.new store.new) }
    // Which count rose, by the status.
    ensures causes { Causes (status_of result)
        (outside_of D.asked D.hung D.dial_faults S.held S.store_faults dial.old store.old)
        (outside_of D.asked D.hung D.dial_faults S.held S.store_faults dial.new store.new)
        (T.Told.told output.old) (T.Told.told output.new) }
    // Only a sync that is done changes a file.
    ensures kept { status_of result ≢ 0 → status_of result ≢ 10 → S.held store.new ≡ S.held store.old }
{
    run(alloc, words, dial, store, output)
}
