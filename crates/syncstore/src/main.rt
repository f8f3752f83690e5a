//! `syncstore`: a storage server with the behaviour of Mozilla's SyncStorage API 1.5. The words name the command: a
//! server of accounts that are kept in files, recorded messages that are answered, a device that syncs or is edited, a
//! rehearsal of two, what rows of history or forms come to, an account's dump, written or restored, or an audit of logs.
//! Its contracts, on the calls that `main` makes: `run_serve`, `run_offline`, `run_sync`, `run_device_command`,
//! `run_flat`, `run_move`, `run_audit` and `run_rehearsal`.
#![tactic(auto)]

mod beginning;
mod explain;
mod limits;
mod moving;
mod online;
mod positionals;
mod refusals;
mod usage;

use ss_links::{TcpGate, Traffic};
use ss_outside::{StdSink, StdSource, SystemClock};
use ss_real_site::{Folders, RealSite};
use ss_rehearse::{Ending as RehearseEnding, run_rehearsal};
use ss_run_answer::run_offline;
use ss_run_audit::{NAME as AUDIT, run_audit};
use ss_run_edit::{Ending as EditEnding, run_device_command};
use ss_run_flat::{NAME as FLAT, run_flat};
use ss_run_move::Verb;
use ss_run_serve::run_serve;
use ss_words::Name;
use std::env;
use std::process::ExitCode;

/// Answers messages over the standard streams by the clock of the system, and gives the status.
fn run_here(system: &HostRuntime, words: &[String]) -> u8 {
    let mut input = StdSource::new(system.stdin());
    let mut output = StdSink::new(system.stdout());
    let mut clock = SystemClock::new(system);
    let ending = run_offline(system.alloc(), words, &mut input, &mut output, &mut clock);
    explain::explain_answer(system, system.alloc(), words, ending);
    ending.status()
}

/// Runs a command on the device's file that is the standard input, and answers its status.
fn run_device(system: &HostRuntime, words: &[String]) -> u8 {
    let mut input = StdSource::new(system.stdin());
    let mut output = StdSink::new(system.stdout());
    let mut clock = SystemClock::new(system);
    let mut err = StdSink::new(system.stderr());
    let ending = run_device_command(
        system.alloc(),
        words,
        &mut input,
        &mut output,
        &mut clock,
        &mut err,
    );
    if let EditEnding::OtherWords = &ending {
        explain::explain_words(system, system.alloc(), words);
    }
    ending.status()
}

/// Runs the command `flat` on the rows that are the standard input, and answers its status.
fn flatten(system: &HostRuntime, words: &[String]) -> u8 {
    let mut input = StdSource::new(system.stdin());
    let mut output = StdSink::new(system.stdout());
    let mut err = StdSink::new(system.stderr());
    run_flat(system.alloc(), words, &mut input, &mut output, &mut err).status()
}

/// Audits the logs that are the standard input, and answers the status.
fn audit(system: &HostRuntime, words: &[String]) -> u8 {
    let mut input = StdSource::new(system.stdin());
    let mut output = StdSink::new(system.stdout());
    let mut err = StdSink::new(system.stderr());
    run_audit(system.alloc(), words, &mut input, &mut output, &mut err).status()
}

/// Runs the command `rehearse`, and answers its status.
fn rehearse(system: &HostRuntime, words: &[String]) -> u8 {
    let mut output = StdSink::new(system.stdout());
    let mut err = StdSink::new(system.stderr());
    let ending = run_rehearsal(system.alloc(), words, &mut output, &mut err);
    if let RehearseEnding::OtherWords = ending {
        explain::explain_words(system, system.alloc(), words);
    }
    ending.status()
}

/// Whether the first word is the name of a command.
fn is_named(words: &[String], name: &str) -> bool {
    match words.first() {
        Some(word) => word.as_str() == name,
        None => false,
    }
}

/// What the first word names of `dump` and `restore`.
fn verb_of(words: &[String]) -> Option<Verb> {
    match words.first() {
        Some(word) => Verb::read(word.as_str()),
        None => None,
    }
}

/// The command that the first word names, but for `flat`, `audit`, `dump` and `restore`.
fn name_of(words: &[String]) -> Option<Name> {
    match words.first() {
        Some(word) => Name::read(word.as_str()),
        None => None,
    }
}

fn main(rt: HostRuntime) -> ExitCode {
    let arguments = match env::args(&rt) {
        Ok(arguments) => arguments,
        Err(error) => return ExitCode::from(explain::explain_unread(&rt, &error)),
    };
    let Ok(words) = arguments.skip(1).collect::<Vec<String>>(rt.alloc()) else {
        explain::explain_memory(&rt);
        return ExitCode::from(8);
    };
    if let Some(text) = usage::asked_for(words.as_slice()) {
        return ExitCode::from(usage::print(&rt, text));
    }
    let status = match name_of(words.as_slice()) {
        Some(Name::Serve) => {
            // Here alone may the runtime start threads.
            let traffic = Traffic::new();
            let mut site = RealSite::new(&rt, &rt, &traffic, Folders::Made);
            if let Err(status) = beginning::prepare(&rt, &mut site, words.as_slice()) {
                return ExitCode::from(status);
            }
            let mut err = StdSink::new(rt.stderr());
            let ending = run_serve(
                &rt,
                rt.alloc(),
                words.as_slice(),
                &mut site,
                &TcpGate::new(&rt, &traffic),
                &mut err,
            );
            let trouble = site.trouble();
            explain::explain_serve(&rt, rt.alloc(), words.as_slice(), ending, trouble);
            ending.status()
        }
        Some(Name::Sync) => online::sync(&rt, words.as_slice()),
        Some(Name::Edit) | Some(Name::Merge) => run_device(&rt, words.as_slice()),
        Some(Name::Rehearse) => rehearse(&rt, words.as_slice()),
        None if is_named(words.as_slice(), FLAT) => flatten(&rt, words.as_slice()),
        None if is_named(words.as_slice(), AUDIT) => audit(&rt, words.as_slice()),
        None => match verb_of(words.as_slice()) {
            Some(verb) => moving::move_account(&rt, verb, words.as_slice()),
            None => run_here(&rt, words.as_slice()),
        },
        Some(Name::Answer) => run_here(&rt, words.as_slice()),
    };
    ExitCode::from(status)
}
