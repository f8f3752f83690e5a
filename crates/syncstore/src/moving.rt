//! The commands `dump` and `restore` over the files of the system.

use crate::explain::{explain_empty, explain_move};
use ss_links::Traffic;
use ss_outside::{StdSink, StdSource};
use ss_real_site::{Folders, RealSite};
use ss_run_move::{Verb, read_move, run_move};

/// What becomes of a folder that isn't there: a dump doesn't make it.
fn folders_for(verb: Verb) -> Folders {
    match verb {
        Verb::Dump => Folders::Missed,
        Verb::Restore => Folders::Made,
    }
}

/// Whether words ask to move an account of a folder whose name is empty, which would be the system's root.
fn names_no_folder(words: &[String]) -> bool {
    match read_move(words) {
        Some(command) => command.folder.is_empty(),
        None => false,
    }
}

/// Runs the command `dump` or `restore`, and answers its status.
pub fn move_account(system: &HostRuntime, verb: Verb, words: &[String]) -> u8 {
    if names_no_folder(words) {
        let name = match verb {
            Verb::Dump => "dump",
            Verb::Restore => "restore",
        };
        explain_empty(system, "FOLDER", name);
        return 1;
    }
    let traffic = Traffic::new();
    let mut site = RealSite::new(system, system, &traffic, folders_for(verb));
    let mut input = StdSource::new(system.stdin());
    let mut output = StdSink::new(system.stdout());
    let ending = run_move(system.alloc(), words, &mut site, &mut input, &mut output);
    explain_move(system, words, &ending, site.trouble(), site.made());
    ending.status()
}
