//! What the program says on standard error of faulty words, and of how a command ended. Where no memory is found for a
//! text, a fixed one stands in its place, which takes none.

use crate::refusals::{refusal_of_move, refused, shown};
use ss_real_site::Trouble;
use ss_run_answer::Ending;
use ss_run_move::{Ending as MoveEnding, MoveCommand, Verb, read_move};
use ss_run_serve::{Ending as ServeEnding, Stop};
use ss_words::{Command, ServeCommand, WordsFault, read_command};
use std::alloc::{AllocError, Global};
use std::io::{self, Eprint, ErrorKind};

/// Says on standard error that no memory was found.
pub fn explain_memory(rt: &impl Eprint) {
    let _ = eprintln!(rt; "syncstore: no memory was found");
}

/// Says on standard error why the words can't be read, want of memory or words that are no text, and answers the
/// status.
pub fn explain_unread(rt: &impl Eprint, error: &io::Error) -> u8 {
    if error.kind() == ErrorKind::OutOfMemory {
        explain_memory(rt);
        return 8;
    }
    let _ = eprintln!(rt; "syncstore: words that are no text of UTF-8; try syncstore --help");
    1
}

/// Says a text on standard error, or that no memory was found for it.
pub fn say(rt: &impl Eprint, text: Result<String, AllocError>) {
    match text {
        Ok(text) => {
            let _ = eprintln!(rt; "{text}");
        }
        Err(_) => explain_memory(rt),
    }
}

/// Says on standard error why words ask nothing, and names the word.
pub fn explain_words(rt: &impl Eprint, alloc: Global, words: &[String]) {
    match read_command(alloc, words) {
        Ok(_) => {}
        Err(WordsFault::Refused(refusal)) => say(rt, refused(alloc, words, refusal)),
        Err(WordsFault::Memory) => explain_memory(rt),
    }
}

/// Says on standard error that the word for a file or a folder of a command is empty.
pub fn explain_empty(rt: &impl Eprint, word: &str, command: &str) {
    let _ = eprintln!(rt; "syncstore: {word} is an empty word; try syncstore {command} --help");
}

/// Says on standard error how a run of `answer` with these words ended, where its input wasn't answered to its end.
pub fn explain_answer(rt: &impl Eprint, alloc: Global, words: &[String], ending: Ending) {
    let text = match ending {
        Ending::End | Ending::Asked => return,
        Ending::OtherWords => return explain_words(rt, alloc, words),
        Ending::Input => "reading the input failed",
        Ending::Output => "writing the output failed",
        Ending::Cut => "the input ended inside a message",
        Ending::Refused => "what came is no message",
        Ending::Count => "1,000,000 messages were answered",
        Ending::Memory => return explain_memory(rt),
    };
    let _ = eprintln!(rt; "syncstore: {text}");
}

/// Where something failed at the site of a server: its address, its folder or that of its logs.
fn place_of(command: &ServeCommand, trouble: Trouble) -> &str {
    match (trouble, &command.logs) {
        (Trouble::Address(_) | Trouble::Port, _) => command.address.as_str(),
        (Trouble::LogFolder(_) | Trouble::Log | Trouble::LogIsThere, Some(logs)) => {
            logs.folder.as_str()
        }
        _ => command.folder.as_str(),
    }
}

/// Says on standard error what failed at the site of a server, if anything did; where no memory is found for the place,
/// without it.
pub fn explain_trouble(
    rt: &impl Eprint,
    alloc: Global,
    command: &ServeCommand,
    trouble: Option<Trouble>,
) {
    let Some(trouble) = trouble else {
        return;
    };
    let _ = match shown(alloc, place_of(command, trouble)) {
        Ok(place) => eprintln!(rt; "syncstore: {place}: {trouble}"),
        Err(_) => eprintln!(rt; "syncstore: {trouble}"),
    };
}

/// Says on standard error why a server stopped, and which file it is where it is one's fault.
fn explain_stop(rt: &impl Eprint, command: &ServeCommand, stop: Stop) {
    let folder = command.folder.as_str();
    let _ = match stop {
        Stop::Damaged { uid } | Stop::Keeper { uid } | Stop::Account { uid, .. } => eprintln!(rt;
            "syncstore: stopped: {stop}; it is kept in {folder}/{uid}.db"
        ),
        _ => eprintln!(rt; "syncstore: stopped: {stop}"),
    };
}

/// The server that words ask; None too where no memory is found for it.
fn server_asked(alloc: Global, words: &[String]) -> Option<ServeCommand> {
    match read_command(alloc, words) {
        Ok(Command::Serve(command)) => Some(command),
        _ => None,
    }
}

/// Says on standard error how a run of `serve` with these words ended, and what failed at its site.
pub fn explain_serve(
    rt: &impl Eprint,
    alloc: Global,
    words: &[String],
    ending: ServeEnding,
    trouble: Option<Trouble>,
) {
    match ending {
        ServeEnding::Stopped(stop) => match server_asked(alloc, words) {
            Some(command) => {
                explain_stop(rt, &command, stop);
                explain_trouble(rt, alloc, &command, trouble);
            }
            None => {
                let _ = eprintln!(rt; "syncstore: stopped: {stop}");
            }
        },
        ServeEnding::OtherWords => explain_words(rt, alloc, words),
        ServeEnding::Memory => explain_memory(rt),
    }
}

/// Says on standard error why words ask for neither a dump nor a restore.
fn explain_move_words(rt: &impl Eprint, words: &[String]) {
    let name = match words.first() {
        Some(word) => word.as_str(),
        None => "",
    };
    let refusal = refusal_of_move(words);
    let _ = eprintln!(rt; "syncstore: {refusal}; try syncstore {name} --help");
}

/// Says on standard error what wasn't dumped or restored, of which file, and why.
fn explain_undone(rt: &impl Eprint, command: &MoveCommand<'_>, ending: &MoveEnding) {
    let MoveCommand { verb, folder, uid } = *command;
    let undone = match (verb, ending) {
        (_, MoveEnding::Done) => return,
        (Verb::Dump, MoveEnding::Output) => "not all is dumped of",
        (Verb::Dump, _) => "nothing is dumped of",
        (Verb::Restore, _) => "nothing is restored to",
    };
    let _ = eprintln!(rt; "syncstore: {undone} {folder}/{uid}.db: {ending}");
}

/// Says on standard error which file wasn't there before, and what that means.
fn explain_made(rt: &impl Eprint, command: &MoveCommand<'_>, uid: u32) {
    let folder = command.folder;
    let _ = match command.verb {
        Verb::Dump => eprintln!(rt;
            "syncstore: the file {folder}/{uid}.db was new, so its account is a fresh one"
        ),
        Verb::Restore => eprintln!(rt; "syncstore: the file {folder}/{uid}.db was new"),
    };
}

/// Says on standard error how a run of `dump` or `restore` with these words ended, what failed at its site, and whether
/// the account's file was made. It takes no memory.
pub fn explain_move(
    rt: &impl Eprint,
    words: &[String],
    ending: &MoveEnding,
    trouble: Option<Trouble>,
    made: Option<u32>,
) {
    let Some(command) = read_move(words) else {
        return explain_move_words(rt, words);
    };
    explain_undone(rt, &command, ending);
    if let Some(trouble) = trouble {
        let folder = command.folder;
        let _ = eprintln!(rt; "syncstore: {folder}: {trouble}");
    }
    if let Some(uid) = made {
        explain_made(rt, &command, uid);
    }
}
