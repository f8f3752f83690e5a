//! What a server tells an operator: lines of which no contract speaks. A line that can't be made or written is passed
//! over.

use ss_connection::{End, Turn};
use ss_links::Closable;
use ss_outside::{Sink, write_all};
use ss_serve::{LinkReport, TermStop};
use ss_words::ServeCommand;
use std::alloc::{AllocError, Global};
use std::fmt::{self, Display, Formatter, Write};

/// What the reports of a term add up to.
#[derive(Clone, Copy, Debug, PartialEq, Eq)]
struct Sums {
    connections: usize,

    /// Messages that were answered.
    messages: u64,

    /// Messages that asked an account.
    calls: u64,

    /// Messages that were refused since their account's journal was full.
    full: u64,

    /// Connections that rules of waiting ended, so that others are served.
    dismissed: u64,

    /// Other connections that ended with a failed read or write, or inside a message.
    broken: u64,
}

impl Sums {
    fn add(&mut self, turn: &Turn) {
        self.messages = self.messages.saturating_add(1);
        match turn {
            Turn::Call { .. } => self.calls = self.calls.saturating_add(1),
            Turn::Full { .. } => self.full = self.full.saturating_add(1),
            Turn::Local | Turn::Memory => {}
        }
    }
}

impl Display for Sums {
    fn fmt<W: Write>(&self, f: &mut Formatter<W>) -> fmt::Result {
        let Sums {
            connections,
            messages,
            calls,
            full,
            dismissed,
            broken,
        } = *self;
        write!(
            f,
            "{connections} connections, {dismissed} of them closed so that others are served and {broken} broken off; {messages} messages, {calls} calls, {full} refused by full journals"
        )
    }
}

fn sums_of<L: Closable>(reports: &[LinkReport<L>]) -> Sums {
    let mut sums = Sums {
        connections: reports.len(),
        messages: 0,
        calls: 0,
        full: 0,
        dismissed: 0,
        broken: 0,
    };
    for report in reports {
        for note in report.turns.iter() {
            sums.add(&note.turn);
        }
        match report.end {
            End::Gate => sums.dismissed = sums.dismissed.saturating_add(1),
            _ if report.link.is_dismissed() => sums.dismissed = sums.dismissed.saturating_add(1),
            End::Cut | End::ReadFault | End::WriteFault => {
                sums.broken = sums.broken.saturating_add(1)
            }
            _ => {}
        }
    }
    sums
}

fn say<T: Sink>(err: &mut T, line: Result<String, AllocError>) {
    if let Ok(line) = line {
        let _ = write_all(err, line.as_bytes());
    }
}

/// The uids of a command, a blank before each.
fn list_of(alloc: Global, uids: &[u32]) -> Result<String, AllocError> {
    let mut text = String::new(alloc);
    for uid in uids {
        write!(text, " {uid}")?;
    }
    Ok(text)
}

fn listening(alloc: Global, command: &ServeCommand) -> Result<String, AllocError> {
    let uids = list_of(alloc, command.uids.as_slice())?;
    let folder = command.folder.as_str();
    let address = command.address.as_str();
    format!(in alloc; "syncstore: listening at {address}, for the accounts{uids} in {folder}\n")
}

/// That the port listens, where, and for which accounts.
pub(crate) fn tell_listening<T: Sink>(alloc: Global, err: &mut T, command: &ServeCommand) {
    say(err, listening(alloc, command));
}

/// What a term came to, where something was asked in it.
pub(crate) fn tell_term<L: Closable, T: Sink>(
    alloc: Global,
    err: &mut T,
    reports: &[LinkReport<L>],
    ended: TermStop,
) {
    let sums = sums_of(reports);
    if sums.messages == 0 {
        return;
    }
    say(err, format!(in alloc; "syncstore: a term of {sums}\n"));
    if let TermStop::Full { uid } = ended {
        say(
            err,
            format!(in alloc; "syncstore: the journal of account {uid} was full\n"),
        );
    }
}

/// That the log with this name is saved, or can't be.
pub(crate) fn tell_log<T: Sink>(alloc: Global, err: &mut T, name: &str, is_saved: bool) {
    let line = if is_saved {
        format!(in alloc; "syncstore: the log {name} is saved\n")
    } else {
        format!(in alloc; "syncstore: the log {name} can't be saved\n")
    };
    say(err, line);
}

/// That the log of an account is too large, and how many bytes it has.
pub(crate) fn tell_too_large<T: Sink>(alloc: Global, err: &mut T, uid: u32, bytes: usize) {
    say(err, format!(in alloc; "log too large {uid} {bytes}\n"));
}
