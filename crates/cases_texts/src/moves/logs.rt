//! What comes of a text that may be one of logs.

use crate::moves::dumps::text_of;
use anyhow::{Result, bail};
use ss_laws::{Entry, Journal};
use ss_logs::{Log, LogFault, read_logs, write_log};
use std::alloc::Global;

/// Whether a journal has room for all entries of a log, which are entered as long as it has.
fn enter_all(journal: &mut Journal, entries: Vec<Entry>) -> bool {
    for entry in entries {
        if journal.entries().len() >= journal.most() as usize {
            return false;
        }
        journal.enter(entry);
    }
    true
}

/// The journal that a log tells; None where it has more entries than it might.
fn journal_of(alloc: Global, log: Log) -> Result<Option<Journal>> {
    let Ok(mut journal) = Journal::new(alloc, log.opening, log.most) else {
        bail!("no memory for a journal");
    };
    if enter_all(&mut journal, log.entries) {
        Ok(Some(journal))
    } else {
        Ok(None)
    }
}

/// What is told of logs, and the text that is written for their journals.
#[derive(Drop)]
struct Written {
    told: String,
    again: Vec<u8>,
}

impl Written {
    /// Adds a journal, as a number of entries and as a text.
    fn add(&mut self, alloc: Global, journal: &Journal) -> Result<()> {
        self.again
            .extend_from_slice(write_log(alloc, journal)?.as_slice())?;
        self.told.push_str(format!(in alloc; " {}", journal.entries().len())?.as_str())?;
        Ok(())
    }

    /// Adds a log; tells how many entries it has where these are more than it might have.
    fn take(&mut self, alloc: Global, log: Log) -> Result<Option<String>> {
        let entries = log.entries.len();
        let most = log.most;
        match journal_of(alloc, log)? {
            Some(journal) => {
                self.add(alloc, &journal)?;
                Ok(None)
            }
            None => Ok(Some(format!(in alloc; "{entries} entries where there might be {most}")?)),
        }
    }
}

/// What comes of the logs of a text.
fn logs_told(alloc: Global, text: &[u8], logs: Vec<Log>) -> Result<String> {
    let mut written = Written {
        told: String::from_str(alloc, "logs of")?,
        again: Vec::new(alloc),
    };
    for log in logs {
        if let Some(refused) = written.take(alloc, log)? {
            return Ok(refused);
        }
    }
    if written.again.as_slice() != text {
        bail!("another text is written: {}", written.told);
    }
    Ok(written.told)
}

/// What comes of a text: how many entries each of its logs has, and whether the same text is written for their journals; or
/// the line for which it is refused.
pub fn log_line(alloc: Global, lines: &[String]) -> Result<String> {
    let text = text_of(alloc, lines)?;
    match read_logs(alloc, &text) {
        Ok(logs) => logs_told(alloc, text.as_slice(), logs),
        Err(LogFault::BadLine { n }) => Ok(format!(in alloc; "line {n}")?),
        Err(LogFault::Memory) => bail!("no memory for logs"),
    }
}
