//! A device, its file and its sync, a case a line. An edit is a line of words; a file is the lines that begin with `[`,
//! which the lines behind them read, change and cut; and a sync is a line `run` with the replies that it gets.

mod edits;
mod files;
mod large;
mod runs;
mod texts;

use crate::words::split;
use anyhow::bail;
use edits::Edits;
use files::Files;
use runs::Runs;
use std::alloc::Global;

/// What the lines so far have made.
#[derive(Drop)]
struct Cases {
    edits: Edits,
    files: Files,
    runs: Runs,
}

impl Cases {
    fn new(alloc: Global) -> anyhow::Result<Cases> {
        Ok(Cases {
            edits: Edits::new(alloc)?,
            files: Files::new(alloc),
            runs: Runs::new(),
        })
    }

    /// What comes of a case.
    fn outcome(&mut self, alloc: Global, line: &str) -> anyhow::Result<String> {
        let words = split(alloc, line)?;
        if let Some(told) = self.edits.outcome(alloc, words.as_slice())? {
            return Ok(told);
        }
        if let Some(told) = self.runs.outcome(alloc, words.as_slice())? {
            return Ok(told);
        }
        match self.files.outcome(alloc, line)? {
            Some(told) => Ok(told),
            None => bail!("no case: {line}"),
        }
    }

    /// Takes a line, and tells it with what comes of it. A line of a file isn't told.
    fn take(&mut self, rt: &HostRuntime, line: &str) -> anyhow::Result<()> {
        if line.starts_with('[') {
            return self.files.push_line(line);
        }
        if line.is_empty() || line.starts_with('#') {
            println!(rt; "{line}")?;
            return Ok(());
        }
        let told = self.outcome(rt.alloc(), line)?;
        let end = if told.as_str().ends_with('\n') {
            ""
        } else {
            "\n"
        };
        print!(rt; "{line}: {told}{end}")?;
        Ok(())
    }
}

/// Takes the lines, one after the other.
fn take_all(rt: &HostRuntime, cases: &mut Cases, lines: &[String]) -> anyhow::Result<()> {
    for line in lines {
        cases.take(rt, line.as_str())?;
    }
    Ok(())
}

/// Tells what comes of each line.
pub fn tell_cases(rt: &HostRuntime, lines: &[String]) -> anyhow::Result<()> {
    let mut cases = Cases::new(rt.alloc())?;
    let told = take_all(rt, &mut cases, lines);
    drop(cases);
    told
}
