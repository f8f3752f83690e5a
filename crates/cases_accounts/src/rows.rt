//! Rows as they are held, a case a line. A chain is put under calls and a shelf under queries, against plain lists.
//! That few links lead to few rows is promised (`newer.rt`).

ghost use Rattle.std.specs.Prelude.{◌≡◌, ◌<◌};

mod chain_draws;
mod chains;
mod newer;
mod plain;
mod shelf_draws;
mod shelf_rows;

use crate::words::split;
use anyhow::bail;
use chains::Chains;
use shelf_draws::Shelves;
use ss_list::Steps;
use std::alloc::Global;
use std::marker::Brand;
use std::sync::ledger::{Blank, Ledger};

/// What the lines so far have made.
#[derive(Drop)]
struct Cases {
    chains: Chains,
    shelves: Shelves,
}

impl Cases {
    fn new(alloc: Global) -> Cases {
        Cases {
            chains: Chains::new(alloc),
            shelves: Shelves::new(alloc),
        }
    }

    /// What comes of a case.
    fn outcome<L: Ledger>(
        &mut self,
        alloc: Global,
        line: &str,
        steps: &mut Steps<L>,
    ) -> anyhow::Result<String> {
        let words = split(alloc, line)?;
        if let Some(told) = self.chains.outcome(alloc, words.as_slice(), steps)? {
            return Ok(told);
        }
        match self.shelves.outcome(alloc, words.as_slice(), steps)? {
            Some(told) => Ok(told),
            None => bail!("no case: {line}"),
        }
    }

    /// Takes a line, and tells it with what comes of it.
    fn take<L: Ledger>(
        &mut self,
        rt: &HostRuntime,
        line: &str,
        steps: &mut Steps<L>,
    ) -> anyhow::Result<()> {
        if line.is_empty() || line.starts_with('#') {
            println!(rt; "{line}")?;
            return Ok(());
        }
        let told = self.outcome(rt.alloc(), line, steps)?;
        println!(rt; "{line}: {told}")?;
        Ok(())
    }
}

/// Takes lines, one after the other.
fn take_lines<L: Ledger>(
    rt: &HostRuntime,
    cases: &mut Cases,
    lines: &[String],
    steps: &mut Steps<L>,
) -> anyhow::Result<()> {
    for line in lines {
        cases.take(rt, line.as_str(), steps)?;
    }
    Ok(())
}

/// Takes all lines, and counts steps on a blank.
fn take_all<L: Ledger>(rt: &HostRuntime, lines: &[String], blank: Blank) -> anyhow::Result<()>
    requires name { blank.name ≡ L.name }
    requires parts { blank.parts ≡ L.parts }
    requires some_part { 0 < blank.parts }
{
    let mut steps = Steps::<L>::new(blank);
    let mut cases = Cases::new(rt.alloc());
    take_lines(rt, &mut cases, lines, &mut steps)
}

/// Tells what comes of each line.
pub fn tell_cases(rt: &HostRuntime, lines: &[String]) -> anyhow::Result<()> {
    take_all::<Brand>(rt, lines, Blank::new(1))
}
