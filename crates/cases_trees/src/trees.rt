//! Trees under changes, rows that are built, duplicates, merges and plans. A line `case` begins a case; the others lay
//! it out or are calls, each of which is told with what comes of it. Random changes, rows and sides are compared with
//! plain slow programs.

mod building;
mod chances;
mod changes;
mod desk;
mod links;
mod listing;
mod merging;
mod notation;
mod outcomes;
mod plain_changes;
mod plain_rows;
mod plain_sides;
mod planning;
mod random_changes;
mod random_rows;
mod random_sides;

use desk::Desk;
use std::alloc::Global;
use std::mem::replace;

/// Begins a case.
fn begin(alloc: Global, desk: &mut Desk) -> anyhow::Result<()> {
    let fresh = Desk::new(alloc)?;
    drop(replace(desk, fresh));
    Ok(())
}

/// Takes a line: a part of the case, or a call, of which it tells the outcome.
fn take(rt: &HostRuntime, desk: &mut Desk, line: &str) -> anyhow::Result<()> {
    let alloc = rt.alloc();
    let (word, rest) = notation::cut(line);
    if word == "case" {
        println!(rt; "{line}")?;
        begin(alloc, desk)?;
    } else if !desk.lay(alloc, word, rest)? {
        println!(rt; "{line}: {}", outcomes::outcome(alloc, desk, word, rest)?)?;
    }
    Ok(())
}

/// Takes the lines, one after the other.
fn take_all(rt: &HostRuntime, desk: &mut Desk, lines: &[String]) -> anyhow::Result<()> {
    for line in lines {
        if !line.is_empty() {
            take(rt, desk, line.as_str())?;
        }
    }
    Ok(())
}

/// Tells what comes of each call.
pub fn tell_cases(rt: &HostRuntime, lines: &[String]) -> anyhow::Result<()> {
    let mut desk = Desk::new(rt.alloc())?;
    let told = take_all(rt, &mut desk, lines);
    drop(desk);
    told
}
