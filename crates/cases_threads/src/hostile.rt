//! Hostile links, in terms of one worker over account 7 in memory. A read or a write of a link fails, bytes are no
//! message, a request is cut, a keeper's commit fails, a journal has no room. A line tells of each link how it ended,
//! its turns (account and ticket) and what was written, with `|` for each end of a line.

mod account;
mod cases;
mod links;
mod telling;
mod term;

use std::alloc::Global;
use std::sync::Wait;
use std::thread::Threads;

/// Tells the terms in which a call of a link fails.
fn tell_calls<R: Threads + Wait + Print + Sync>(rt: &R, alloc: Global) -> anyhow::Result<()> {
    for call in 1..=cases::CALLS {
        println!(rt; "{}", cases::failing_call(rt, alloc, call)?)?;
    }
    Ok(())
}

/// Tells the terms of a request that is cut, one that comes byte by byte, and a head without an end.
fn tell_requests<R: Threads + Wait + Print + Sync>(rt: &R, alloc: Global) -> anyhow::Result<()> {
    println!(rt; "{}", cases::cut_anywhere(rt, alloc)?)?;
    println!(rt; "{}", cases::whole(rt, alloc)?)?;
    println!(rt; "{}", cases::endless(rt, alloc)?)?;
    Ok(())
}

/// Tells the terms of texts that are no message.
fn tell_refused<R: Threads + Wait + Print + Sync>(rt: &R, alloc: Global) -> anyhow::Result<()> {
    for (title, text) in cases::REFUSED {
        println!(rt; "{}", cases::refused(rt, alloc, title, text)?)?;
    }
    Ok(())
}

/// Tells the terms in which a commit fails.
fn tell_commits<R: Threads + Wait + Print + Sync>(rt: &R, alloc: Global) -> anyhow::Result<()> {
    for commit in 1..=3 {
        println!(rt; "{}", cases::failing_commit(rt, alloc, commit)?)?;
    }
    Ok(())
}

/// Tells a term whose journal has no room, and the next one.
fn tell_full<R: Threads + Wait + Print + Sync>(rt: &R, alloc: Global) -> anyhow::Result<()> {
    println!(rt; "{}", cases::full(rt, alloc)?)?;
    println!(rt; "{}", cases::full_before(rt, alloc)?)?;
    Ok(())
}

/// Tells what became of the links of each term.
pub fn tell_cases<R: Threads + Wait + Print + Sync>(rt: &R, alloc: Global) -> anyhow::Result<()> {
    tell_calls(rt, alloc)?;
    tell_requests(rt, alloc)?;
    tell_refused(rt, alloc)?;
    tell_commits(rt, alloc)?;
    tell_full(rt, alloc)
}
