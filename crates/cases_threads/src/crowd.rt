//! Terms of several workers over memory. Keepers that wait for each other's first commit are both answered; and the
//! bytes of each link of a crowd are those that its turns' places give by the plain program over the journals that came
//! back.

mod crowd;
mod meeting;
mod messages;
mod plain;

use std::alloc::Global;
use std::sync::Wait;
use std::thread::Threads;

/// Tells what came of both.
pub fn tell_cases<R: Threads + Wait + Print + Sync>(rt: &R, alloc: Global) -> anyhow::Result<()> {
    println!(rt; "{}", meeting::meeting_line(rt, alloc)?)?;
    println!(rt; "{}", crowd::crowd_line(rt, alloc)?)?;
    Ok(())
}
