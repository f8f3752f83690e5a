//! Devices that sync with one account: worked plays, a long upload over a server that is started anew after each
//! request, and lists of drawn events with a plain check after each. All are played in a world; the worked plays, the
//! upload and the first lists again over bytes: what a device asks goes through the server's reader and its routing,
//! and what the server answers through the device's reader.

mod checks;
mod comparing;
mod drawn;
mod draws;
mod items;
mod playing;
mod plays;
mod strangers;
mod uploads;
mod watching;
mod wired;
mod worked;

use comparing::count_same;
use plays::Way;
use ss_route::Manner;
use std::alloc::Global;
use worked::worked_lines;

/// How many of the lines are the same over bytes.
fn same_over(alloc: Global, manner: Manner, lines: &[String]) -> anyhow::Result<usize> {
    let others = worked_lines(alloc, Way::Bytes(manner))?;
    Ok(count_same(lines, others.as_slice()))
}

/// Tells what became of each play.
pub fn tell_cases(rt: &HostRuntime) -> anyhow::Result<()> {
    let lines = worked_lines(rt.alloc(), Way::World)?;
    for line in lines.iter() {
        println!(rt; "{line}")?;
    }
    let by_letter = same_over(rt.alloc(), Manner::Profile, lines.as_slice())?;
    let as_browsers = same_over(rt.alloc(), Manner::Browser, lines.as_slice())?;
    println!(rt;
        "over bytes these lines are the same: {by_letter} by the letter, {as_browsers} as browsers ask"
    )?;
    for line in drawn::drawn_lines(rt.alloc())?.iter() {
        println!(rt; "{line}")?;
    }
    Ok(())
}
