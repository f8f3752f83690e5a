//! Cases of turns, connections and terms in running threads, as a program: standard input has them, and standard output
//! what comes of each, the same whatever the schedule. A line `== PART` is told as it stands; it says whose the lines
//! behind it are, up to the next one. The program has no contract: its stored run is the test.
#![tactic(auto)]

ghost use Rattle.std.specs.Thread.{IsSync};

mod accounts;
mod crowd;
mod hostile;
mod terms;
mod turns;

use anyhow::bail;
use std::alloc::Global;
use std::rt::Files;
use std::sync::Wait;
use std::thread::Threads;

/// Tells a part's heading and what comes of its cases.
fn tell_part<R: Threads + Wait + Files + Print + Sync>(
    rt: &R,
    alloc: Global,
    heading: &str,
    cases: &[String],
) -> anyhow::Result<()>
    requires shared { IsSync R.row }
{
    println!(rt; "{heading}")?;
    match heading {
        "== turns" => turns::tell_cases(rt, alloc, cases),
        "== crowd" => crowd::tell_cases(rt, alloc),
        "== hostile" => hostile::tell_cases(rt, alloc),
        "== terms" => terms::tell_cases(rt, alloc, cases),
        _ => bail!("no part has this heading"),
    }
}

fn main(rt: HostRuntime) -> anyhow::Result<()> {
    let mut lines = Vec::new(rt.alloc());
    for line in rt.lines(rt.alloc()) {
        lines.push(line?)?;
    }
    for part in lines.chunk_by(|_, line| !line.as_str().starts_with("== ")) {
        if let Some((heading, cases)) = part.split_first() {
            tell_part(&rt, rt.alloc(), heading.as_str(), cases)?;
        }
    }
    Ok(())
}
