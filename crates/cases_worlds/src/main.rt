//! Cases of devices that sync with an account, alone and in a world, as a program: standard input has them, and
//! standard output what comes of each. A line `== PART` is told as it stands; it says whose the lines behind it are, up
//! to the next one. The program has no contract: its stored run is the test.
#![tactic(auto)]

mod accounts;
mod syncs;
mod worlds;

use anyhow::bail;

/// Tells a part's heading and what comes of its cases.
fn tell_part(rt: &HostRuntime, heading: &str, cases: &[String]) -> anyhow::Result<()> {
    println!(rt; "{heading}")?;
    match heading {
        "== syncs" => syncs::tell_cases(rt, cases),
        "== worlds" => worlds::tell_cases(rt),
        _ => bail!("no part has this heading"),
    }
}

fn main(rt: HostRuntime) -> anyhow::Result<()> {
    let mut lines = Vec::new(rt.alloc());
    for line in rt.lines(rt.alloc()) {
        lines.push(line?)?;
    }
    for part in lines.chunk_by(|_, line| !line.as_str().starts_with("== ")) {
        if let Some((heading, cases)) = part.split_first() {
            tell_part(&rt, heading.as_str(), cases)?;
        }
    }
    Ok(())
}
