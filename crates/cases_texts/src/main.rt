//! Cases of texts, messages, flat collections, dumps and logs, and the examples of the libraries, as a program: standard
//! input has them, and standard output what comes of each. A line `== PART` is told as it stands; it says whose the lines
//! behind it are, up to the next one. The program has no contract: its stored run is the test.
#![tactic(auto)]

mod examples;
mod flat;
mod messages;
mod moves;
mod reading;
mod texts;

use anyhow::bail;

/// What a case of a line tells: its kind, and what stands behind that.
fn case_line(rt: &HostRuntime, heading: &str, kind: &str, text: &str) -> anyhow::Result<String> {
    match heading {
        "== texts" => texts::case_line(rt, kind, text),
        "== messages" => messages::case_line(rt.alloc(), kind, text),
        _ => bail!("no part has this heading"),
    }
}

/// Tells a line of a part; one that is empty or begins with `#` stays as it is.
fn tell(rt: &HostRuntime, heading: &str, line: &str) -> anyhow::Result<()> {
    if line.is_empty() || line.starts_with("#") {
        return Ok(rt.println(line)?);
    }
    let Some((kind, text)) = line.split_once(' ') else {
        bail!("a line of one word: {line}");
    };
    Ok(rt.println(case_line(rt, heading, kind, text)?)?)
}

/// Tells a part's heading and its lines.
fn tell_part(rt: &HostRuntime, heading: &str, lines: &[String]) -> anyhow::Result<()> {
    rt.println(heading)?;
    match heading {
        "== examples" => return examples::tell_cases(rt, lines),
        "== flat" => return flat::tell_cases(rt, lines),
        "== moves" => return moves::tell_cases(rt, lines),
        _ => {}
    }
    for line in lines {
        tell(rt, heading, line.as_str())?;
    }
    Ok(())
}

fn main(rt: HostRuntime) -> anyhow::Result<()> {
    let mut lines = Vec::new(rt.alloc());
    for line in rt.lines(rt.alloc()) {
        lines.push(line?)?;
    }
    for part in lines.chunk_by(|_, line| !line.as_str().starts_with("== ")) {
        if let Some((heading, lines)) = part.split_first() {
            tell_part(&rt, heading.as_str(), lines)?;
        }
    }
    Ok(())
}
