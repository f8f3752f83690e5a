//! Connections, terms, servers and what they stand on, a case a line. `text NAME "..."` names a text. A line
//! `connection` serves links one after the other over one town, `term` a port over two accounts, of
//! which `filling` tells besides how often the gate was told of a journal that fills, `server` a site, of which `status`
//! tells only the status and how many terms there were, `kept` besides what is then kept of account 7, and `logs` what
//! `audit` says of the logs that it kept.

mod accounts;
mod case;
mod connections;
mod ending;
mod filling;
mod fronts;
mod giving;
mod held;
mod ports;
mod servers;
mod sites;
mod stores;
mod telling;
mod terms;
mod texts;

use anyhow::bail;
use case::Case;
use std::alloc::Global;
use std::rt::Files;
use std::sync::Wait;
use std::thread::Threads;
use texts::Texts;

/// What came of a case that is played over accounts.
fn served<R: Threads + Wait + Sync>(
    rt: &R,
    alloc: Global,
    kind: &str,
    case: Case,
) -> anyhow::Result<String> {
    match kind {
        "connection" => connections::connection_line(rt, alloc, case),
        "fronts" => fronts::fronts_line(rt, alloc, case),
        "term" => terms::term_line(rt, alloc, case),
        "held" => held::held_line(rt, alloc, case),
        "filling" => filling::filling_line(rt, alloc, case),
        "server" => servers::server_line(rt, alloc, case),
        "status" => servers::status(rt, alloc, case),
        "kept" => servers::kept(rt, alloc, case),
        "logs" => servers::logs(rt, alloc, case),
        _ => bail!("no kind of case"),
    }
}

/// What came of the case of a line.
fn case_line<R: Threads + Wait + Files + Sync>(
    rt: &R,
    alloc: Global,
    texts: &Texts,
    line: &str,
) -> anyhow::Result<String> {
    let (kind, rest) = line.split_once(' ').unwrap_or((line, ""));
    match kind {
        "site" => sites::site_line(alloc, rest),
        "gives" => giving::giving_line(alloc, rest),
        "store" => stores::store_line(rt, alloc, rest),
        "port" => ports::port_line(alloc, rest),
        _ => served(rt, alloc, kind, case::read(alloc, texts, rest)?),
    }
}

/// Tells what came of each line that is a case.
pub fn tell_cases<R: Threads + Wait + Files + Print + Sync>(
    rt: &R,
    alloc: Global,
    lines: &[String],
) -> anyhow::Result<()> {
    let mut texts = Texts::new(alloc);
    for line in lines {
        if let Some(text) = line.as_str().strip_prefix("text ") {
            texts.add(alloc, text)?;
        } else {
            println!(rt; "{line}: {}", case_line(rt, alloc, &texts, line.as_str())?)?;
        }
    }
    Ok(())
}
