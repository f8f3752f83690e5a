//! Servers over a site in memory, whose one port gives the links of the case, and ends; its clocks count from 10.00.

use crate::terms::case::{Case, Failing, Planned};
use crate::terms::ending::Ending;
use crate::terms::terms::{lines, port};
use anyhow::bail;
use ss_bso::{Kept, Row, Times};
use ss_keeper::{KeepFault, Keeper};
use ss_links::{MemLink, MemPort};
use ss_outside::{SureSink, SureSource};
use ss_run_audit::run_audit;
use ss_run_serve::run_serve;
use ss_serve::LinkReport;
use ss_site::{KeptTerm, MemSite, Site};
use ss_text::{Name, Stamp};
use std::alloc::{AllocError, Global};
use std::sync::Wait;
use std::thread::Threads;

type Terms = MemSite<LinkReport<MemLink>>;

/// What is kept at first: of this account in the folder `f` a collection that is later than its store, which can't be
/// opened; of 0 nothing.
fn kept_of(alloc: Global, uid: u32) -> anyhow::Result<Vec<(String, u32, Kept)>> {
    if uid == 0 {
        return Ok(Vec::new(alloc));
    }
    let Some(forms) = Name::new(alloc, b"forms")? else {
        bail!("no name");
    };
    let folder = String::from_str(alloc, "f")?;
    let times = vec![in alloc; (forms, Stamp::clamp(5))]?;
    let mut kept = Kept::fresh(alloc);
    kept.collections = Times::new(times);
    Ok(vec![in alloc; (folder, uid, kept)]?)
}

/// The one port of a site.
fn ports(
    alloc: Global,
    links: Vec<Planned>,
    failing: u64,
    rests: bool,
) -> Result<Vec<MemPort>, AllocError> {
    let port = port(alloc, links, failing, rests)?;
    Ok(vec![in alloc; port]?)
}

/// The calls of a site that find no memory, that find no account, and that fail.
fn calls(alloc: Global, failing: Failing) -> Result<(Vec<u64>, Vec<u64>, Vec<u64>), AllocError> {
    let wanting = vec![in alloc; failing.memory]?;
    let damaging = vec![in alloc; failing.lost]?;
    let failing = vec![in alloc; failing.site]?;
    Ok((wanting, damaging, failing))
}

/// A site that keeps these entries, some of whose calls fail, find no memory or find no account.
fn failing_site(
    alloc: Global,
    ports: Vec<MemPort>,
    kept: Vec<(String, u32, Kept)>,
    failing: Failing,
) -> Result<Terms, AllocError> {
    let (wanting, damaging, failing) = calls(alloc, failing)?;
    let site = MemSite::new(alloc, ports, 1000, kept, failing)?;
    Ok(site.without_memory(wanting).with_damage(damaging))
}

/// The site of a case.
fn site(alloc: Global, case: Case) -> anyhow::Result<Terms> {
    let Case {
        damaged,
        failing,
        rests,
        links,
        gate: _,
        manner: _,
        most: _,
        connections: _,
        words: _,
    } = case;
    let logs = vec![in alloc; failing.log]?;
    let ports = ports(alloc, links, failing.port, rests)?;
    let kept = kept_of(alloc, damaged)?;
    let site = failing_site(alloc, ports, kept, failing)?;
    Ok(site.with_failing_logs(alloc, logs))
}

/// Words, with one blank between two of them.
fn words(alloc: Global, text: &str) -> Result<Vec<String>, AllocError> {
    let mut words = Vec::new(alloc);
    for word in text.split(' ') {
        words.push(String::from_str(alloc, word)?)?;
    }
    Ok(words)
}

/// The site after a server of the case's words, and the server's status.
fn served<R: Threads + Wait + Sync>(
    rt: &R,
    alloc: Global,
    case: Case,
) -> anyhow::Result<(Terms, u8)> {
    let words = words(alloc, case.words.as_str())?;
    let mut err = SureSink::new(alloc, 4096)?;
    let gate = Ending { from: case.gate };
    let mut site = site(alloc, case)?;
    let ending = run_serve(rt, alloc, words.as_slice(), &mut site, &gate, &mut err);
    Ok((site, ending.status()))
}

/// What is told of a server: its status, and how many terms the site was told.
pub fn status<R: Threads + Wait + Sync>(
    rt: &R,
    alloc: Global,
    case: Case,
) -> anyhow::Result<String> {
    let (site, status) = served(rt, alloc, case)?;
    let count = site.terms().len();
    drop(site);
    Ok(format!(in alloc; "status {status}, {count} terms")?)
}

/// The logs of an account from a term on, in the order of their numbers, up to the first number that has none.
fn logs_of(alloc: Global, site: &Terms, uid: u32, from: u64) -> anyhow::Result<Vec<Vec<u8>>> {
    let mut logs = Vec::new(alloc);
    for number in from..=from.saturating_add(9) {
        match site.log_of(format!(in alloc; "{uid}-{number}")?.as_str()) {
            Some(log) => logs.push(Vec::from_slice(alloc, log)?)?,
            None => break,
        }
    }
    Ok(logs)
}

/// What `audit` wrote, and its status.
fn verdict_line(alloc: Global, output: &SureSink, status: u8) -> anyhow::Result<String> {
    let Some(written) = output.written() else {
        bail!("the output has no room");
    };
    match str::from_utf8(written) {
        Ok(line) => Ok(format!(in alloc; "{}, {status}", line.trim_end())?),
        Err(_) => bail!("no text"),
    }
}

/// What `audit` writes of logs.
fn verdict(alloc: Global, logs: Vec<Vec<u8>>) -> anyhow::Result<String> {
    let words = words(alloc, "audit")?;
    let mut input = SureSource::new(logs);
    let mut output = SureSink::new(alloc, 4096)?;
    let mut err = SureSink::new(alloc, 4096)?;
    let ending = run_audit(alloc, words.as_slice(), &mut input, &mut output, &mut err);
    verdict_line(alloc, &output, ending.status())
}

/// A server's status, and of the accounts 7 and 8 how many logs there are from the term 3 on, and what `audit` says of them and
/// its status.
fn audited(alloc: Global, site: &Terms, status: u8) -> anyhow::Result<String> {
    let mut text = format!(in alloc; "status {status}")?;
    for uid in [7, 8] {
        let logs = logs_of(alloc, site, uid, 3)?;
        let count = logs.len();
        let verdict = verdict(alloc, logs)?;
        text.push_str(format!(in alloc; "\n {uid}: {count} logs, {verdict}")?.as_str())?;
    }
    Ok(text)
}

/// What is told of the logs that a server kept.
pub fn logs<R: Threads + Wait + Sync>(rt: &R, alloc: Global, case: Case) -> anyhow::Result<String> {
    let (site, status) = served(rt, alloc, case)?;
    let text = audited(alloc, &site, status);
    drop(site);
    text
}

/// A line on a term, and one on each of its links: each journal's account, and how many entries it has.
fn term(alloc: Global, term: &KeptTerm<LinkReport<MemLink>>) -> anyhow::Result<String> {
    let mut text = String::from_str(alloc, "\n term, journals")?;
    for (uid, journal) in term.journals.iter() {
        let count = journal.entries().len();
        text.push_str(format!(in alloc; " {uid} with {count}")?.as_str())?;
    }
    text.push_str(lines(alloc, term.reports.as_slice())?.as_str())?;
    Ok(text)
}

/// A server's status, and each term that the site was told.
fn reported(alloc: Global, site: &Terms, status: u8) -> anyhow::Result<String> {
    let mut text = format!(in alloc; "status {status}, {} terms", site.terms().len())?;
    for told in site.terms() {
        text.push_str(term(alloc, told)?.as_str())?;
    }
    Ok(text)
}

/// What is told of the server of a case.
pub fn server_line<R: Threads + Wait + Sync>(
    rt: &R,
    alloc: Global,
    case: Case,
) -> anyhow::Result<String> {
    let (site, status) = served(rt, alloc, case)?;
    let text = reported(alloc, &site, status);
    drop(site);
    text
}

/// A row that is kept, behind an end of a line.
fn row(alloc: Global, row: &Row) -> Result<String, AllocError> {
    format!(in alloc;
        "\n  {}/{} at {}, {}",
        row.collection.as_str(),
        row.id.as_str(),
        row.modified.get(),
        row.payload.as_str()
    )
}

/// The rows of what is kept, a line each.
fn rows(alloc: Global, kept: &Kept) -> Result<String, AllocError> {
    let mut text = String::new(alloc);
    for kept in kept.rows.as_slice() {
        text.push_str(row(alloc, kept)?.as_str())?;
    }
    Ok(text)
}

/// What an entry has, or why there is none.
fn loaded(alloc: Global, kept: &Result<Kept, KeepFault>) -> anyhow::Result<String> {
    match kept {
        Ok(kept) => Ok(rows(alloc, kept)?),
        Err(fault) => Ok(format!(in alloc; "no entry, {fault:?}")?),
    }
}

/// What the entry of the account 7 in the folder `f` has; the keeper that loads it is given back.
fn entry(alloc: Global, site: &mut Terms) -> anyhow::Result<String> {
    let mut keeper = match site.keeper(alloc, "f", 7) {
        Ok(keeper) => keeper,
        Err(fault) => return Ok(format!(in alloc; "no keeper, {fault:?}")?),
    };
    let kept = keeper.load(alloc);
    site.retire("f", 7, keeper);
    loaded(alloc, &kept)
}

/// A server's status, how many terms the site was told, and what the entry of the account 7 has then.
pub fn kept<R: Threads + Wait + Sync>(rt: &R, alloc: Global, case: Case) -> anyhow::Result<String> {
    let (mut site, status) = served(rt, alloc, case)?;
    let count = site.terms().len();
    let entry = entry(alloc, &mut site);
    drop(site);
    let entry = entry?;
    Ok(format!(in alloc; "status {status}, {count} terms, and the rows{entry}")?)
}
