//! Cases of keepers over SQLite, beside one in memory, as a program: standard input has them, and standard output what
//! comes of each. Lines `commit [ROWS, COLLECTIONS, BATCHES]` tell commits in short, which are counted from 0, and
//! `tables SQL` the statements that make a database of an older version with what the last of them makes. Each of the
//! other lines is a case. `STEPS` are numbers of commits and the word `fold`, which makes commits to the tables; the
//! commit of an older database is made by its statements, as the first.
//! - `memory STEPS` goes through them over a database in memory, and `file STEPS` over a file that is closed and opened
//!   again after each; `old-file NUMBER` tells the version of an older file before and after it is opened.
//! - `stops STEPS` stops at each call of the files below. A keeper takes the database for each word, whose steps `+`
//!   parts.
//! - `refused SQL` tells why the database that statements make isn't taken; so do `file-twice`, of a file that a keeper
//!   has, `text-file`, `folder`, and `no-folder`, a path into a folder that isn't there.
//! - `damaged SQL` tells where an account's database is out of form on which statements were run, and `loads STEPS` what a
//!   keeper gives at each step `load`, to which another one left the database behind the first step.
//! - `foreign SQL` tells why the file isn't taken that statements make, and what is then changed in its folder, once
//!   with a write-ahead log in its header and once with a rollback journal.
//! - `page-size` tells how large the pages of a new file are, and `page-size NUMBER` those of an older one.
//! - `new` makes a database in memory for the lines behind it: `sql STATEMENTS` runs statements there, `text NUMBER LINES`
//!   adds the text of a commit, whose lines `¦` ends, `keep STEPS` has a keeper go through steps, and `ask SQL` tells the
//!   texts that a query gives.
//!
//! The program promises nothing: its stored run is the test.
#![tactic(auto)]

mod commits;
mod comparing;
mod databases;
mod files;
mod folders;
mod held;
mod stops;
mod tables;
mod words;

use commits::Commits;
use comparing::{Step, steps};
use std::alloc::Global;
use tables::Tables;

/// The commits of the lines so far, and the database that lines work on.
#[derive(Drop)]
struct Bench {
    commits: Commits,
    tables: Tables,
}

/// What a case of steps tells.
fn steps_line(
    rt: &HostRuntime,
    bench: &mut Bench,
    kind: &str,
    steps: &[Step],
) -> anyhow::Result<String> {
    let alloc = rt.alloc();
    match kind {
        "loads" => databases::loads(alloc, &bench.commits, steps),
        "keep" => bench.tables.keep(alloc, &bench.commits, steps),
        "memory" => databases::steps_line(alloc, &bench.commits, steps),
        _ => files::file_line(rt, &bench.commits, kind, steps),
    }
}

/// What a case tells.
fn case_line(
    rt: &HostRuntime,
    bench: &mut Bench,
    kind: &str,
    text: &str,
) -> anyhow::Result<String> {
    let alloc = rt.alloc();
    match kind {
        "refused" => databases::refused(alloc, text),
        "damaged" => databases::damaged(alloc, text),
        "foreign" => folders::folder_line(rt, text),
        "ask" => bench.tables.ask(alloc, text),
        "stops" => stops::stops_line(alloc, &bench.commits, text),
        _ => steps_line(rt, bench, kind, steps(alloc, text)?.as_slice()),
    }
}

/// Takes a line: a commit, what is done to the database, or a case, which is told with what comes of it.
fn take(rt: &HostRuntime, bench: &mut Bench, line: &str) -> anyhow::Result<()> {
    let (kind, text) = line.split_once(' ').unwrap_or((line, ""));
    match kind {
        "" | "#" => println!(rt; "{line}")?,
        "commit" => bench.commits.add(rt.alloc(), text)?,
        "tables" => bench.commits.add_old(rt.alloc(), text)?,
        "new" => bench.tables.renew(rt.alloc())?,
        "sql" => bench.tables.run(text)?,
        "text" => bench.tables.add(rt.alloc(), text)?,
        _ => println!(rt; "{line}: {}", case_line(rt, bench, kind, text)?)?,
    }
    Ok(())
}

/// Takes the lines, one after the other.
fn take_all(rt: &HostRuntime, bench: &mut Bench) -> anyhow::Result<()> {
    for line in rt.lines(rt.alloc()) {
        take(rt, bench, line?.as_str())?;
    }
    Ok(())
}

fn main(rt: HostRuntime) -> anyhow::Result<()> {
    let mut bench = Bench {
        commits: Commits::new(rt.alloc()),
        tables: Tables::new(rt.alloc())?,
    };
    let taken = take_all(&rt, &mut bench);
    drop(bench);
    taken
}
