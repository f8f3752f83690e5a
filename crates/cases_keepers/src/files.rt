//! Keepers over files, in a folder of their own, which isn't there before nor behind a case.

use crate::commits::Commits;
use crate::comparing::{Step, compared, done, loaded};
use anyhow::{Context, bail};
use sqlite::{Alter, Connection, Row};
use ss_keep_sql::{SqlFault, SqlKeeper};
use std::alloc::Global;
use std::fs;

const FOLDER: &str = "keeping";

const FILE: &str = "keeping/a.db";

const NO_DATABASE: &str = "no database at all";

/// Indexes that SQLite makes for keys have no statement.
const NAMED: &str = "SELECT name FROM sqlite_schema WHERE sql IS NOT NULL ORDER BY name";

/// Opens a file, takes a step and closes it.
fn written(rt: &HostRuntime, commits: &Commits, step: Step) -> anyhow::Result<usize> {
    let mut keeper = SqlKeeper::open(rt, FILE)?;
    let count = done(rt.alloc(), commits, &mut keeper, &[step]);
    keeper.into_connection().close()?;
    count
}

/// What opening a file answers, and what is then held.
fn opened(rt: &HostRuntime, path: &str) -> anyhow::Result<Result<Vec<String>, SqlFault>> {
    match SqlKeeper::open(rt, path) {
        Ok(mut keeper) => {
            let found = loaded(rt.alloc(), &mut keeper);
            drop(keeper);
            Ok(Ok(found?))
        }
        Err(fault) => Ok(Err(fault)),
    }
}

/// What opening a file answers, and whether it then holds what a keeper in memory does after steps.
fn told_opened(
    rt: &HostRuntime,
    commits: &Commits,
    path: &str,
    steps: &[Step],
) -> anyhow::Result<String> {
    match opened(rt, path)? {
        Ok(found) => compared(rt.alloc(), commits, steps, found.as_slice()),
        Err(fault) => Ok(format!(in rt.alloc(); "{fault:?}")?),
    }
}

/// Takes steps over a file that is closed after each, and tells what it holds when it is opened again.
fn reopened(rt: &HostRuntime, commits: &Commits, steps: &[Step]) -> anyhow::Result<String> {
    let mut line = String::new(rt.alloc());
    for at in 0..steps.len() {
        let (front, _) = steps.split_at(at + 1);
        let last = front.last().context("a step")?;
        let count = written(rt, commits, *last)?;
        let told = told_opened(rt, commits, FILE, front)?;
        let mark = if at == 0 { "" } else { "; " };
        line.push_str(format!(in rt.alloc(); "{mark}{count} done, {told}")?.as_str())?;
    }
    Ok(line)
}

/// What opening a file answers while a keeper has it.
fn opened_twice(rt: &HostRuntime, commits: &Commits) -> anyhow::Result<String> {
    let keeper = SqlKeeper::open(rt, FILE)?;
    let told = told_opened(rt, commits, FILE, &[]);
    keeper.into_connection().close()?;
    told
}

/// What opening a file of text answers, and whether it is then as it was.
fn opened_text(rt: &HostRuntime, commits: &Commits) -> anyhow::Result<String> {
    fs::write(rt, FILE, NO_DATABASE)?;
    let told = told_opened(rt, commits, FILE, &[])?;
    let left = if fs::read_to_string(rt, FILE)?.as_str() == NO_DATABASE {
        "as it was"
    } else {
        "CHANGED"
    };
    Ok(format!(in rt.alloc(); "{told}, the file {left}")?)
}

/// Adds a name that a query gave.
fn push_name(alloc: Global, told: &mut String, values: &Row) -> anyhow::Result<()> {
    let name: String = values.get(0)?;
    told.push_str(format!(in alloc; " {name}")?.as_str())?;
    Ok(())
}

/// The version that a database tells, and the names of its tables and indexes.
fn version_in<S: Alter>(alloc: Global, connection: &mut Connection<S>) -> anyhow::Result<String> {
    let version: i64 = connection
        .query_row("SELECT version FROM about", &[])?
        .get(0)?;
    let mut told = format!(in alloc; "version {version} with")?;
    for values in connection.query_all(NAMED, &[])? {
        push_name(alloc, &mut told, &values)?;
    }
    Ok(told)
}

/// The version that a file tells, and the names of its tables and indexes.
fn version_of(rt: &HostRuntime) -> anyhow::Result<String> {
    let mut connection = Connection::open(rt, FILE)?;
    let told = version_in(rt.alloc(), &mut connection);
    connection.close()?;
    told
}

/// Makes a file by statements.
pub fn make_by(rt: &HostRuntime, path: &str, sql: &str) -> anyhow::Result<()> {
    let mut connection = Connection::open(rt, path)?;
    let made = connection.execute_batch(sql);
    connection.close()?;
    Ok(made?)
}

/// Makes a file by the statements of an older database.
fn make_old(rt: &HostRuntime, commits: &Commits, step: Step) -> anyhow::Result<()> {
    let Step::Commit(number) = step else {
        bail!("no commit");
    };
    make_by(
        rt,
        FILE,
        commits.old_tables(number).context("older tables")?,
    )
}

/// The version of a file before and after it is opened, whose statements make what a commit makes.
fn upgraded(rt: &HostRuntime, commits: &Commits, step: Step) -> anyhow::Result<String> {
    make_old(rt, commits, step)?;
    let before = version_of(rt)?;
    let told = told_opened(rt, commits, FILE, &[step])?;
    let after = version_of(rt)?;
    Ok(format!(in rt.alloc(); "{before}; {told}; {after}")?)
}

/// The bytes of a page, as the header of a file that was closed says: in its bytes 16 and 17.
fn page_bytes(rt: &HostRuntime) -> anyhow::Result<String> {
    let keeper = SqlKeeper::open(rt, FILE)?;
    keeper.into_connection().close()?;
    let bytes = fs::read(rt, FILE)?;
    let high = bytes.get(16).context("a header")?;
    let low = bytes.get(17).context("a header")?;
    let size = u32::from(*high) * 256 + u32::from(*low);
    Ok(format!(in rt.alloc(); "{size}")?)
}

/// The bytes of a page of a file that an older program made.
fn old_page_bytes(rt: &HostRuntime, commits: &Commits, step: Step) -> anyhow::Result<String> {
    make_old(rt, commits, step)?;
    page_bytes(rt)
}

/// What a case tells in its folder.
fn told_inside(
    rt: &HostRuntime,
    commits: &Commits,
    kind: &str,
    steps: &[Step],
) -> anyhow::Result<String> {
    match (kind, steps) {
        ("file", steps) => reopened(rt, commits, steps),
        ("old-file", [step]) => upgraded(rt, commits, *step),
        ("page-size", []) => page_bytes(rt),
        ("page-size", [step]) => old_page_bytes(rt, commits, *step),
        ("file-twice", []) => opened_twice(rt, commits),
        ("text-file", []) => opened_text(rt, commits),
        ("folder", []) => told_opened(rt, commits, FOLDER, &[]),
        ("no-folder", []) => told_opened(rt, commits, "keeping/none/a.db", &[]),
        _ => bail!("no kind of case: {kind}"),
    }
}

/// What a case tells.
pub fn file_line(
    rt: &HostRuntime,
    commits: &Commits,
    kind: &str,
    steps: &[Step],
) -> anyhow::Result<String> {
    let _ = fs::remove_dir_all(rt, FOLDER);
    fs::create_dir(rt, FOLDER)?;
    let told = told_inside(rt, commits, kind, steps)?;
    fs::remove_dir_all(rt, FOLDER)?;
    Ok(told)
}
