//! Keepers over databases in memory.

use crate::commits::Commits;
use crate::comparing::{Step, compared, done, is_done, loaded};
use anyhow::Context;
use sqlite::{Connection, MemStore};
use ss_keep_sql::{SqlFault, SqlKeeper};
use std::alloc::Global;
use std::slice;

/// A database in memory on which statements were run.
fn database(alloc: Global, sql: &str) -> anyhow::Result<Connection<MemStore>> {
    let mut connection = Connection::open_in_memory(alloc)?;
    match connection.execute_batch(sql) {
        Ok(()) => Ok(connection),
        Err(error) => {
            drop(connection);
            Err(error.into())
        }
    }
}

/// The keeper that takes a database.
fn adopted(alloc: Global, connection: Connection<MemStore>) -> anyhow::Result<SqlKeeper<MemStore>> {
    match SqlKeeper::adopt(alloc, connection) {
        Ok(keeper) => Ok(keeper),
        Err((connection, fault)) => {
            drop(connection);
            Err(fault.into())
        }
    }
}

/// A keeper over a database on which statements were run.
fn keeper(alloc: Global, sql: &str) -> anyhow::Result<SqlKeeper<MemStore>> {
    adopted(alloc, database(alloc, sql)?)
}

/// The statements before steps, and the steps that are left: the commit of an older database is made by its statements,
/// as the first.
fn begun<'a>(commits: &'a Commits, steps: &'a [Step]) -> (&'a str, &'a [Step]) {
    if let Some((Step::Commit(first), rest)) = steps.split_first() {
        if let Some(sql) = commits.old_tables(*first) {
            return (sql, rest);
        }
    }
    ("", steps)
}

/// What a keeper gives, beside a keeper in memory after steps.
fn told_load(
    alloc: Global,
    commits: &Commits,
    keeper: &mut SqlKeeper<MemStore>,
    steps: &[Step],
) -> anyhow::Result<String> {
    let found = loaded(alloc, keeper)?;
    compared(alloc, commits, steps, found.as_slice())
}

/// How many of the rest of the steps a keeper takes, and what it then holds.
fn told_steps(
    alloc: Global,
    commits: &Commits,
    keeper: &mut SqlKeeper<MemStore>,
    steps: &[Step],
    rest: &[Step],
) -> anyhow::Result<String> {
    let count = done(alloc, commits, keeper, rest)?;
    let compared = told_load(alloc, commits, keeper, steps)?;
    Ok(format!(in alloc; "{count} of {} done, {compared}", rest.len())?)
}

/// How many steps a keeper takes, and what it then holds.
pub fn steps_line(alloc: Global, commits: &Commits, steps: &[Step]) -> anyhow::Result<String> {
    let (sql, rest) = begun(commits, steps);
    let mut keeper = keeper(alloc, sql)?;
    let told = told_steps(alloc, commits, &mut keeper, steps, rest);
    drop(keeper);
    told
}

/// Why a database isn't taken, and how many tables it has when it comes back.
fn told_refusal(
    alloc: Global,
    connection: &mut Connection<MemStore>,
    fault: &SqlFault,
) -> anyhow::Result<String> {
    let tables: i64 = connection
        .query_row("SELECT count(*) FROM sqlite_schema", &[])?
        .get(0)?;
    Ok(format!(in alloc; "{fault:?}, {tables} tables")?)
}

/// Why the database that statements make isn't taken, and how many tables it has when it comes back.
pub fn refused(alloc: Global, sql: &str) -> anyhow::Result<String> {
    match SqlKeeper::adopt(alloc, database(alloc, sql)?) {
        Ok(_) => Ok(String::from_str(alloc, "taken")?),
        Err((mut connection, fault)) => {
            let told = told_refusal(alloc, &mut connection, &fault);
            drop(connection);
            told
        }
    }
}

/// A keeper takes the last of steps; tells what it gives, where it is asked for what is held.
fn tell_step(
    alloc: Global,
    commits: &Commits,
    keeper: &mut SqlKeeper<MemStore>,
    steps: &[Step],
    told: &mut String,
) -> anyhow::Result<()> {
    let step = steps.last().context("a step")?;
    if let Step::Load = step {
        let compared = told_load(alloc, commits, keeper, steps)?;
        told.push_str(format!(in alloc; "{compared}; ")?.as_str())?;
    } else if !is_done(alloc, commits, keeper, *step)? {
        told.push_str("REFUSED; ")?;
    }
    Ok(())
}

/// What a keeper gives at each step behind the first that asks for what is held.
fn told_loads(
    alloc: Global,
    commits: &Commits,
    keeper: &mut SqlKeeper<MemStore>,
    steps: &[Step],
) -> anyhow::Result<String> {
    let mut told = String::new(alloc);
    for at in 1..steps.len() {
        let (front, _) = steps.split_at(at + 1);
        tell_step(alloc, commits, keeper, front, &mut told)?;
    }
    told.push_str("no more")?;
    Ok(told)
}

/// The database in which a keeper took a step.
fn written(alloc: Global, commits: &Commits, step: &Step) -> anyhow::Result<Connection<MemStore>> {
    let (sql, rest) = begun(commits, slice::from_ref(step));
    let mut keeper = keeper(alloc, sql)?;
    let count = done(alloc, commits, &mut keeper, rest);
    let connection = keeper.into_connection();
    match count {
        Ok(_) => Ok(connection),
        Err(error) => {
            drop(connection);
            Err(error)
        }
    }
}

/// What a keeper gives that takes the database in which another one took the first step, each time that it is asked.
pub fn loads(alloc: Global, commits: &Commits, steps: &[Step]) -> anyhow::Result<String> {
    let first = steps.first().context("a step")?;
    let mut keeper = adopted(alloc, written(alloc, commits, first)?)?;
    let told = told_loads(alloc, commits, &mut keeper, steps);
    drop(keeper);
    told
}

/// An account's database on which statements were run.
fn with_damage(alloc: Global, sql: &str) -> anyhow::Result<Connection<MemStore>> {
    let mut connection = keeper(alloc, "")?.into_connection();
    match connection.execute_batch(sql) {
        Ok(()) => Ok(connection),
        Err(error) => {
            drop(connection);
            Err(error.into())
        }
    }
}

/// Where an account's database is out of form on which statements were run.
pub fn damaged(alloc: Global, sql: &str) -> anyhow::Result<String> {
    match SqlKeeper::adopt(alloc, with_damage(alloc, sql)?) {
        Ok(_) => Ok(String::from_str(alloc, "taken")?),
        Err((_, SqlFault::Damaged { place })) => Ok(format!(in alloc; "{place}")?),
        Err((_, fault)) => Ok(format!(in alloc; "{fault:?}")?),
    }
}
