//! Steps over files in memory that stop at a call, as where the power fails.

use crate::commits::Commits;
use crate::comparing::{Step, done, in_memory, loaded, steps};
use anyhow::Context;
use sqlite::{Connection, FileStore, Files};
use sqlite_disk::{Crash, Fuse, Memory};
use ss_keep_sql::{SqlKeeper, open_files};
use std::alloc::Global;

/// How many calls of a file are stopped at most; all is done in fewer.
const MOST_CALLS: u64 = 10_000;

/// The random number that a database is opened with.
const SEED: u64 = 7;

type Stopping = Fuse<Memory>;

/// How many calls of each file are answered before it stops.
#[derive(Clone, Copy)]
struct Calls {
    log: u64,
    database: u64,
}

/// What was done until the files stopped.
#[derive(Clone, Copy)]
struct Done {
    /// How many steps were answered Ok.
    count: usize,

    /// Whether all of them were, and the files were closed.
    is_whole: bool,
}

/// What was done, and the files behind it.
#[derive(Drop)]
struct Run {
    done: Done,
    files: Files<Stopping>,
}

/// A database in files that stop.
type Stopped = Connection<FileStore<Stopping>>;

/// Such a database, but while a keeper has it.
#[derive(Drop)]
struct Desk {
    connection: Option<Stopped>,
}

/// The statements that stand in the place of steps, where these are the commit of an older database.
fn old_of<'a>(commits: &'a Commits, steps: &[Step]) -> Option<&'a str> {
    match steps {
        [Step::Commit(number)] => commits.old_tables(*number),
        _ => None,
    }
}

impl Desk {
    /// Makes the tables of an older database, which is one step; how many steps were answered Ok.
    fn make_old(&mut self, sql: &str) -> anyhow::Result<usize> {
        let connection = self.connection.as_mut().context("a database")?;
        Ok(usize::from(connection.execute_batch(sql).is_ok()))
    }

    /// A keeper takes the database and goes through steps; how many were answered Ok.
    fn keep(&mut self, alloc: Global, commits: &Commits, steps: &[Step]) -> anyhow::Result<usize> {
        let connection = self.connection.take().context("a database")?;
        match SqlKeeper::adopt(alloc, connection) {
            Ok(mut keeper) => {
                let count = done(alloc, commits, &mut keeper, steps);
                self.connection = Some(keeper.into_connection());
                count
            }
            Err((connection, _)) => {
                self.connection = Some(connection);
                Ok(0)
            }
        }
    }

    /// Goes through steps, or makes the older tables in their place; how many steps were answered Ok.
    fn write(&mut self, alloc: Global, commits: &Commits, steps: &[Step]) -> anyhow::Result<usize> {
        match old_of(commits, steps) {
            Some(sql) => self.make_old(sql),
            None => self.keep(alloc, commits, steps),
        }
    }

    /// Goes through the steps of words, a keeper for each, up to the first step that isn't answered Ok.
    fn write_all(&mut self, alloc: Global, commits: &Commits, text: &str) -> anyhow::Result<Done> {
        let mut count = 0usize;
        for word in text.split(' ') {
            let steps = steps(alloc, word)?;
            let written = self.write(alloc, commits, steps.as_slice())?;
            count = count.saturating_add(written);
            if written != steps.len() {
                return Ok(Done {
                    count,
                    is_whole: false,
                });
            }
        }
        Ok(Done {
            count,
            is_whole: true,
        })
    }
}

/// The files of a database, which is closed where all was done.
fn closed(connection: Stopped, done: Done) -> Run {
    if !done.is_whole {
        return Run {
            done,
            files: connection.into_store().close(),
        };
    }
    match connection.close_files() {
        Ok(files) => Run { done, files },
        Err((_, store)) => Run {
            done: Done {
                count: done.count,
                is_whole: false,
            },
            files: store.close(),
        },
    }
}

/// Goes through the steps of words in a database, and gives its files.
fn written(alloc: Global, commits: &Commits, mut desk: Desk, text: &str) -> anyhow::Result<Run> {
    let done = desk.write_all(alloc, commits, text)?;
    let connection = desk.connection.take().context("a database")?;
    Ok(closed(connection, done))
}

/// Goes through the steps of words on files that stop.
fn stopped(alloc: Global, commits: &Commits, text: &str, calls: Calls) -> anyhow::Result<Run> {
    let files = Files {
        log: Fuse::new(Memory::new(alloc), calls.log),
        db: Fuse::new(Memory::new(alloc), calls.database),
    };
    match open_files(alloc, files, SEED) {
        Ok(connection) => {
            let desk = Desk {
                connection: Some(connection),
            };
            written(alloc, commits, desk, text)
        }
        Err((_, files)) => {
            let done = Done {
                count: 0,
                is_whole: false,
            };
            Ok(Run { done, files })
        }
    }
}

/// What is held in a database.
fn held(alloc: Global, connection: Stopped) -> anyhow::Result<Vec<String>> {
    match SqlKeeper::adopt(alloc, connection) {
        Ok(mut keeper) => {
            let found = loaded(alloc, &mut keeper);
            drop(keeper);
            found
        }
        Err((connection, fault)) => {
            drop(connection);
            Err(fault.into())
        }
    }
}

/// What is found in files after a crash; nothing where they can't be opened.
fn recovered(alloc: Global, mut files: Files<Stopping>) -> anyhow::Result<Vec<String>> {
    files.log.crash();
    files.db.crash();
    match open_files(alloc, files, SEED) {
        Ok(connection) => held(alloc, connection),
        Err(_) => Ok(Vec::new(alloc)),
    }
}

/// Whether what was found is what so many of the steps make, or one more.
fn is_found(
    alloc: Global,
    commits: &Commits,
    steps: &[Step],
    count: usize,
    found: &[String],
) -> anyhow::Result<bool> {
    let (done, _) = steps.split_at(count.min(steps.len()));
    let (more, _) = steps.split_at(count.saturating_add(1).min(steps.len()));
    Ok(
        found == in_memory(alloc, commits, done)?.as_slice()
            || found == in_memory(alloc, commits, more)?.as_slice(),
    )
}

/// What is noted of what was found: nothing where it is the steps that were answered Ok, or besides the one that wasn't.
fn note(
    alloc: Global,
    commits: &Commits,
    text: &str,
    calls: Calls,
    count: usize,
    found: &[String],
) -> anyhow::Result<Option<String>> {
    let steps = steps(alloc, text)?;
    if is_found(alloc, commits, steps.as_slice(), count, found)? {
        return Ok(None);
    }
    Ok(Some(format!(in alloc; " TORN after {} and {} calls", calls.log, calls.database)?))
}

/// Stops, crashes, and looks what is there, which is noted where it is torn. Tells what was done.
fn stop(
    alloc: Global,
    commits: &Commits,
    text: &str,
    calls: Calls,
    told: &mut String,
) -> anyhow::Result<Done> {
    let Run { done, files } = stopped(alloc, commits, text, calls)?;
    let found = recovered(alloc, files)?;
    if let Some(torn) = note(alloc, commits, text, calls, done.count, found.as_slice())? {
        told.push_str(torn.as_str())?;
    }
    Ok(done)
}

/// The calls before a stop of one of the files.
fn calls_of(is_log: bool, calls: u64) -> Calls {
    if is_log {
        Calls {
            log: calls,
            database: u64::MAX,
        }
    } else {
        Calls {
            log: u64::MAX,
            database: calls,
        }
    }
}

/// Stops a file before its first call, its second and so on, until nothing stops any more. Tells how many steps were
/// answered Ok, each number once as long as it stays the same.
fn stops_of(alloc: Global, commits: &Commits, text: &str, is_log: bool) -> anyhow::Result<String> {
    let mut told = String::new(alloc);
    let mut last: Option<usize> = None;
    for calls in 0..MOST_CALLS {
        let done = stop(alloc, commits, text, calls_of(is_log, calls), &mut told)?;
        if last != Some(done.count) {
            told.push_str(format!(in alloc; " {}", done.count)?.as_str())?;
            last = Some(done.count);
        }
        if done.is_whole {
            return Ok(told);
        }
    }
    told.push_str(" WITHOUT END")?;
    Ok(told)
}

/// How many steps are answered Ok where the log, and where the database stops, each time later.
pub fn stops_line(alloc: Global, commits: &Commits, text: &str) -> anyhow::Result<String> {
    let log = stops_of(alloc, commits, text, true)?;
    let database = stops_of(alloc, commits, text, false)?;
    Ok(format!(in alloc; "by the log{log}, by the database{database}")?)
}
