//! Files that no keeper takes, in a folder of their own, and what is changed there.

use crate::files::make_by;
use anyhow::Context;
use ss_keep_sql::{SqlFault, SqlKeeper};
use std::fs;
use std::fs::DirEntry;

const FOLDER: &str = "foreign";

const FILE: &str = "foreign/a.db";

const LOG: &str = "foreign/a.db-wal";

/// Where a file's header says how it is written and how it is read: 1 for a rollback journal, 2 for a write-ahead log
/// (SQLite, "Database File Format", 1.3).
const JOURNALS: [usize; 2] = [18, 19];

/// The name of a file with its bytes.
fn read(rt: &HostRuntime, entry: &DirEntry) -> anyhow::Result<(String, Vec<u8>)> {
    let bytes = fs::read(rt, entry.path())?;
    Ok((String::from_str(rt.alloc(), entry.file_name())?, bytes))
}

/// The names of the files in the folder with their bytes.
fn listed(rt: &HostRuntime) -> anyhow::Result<Vec<(String, Vec<u8>)>> {
    let mut files = Vec::new(rt.alloc());
    for entry in fs::read_dir(rt, FOLDER)? {
        files.push(read(rt, &entry?)?)?;
    }
    files.sort()?;
    Ok(files)
}

/// Makes the file by statements, which has such a journal and no log beside it.
fn make(rt: &HostRuntime, sql: &str, journal: u8) -> anyhow::Result<()> {
    make_by(rt, FILE, sql)?;
    let mut bytes = fs::read(rt, FILE)?;
    for at in JOURNALS {
        *bytes.get_mut(at).context("a header")? = journal;
    }
    fs::write(rt, FILE, bytes.as_slice())?;
    let _log = fs::remove_file(rt, LOG);
    Ok(())
}

/// Why a keeper doesn't take the file.
fn told_opening(rt: &HostRuntime) -> anyhow::Result<String> {
    match SqlKeeper::open(rt, FILE) {
        Ok(_) => Ok(String::from_str(rt.alloc(), "taken")?),
        Err(SqlFault::Damaged { place }) => Ok(format!(in rt.alloc(); "{place}")?),
        Err(fault) => Ok(format!(in rt.alloc(); "{fault:?}")?),
    }
}

/// Whether the folder is as it was, as a word.
fn left(rt: &HostRuntime, before: &[(String, Vec<u8>)]) -> anyhow::Result<&'static str> {
    Ok(if listed(rt)?.as_slice() == before {
        "as it was"
    } else {
        "CHANGED"
    })
}

/// Why a keeper doesn't take the file, and whether its folder is then as it was.
fn opened(rt: &HostRuntime) -> anyhow::Result<String> {
    let before = listed(rt)?;
    let told = told_opening(rt)?;
    let left = left(rt, before.as_slice())?;
    Ok(format!(in rt.alloc(); "{told}, the folder {left}")?)
}

fn told_with(rt: &HostRuntime, sql: &str, journal: u8) -> anyhow::Result<String> {
    let _ = fs::remove_dir_all(rt, FOLDER);
    fs::create_dir(rt, FOLDER)?;
    make(rt, sql, journal)?;
    let told = opened(rt)?;
    fs::remove_dir_all(rt, FOLDER)?;
    Ok(told)
}

/// Why a keeper doesn't take the file that statements make, with each kind of journal.
pub fn folder_line(rt: &HostRuntime, sql: &str) -> anyhow::Result<String> {
    let log = told_with(rt, sql, 2)?;
    let rollback = told_with(rt, sql, 1)?;
    Ok(format!(in rt.alloc(); "{log}; {rollback}")?)
}
