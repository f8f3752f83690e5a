//! One run of the command `sync`.

use crate::syncs::net::Net;
use crate::syncs::wire::Answers;
use ss_links::MemStore;
use ss_outside::MemSink;
use ss_run_sync::run_sync;
use std::alloc::{AllocError, Global};

/// The room for what is printed.
const ROOM: usize = 1000;

/// Files by their names.
pub type Files = Vec<(String, Vec<u8>)>;

/// Which calls of the store and of the output fail, counted from 1.
#[derive(Drop)]
pub struct Failing {
    pub store: Option<u64>,
    pub output: Option<u64>,
}

/// How a run ended.
#[derive(Drop)]
pub struct Ran {
    pub status: u8,
    pub line: String,
    /// The bytes of the file that the words name.
    pub file: Option<Vec<u8>>,
    /// Whether all other files are as they were.
    pub keeps_others: bool,
}

/// The bytes of a file.
pub fn file_of<'a>(files: &'a [(String, Vec<u8>)], name: &str) -> Option<&'a [u8]> {
    for (other, bytes) in files {
        if other.as_str() == name {
            return Some(bytes.as_slice());
        }
    }
    None
}

/// The place of a file, or the first place behind all.
pub fn place_of(files: &[(String, Vec<u8>)], name: &str) -> usize {
    let mut place: usize = 0;
    for (other, _) in files {
        if other.as_str() == name {
            return place;
        }
        place = place.saturating_add(1);
    }
    place
}

fn copy_of(alloc: Global, files: &[(String, Vec<u8>)]) -> Result<Files, AllocError> {
    let mut copied = Vec::new(alloc);
    for (name, bytes) in files {
        let name = String::from_str(alloc, name.as_str())?;
        copied.push((name, Vec::from_slice(alloc, bytes.as_slice())?))?;
    }
    Ok(copied)
}

/// The numbers of the calls that fail.
fn numbers(alloc: Global, failing: Option<u64>) -> Result<Vec<u64>, AllocError> {
    let mut numbers = Vec::new(alloc);
    if let Some(number) = failing {
        numbers.push(number)?;
    }
    Ok(numbers)
}

/// Whether all files but one are in a store as they were.
fn keeps_others(files: &[(String, Vec<u8>)], name: &str, store: &MemStore) -> bool {
    for (other, bytes) in files {
        if other.as_str() != name && store.file(other.as_str()) != Some(bytes.as_slice()) {
            return false;
        }
    }
    true
}

/// The bytes of a file in a store.
fn stored(alloc: Global, store: &MemStore, name: &str) -> Result<Option<Vec<u8>>, AllocError> {
    match store.file(name) {
        Some(bytes) => Ok(Some(Vec::from_slice(alloc, bytes)?)),
        None => Ok(None),
    }
}

/// Runs the command with these words over a net and a store, in which these files are; the status, and what is printed.
fn run_in<A: Answers + Drop>(
    alloc: Global,
    words: &[String],
    net: &mut Net<A>,
    store: &mut MemStore,
    output: Option<u64>,
) -> Result<(u8, String), AllocError> {
    let mut output = MemSink::new(alloc, ROOM, numbers(alloc, output)?)?;
    let status = run_sync(alloc, words, net, store, &mut output).status();
    let printed = output.written().unwrap_or(b"untold");
    Ok((status, String::from_utf8_lossy(alloc, printed)?))
}

/// Runs the command with these words over a net and a store, which has these files.
fn run_over<A: Answers + Drop>(
    alloc: Global,
    words: &[String],
    net: &mut Net<A>,
    files: &[(String, Vec<u8>)],
    store: &mut MemStore,
    output: Option<u64>,
) -> Result<Ran, AllocError> {
    let (status, line) = run_in(alloc, words, net, store, output)?;
    let name = match words.get(2) {
        Some(name) => name.as_str(),
        None => "",
    };
    Ok(Ran {
        status,
        line,
        file: stored(alloc, store, name)?,
        keeps_others: keeps_others(files, name, store),
    })
}

/// Runs the command with these words over a net and a store of these files.
pub fn run<A: Answers + Drop>(
    alloc: Global,
    words: &[String],
    net: &mut Net<A>,
    files: &[(String, Vec<u8>)],
    failing: &Failing,
) -> Result<Ran, AllocError> {
    let mut store = MemStore::new(copy_of(alloc, files)?, numbers(alloc, failing.store)?);
    let ran = run_over(alloc, words, net, files, &mut store, failing.output);
    drop(store);
    ran
}
