//! Stores in memory and over the file system, in the folder where the program runs.

use anyhow::bail;
use ss_links::{FileStore, MemStore, Store, StoreFault, SureStore};
use std::alloc::{AllocError, Global};
use std::fs;
use std::rt::Files;

/// What a store holds of a file.
type Held = Option<Vec<u8>>;

/// What a store holds of a file before it was saved, and after it was saved twice.
fn saved<S: Store>(alloc: Global, store: &mut S) -> Result<(Held, Held), StoreFault> {
    let before = store.load(alloc, "device")?;
    store.save(alloc, "device", b"first")?;
    store.save(alloc, "device", b"then")?;
    Ok((before, store.load(alloc, "device")?))
}

/// A file as text.
fn text_of(alloc: Global, bytes: Option<&[u8]>) -> Result<String, AllocError> {
    match bytes {
        Some(bytes) => format!(in alloc; "{:?}", String::from_utf8_lossy(alloc, bytes)?),
        None => String::from_str(alloc, "no file"),
    }
}

/// What is told of a store that was saved to.
fn line(alloc: Global, saved: Result<(Held, Held), StoreFault>) -> anyhow::Result<String> {
    Ok(match saved {
        Ok((before, after)) => {
            let before = text_of(alloc, before.as_ref().map(|bytes| bytes.as_slice()))?;
            let after = text_of(alloc, after.as_ref().map(|bytes| bytes.as_slice()))?;
            format!(in alloc; "{before}, then {after}")?
        }
        Err(fault) => format!(in alloc; "{fault:?}")?,
    })
}

/// What is told of a store of files. The file isn't there before, nor behind it.
fn over_files<R: Files>(rt: &R, alloc: Global) -> anyhow::Result<String> {
    let _ = fs::remove_file(rt, "device");
    let line = line(alloc, saved(alloc, &mut FileStore::new(rt)))?;
    fs::remove_file(rt, "device")?;
    Ok(line)
}

/// What is told of a store whose call with this number fails, and the file that it then has.
fn failing(alloc: Global, call: u64) -> anyhow::Result<String> {
    let mut store = MemStore::new(Vec::new(alloc), vec![in alloc; call]?);
    let line = line(alloc, saved(alloc, &mut store))?;
    let left = text_of(alloc, store.file("device"))?;
    Ok(format!(in alloc; "{line}, and it has {left}")?)
}

/// What is told of the store of a line: one in memory, one of files, or one whose call fails.
pub fn store_line<R: Files>(rt: &R, alloc: Global, kind: &str) -> anyhow::Result<String> {
    match kind.split_once('=') {
        Some(("fails", call)) => failing(alloc, call.parse::<u64>()?),
        None if kind == "memory" => {
            line(alloc, saved(alloc, &mut SureStore::new(Vec::new(alloc))))
        }
        None if kind == "files" => over_files(rt, alloc),
        _ => bail!("no store"),
    }
}
