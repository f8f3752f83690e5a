//! A store over the file system: the trusted edge. It counts its faults, and tells no content.

ghost use Rattle.std.specs.Prelude.{◌≡◌, ℕ, None, Err};
ghost use Rattle.ss_links.specs.Stores.{HasCause};

use crate::store::{Store, StoreFault};
use std::alloc::Global;
use std::fs::{OpenFile, OpenOptions};
use std::io::{ErrorKind, Read, Write};
use std::marker::Model;
use std::path::Path;
use std::rt::Files;
use std::{fs, io};

/// Files of the system, by their paths. A save is written to a new file beside, whose name has the process's number and ends
/// in `.new`, and synced, and then renamed to the file's name at once: after a crash the file is the old one or the new one,
/// whole, and of two processes that save it neither writes into what the other has begun. A link is followed, and stays.
#[derive(Drop)]
pub struct FileStore<'a, R: Files> {
    files: &'a R,
    faults: u64,
}

impl<'a, R: Files> Model for FileStore<'a, R> {
    ghost use Rattle.std.specs.Prelude.{ℕ};

    ghost Value = { ℕ };

    ghost view = { λ store. store.faults };
}

impl<'a, R: Files> FileStore<'a, R> {
    pub fn new(files: &'a R) -> FileStore<'a, R>
        ensures { result ≡ 0 }
    {
        FileStore { files, faults: 0 }
    }

    // What an error of the system is to the store, which counts it where memory isn't all that is wanting.
    fn fault_of(&mut self, error: io::Error) -> StoreFault
        ensures { HasCause {T = ℕ} (Err result) self.old self.new }
    {
        if error.kind() == ErrorKind::OutOfMemory {
            return StoreFault::Memory;
        }
        self.faults = self.faults.saturating_add(1);
        StoreFault::Fault
    }
}

// The bytes of a file; None where there is none.
fn read_file<R: Files>(files: &R, alloc: Global, path: &str) -> io::Result<Option<Vec<u8>>> {
    let mut file = match fs::open(files, path) {
        Ok(file) => file,
        Err(error) if error.kind() == ErrorKind::NotFound => return Ok(None),
        Err(error) => return Err(error),
    };
    let mut bytes = Vec::new(alloc);
    file.read_to_end(&mut bytes)?;
    Ok(Some(bytes))
}

// Writes these bytes into a file that was made, with the permissions of the file that it is to replace, and waits until they
// are on the disk.
fn write_synced<R: Files>(files: &R, mut file: R::File, old: &str, bytes: &[u8]) -> io::Result<()> {
    if let Ok(metadata) = files.metadata(old) {
        file.set_permissions(metadata.permissions())?;
    }
    file.write_all(bytes)?;
    file.sync_all()
}

// Replaces a file by one with these bytes.
fn replace<R: Files>(files: &R, alloc: Global, path: &str, bytes: &[u8]) -> io::Result<()> {
    let beside = format!(in alloc; "{path}.{}.new", libc::getpid())?;
    let mut fresh = OpenOptions::new();
    fresh.write(true).create_new(true);
    let file = files.open_file(&fresh, beside.as_str())?;
    let written = match write_synced(files, file, path, bytes) {
        Ok(()) => fs::rename(files, beside.as_str(), path),
        Err(error) => Err(error),
    };
    match written {
        Ok(()) => {
            sync_folder(files, path);
            Ok(())
        }
        Err(error) => {
            let _ = fs::remove_file(files, beside.as_str());
            Err(error)
        }
    }
}

// Replaces a file by one with these bytes, in the folder in which it is: where the path is a link, that of its end.
fn replace_at_end<R: Files>(files: &R, alloc: Global, path: &str, bytes: &[u8]) -> io::Result<()> {
    match files.canonicalize(alloc, path) {
        Ok(end) => replace(files, alloc, end.as_str(), bytes),
        Err(_) => replace(files, alloc, path, bytes),
    }
}

// Waits until the folder of a file is on the disk, where the system can tell. What a crash leaves is whole in any case.
fn sync_folder<R: Files>(files: &R, path: &str) {
    let folder = match Path::new(path).parent() {
        Some(folder) if !folder.as_str().is_empty() => folder,
        _ => Path::new("."),
    };
    if let Ok(folder) = fs::open(files, folder) {
        let _ = folder.sync_all();
    }
}

impl<'a, R: Files> Store for FileStore<'a, R> {
    ghost held = { λ store. None };

    ghost store_faults = { λ store. store };

    fn load(&mut self, alloc: Global, name: &str) -> Result<Option<Vec<u8>>, StoreFault> {
        match read_file(self.files, alloc, name) {
            Ok(file) => Ok(file),
            Err(error) => Err(self.fault_of(error)),
        }
    }

    fn save(&mut self, alloc: Global, name: &str, bytes: &[u8]) -> Result<(), StoreFault> {
        match replace_at_end(self.files, alloc, name, bytes) {
            Ok(()) => Ok(()),
            Err(error) => Err(self.fault_of(error)),
        }
    }
}
