//! The logs of a server: files of a folder, each of which is written once.

ghost use Rattle.std.specs.Prelude.{◌≡◌, ◌≢◌, ◌↔◌, ℕ, IfOk, IsTrue, None, Err};
ghost use Rattle.ss_links.specs.Stores.{HasCause};

use crate::trouble::Trouble;
use ss_links::{FileStore, Store, StoreFault};
use std::alloc::{AllocError, Global};
use std::fs;
use std::io::{self, ErrorKind};
use std::marker::Model;

/// The files of a folder, by their names in it. What is saved is written to a new file beside, which gets the name once it
/// is whole and on the disk, as a `FileStore` does it; but a file that is there already is left as it is, and the call
/// fails. It counts its faults, and tells no content.
#[derive(Drop)]
pub struct LogFiles<'a> {
    files: &'a HostRuntime,
    store: FileStore<'a, HostRuntime>,
    folder: String,
    trouble: Option<Trouble>,
    faults: u64,
}

impl<'a> Model for LogFiles<'a> {
    ghost use Rattle.std.specs.Prelude.{ℕ};

    ghost Value = { ℕ };

    ghost view = { λ logs. logs.faults };
}

/// The path of a file in a folder.
fn path_of(alloc: Global, folder: &str, name: &str) -> Result<String, AllocError> {
    format!(in alloc; "{folder}/{name}")
}

impl<'a> LogFiles<'a> {
    /// The files of this folder, which is made where it isn't there.
    pub(crate) fn open(
        files: &'a HostRuntime,
        alloc: Global,
        folder: &str,
    ) -> io::Result<LogFiles<'a>>
        ensures { IfOk result (λ logs. logs ≡ 0) }
    {
        fs::create_dir_all(files, folder)?;
        Ok(LogFiles {
            files,
            store: FileStore::new(files),
            folder: String::from_str(alloc, folder)?,
            trouble: None,
            faults: 0,
        })
    }

    /// What failed last, for people.
    pub(crate) fn trouble(&self) -> Option<Trouble> {
        self.trouble
    }

    /// Whether a call of it failed.
    pub(crate) fn has_failed(&self) -> bool
        ensures { IsTrue result ↔ (self.now ≢ 0) }
    {
        self.faults != 0
    }

    // Counts an answer that is a fault, and keeps what it was.
    fn count<T>(&mut self, answer: Result<T, StoreFault>, trouble: Trouble) -> Result<T, StoreFault>
        ensures same { result ≡ answer }
        ensures cause { HasCause result self.old self.new }
    {
        if let Err(StoreFault::Fault) = &answer {
            self.trouble = Some(trouble);
            self.faults = self.faults.saturating_add(1);
        }
        answer
    }

    // A fault, which is counted.
    fn fail(&mut self, trouble: Trouble) -> StoreFault
        ensures { HasCause {T = ℕ} (Err result) self.old self.new }
    {
        self.trouble = Some(trouble);
        self.faults = self.faults.saturating_add(1);
        StoreFault::Fault
    }

    // Sees to it that no file with this path is there.
    fn find_none(&mut self, path: &str) -> Result<(), StoreFault>
        ensures { HasCause result self.old self.new }
    {
        match fs::exists(self.files, path) {
            Ok(false) => Ok(()),
            Ok(true) => Err(self.fail(Trouble::LogIsThere)),
            Err(error) if error.kind() == ErrorKind::OutOfMemory => Err(StoreFault::Memory),
            Err(_) => Err(self.fail(Trouble::Log)),
        }
    }
}

impl<'a> Store for LogFiles<'a> {
    ghost held = { λ logs. None };

    ghost store_faults = { λ logs. logs };

    fn load(&mut self, alloc: Global, name: &str) -> Result<Option<Vec<u8>>, StoreFault> {
        let Ok(path) = path_of(alloc, self.folder.as_str(), name) else {
            return Err(StoreFault::Memory);
        };
        let loaded = self.store.load(alloc, path.as_str());
        self.count(loaded, Trouble::Log)
    }

    fn save(&mut self, alloc: Global, name: &str, bytes: &[u8]) -> Result<(), StoreFault> {
        let Ok(path) = path_of(alloc, self.folder.as_str(), name) else {
            return Err(StoreFault::Memory);
        };
        if let Err(fault) = self.find_none(path.as_str()) {
            return Err(fault);
        }
        let saved = self.store.save(alloc, path.as_str(), bytes);
        self.count(saved, Trouble::Log)
    }
}
