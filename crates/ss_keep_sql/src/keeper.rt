//! The keeper over SQLite.

ghost use Rattle.std.specs.Prelude.{◌≡◌, ◌≢◌, ◌≤◌, IfOk, IfErr, None};
ghost use Rattle.ss_outside.specs.Causes.{Rose};
ghost use Rattle.ss_keeper.specs.Calls.{no_keeper_calls};
ghost use Rattle.ss_keeper.specs.Keeping.{HasCause};
ghost use Rattle.ss_keep_sql.specs.Opening.{HasVersion, TellsVersion};

use crate::commits::{add_commit, payload_bytes};
use crate::faults::{FileFault, Refusal, SqlFault, fault_of_file};
use crate::files::open_beside;
use crate::folding::{fold, write_commit};
use crate::logs::NewLog;
use crate::opening::take;
use crate::reading::read;
use sqlite::{Alter, Connection, File, FileStore};
use ss_bso::{Changes, Kept};
use ss_keeper::{KeepFault, Keeper, KeeperCalls};
use std::alloc::Global;
use std::marker::Model;

/// How many bytes the texts of commits have at most before a further one makes them to the tables, and the payloads of a
/// commit at most before it is made to the tables itself (16 MiB).
const MOST_WEIGHT: u64 = 16_777_216;

/// An account in a database of its own. It tells no rows, and counts each refused statement and each call.
#[derive(Drop)]
pub struct SqlKeeper<S: Alter + Drop = FileStore<File>> {
    connection: Connection<S>,

    /// How many bytes the texts of the commits have that weren't made to the tables.
    weight: u64,

    /// What was read as the database was taken, until it is handed out or a commit is asked for.
    kept: Option<Kept>,
    faults: u64,
    calls: KeeperCalls,
}

impl<S: Alter + Drop> Model for SqlKeeper<S> {
    ghost use Rattle.ss_keep_sql.specs.Counts.{Counts};

    ghost Value = { Counts };

    ghost view = { λ keeper. record { faults = keeper.faults; calls = keeper.calls } };
}

impl SqlKeeper {
    /// Opens the database at a path, or makes it where there is no file or an empty one. One keeper at a time has a
    /// file. One that isn't taken has no log beside it that wasn't there, unless the log has pages.
    pub fn open_file(rt: &HostRuntime, path: &str) -> Result<SqlKeeper, FileFault>
        ensures count { IfOk result (λ keeper. keeper ≡ record { faults = 0; calls = no_keeper_calls }) }
        ensures cause { IfErr result TellsVersion }
    {
        let log = NewLog::beside(rt, path);
        let connection = match open_beside(rt, path, &log) {
            Ok(connection) => connection,
            Err(error) => return Err(FileFault::Unopened { error }),
        };
        match SqlKeeper::adopt(rt.alloc(), connection) {
            Ok(keeper) => Ok(keeper),
            Err((connection, fault)) => {
                log.remove(rt);
                drop(connection);
                Err(FileFault::Refused { fault })
            }
        }
    }

    /// As `open_file`, without the reason where the file can't be opened.
    pub fn open(rt: &HostRuntime, path: &str) -> Result<SqlKeeper, SqlFault>
        ensures count { IfOk result (λ keeper. keeper ≡ record { faults = 0; calls = no_keeper_calls }) }
        ensures cause { IfErr result HasVersion }
    {
        match SqlKeeper::open_file(rt, path) {
            Ok(keeper) => Ok(keeper),
            Err(fault) => Err(fault_of_file(fault)),
        }
    }
}

impl<S: Alter + Drop> SqlKeeper<S> {
    /// Takes the database of a connection, and reads it whole. One without tables gets them; one with tables of version 1,
    /// 2 or 3 gets those of version 4, and one with tables of another version is refused, as is one that holds something
    /// out of form. Commits that stand beside the tables are made to them. The connection comes back where it isn't
    /// taken, its database as it was.
    pub fn adopt(
        alloc: Global,
        mut connection: Connection<S>,
    ) -> Result<SqlKeeper<S>, (Connection<S>, SqlFault)>
        ensures count { IfOk result (λ keeper. keeper ≡ record { faults = 0; calls = no_keeper_calls }) }
        ensures cause { IfErr result (λ refused. HasVersion refused.1) }
    {
        match take(alloc, &mut connection) {
            Ok(kept) => Ok(SqlKeeper {
                connection,
                weight: 0,
                kept: Some(kept),
                faults: 0,
                calls: KeeperCalls::new(),
            }),
            Err(fault) => Err((connection, fault)),
        }
    }

    /// Makes the commits to the tables, where there are any. What is held stays as it is, and so do the commits where a
    /// statement is refused.
    pub fn fold(&mut self, alloc: Global) -> Result<(), KeepFault>
        ensures cause { HasCause self.old.faults self.new.faults result }
        ensures calls { self.new.calls ≡ self.old.calls }
    {
        match fold(alloc, &mut self.connection) {
            Ok(()) => {
                self.weight = 0;
                Ok(())
            }
            Err(refusal) => Err(self.refused(refusal)),
        }
    }

    /// Makes the commits to the tables, where they weigh much or the next one does.
    fn fold_many(&mut self, alloc: Global, is_large: bool) -> Result<(), KeepFault>
        ensures cause { HasCause self.old.faults self.new.faults result }
        ensures calls { self.new.calls ≡ self.old.calls }
    {
        if !is_large && self.weight <= MOST_WEIGHT {
            return Ok(());
        }
        self.fold(alloc)
    }

    /// Makes a commit to the tables, beside which no other one stands.
    fn write(&mut self, alloc: Global, changes: &Changes) -> Result<(), KeepFault>
        ensures cause { HasCause self.old.faults self.new.faults result }
        ensures calls { self.new.calls ≡ self.old.calls }
    {
        match write_commit(alloc, &mut self.connection, changes) {
            Ok(()) => Ok(()),
            Err(refusal) => Err(self.refused(refusal)),
        }
    }

    /// Adds a commit beside the tables.
    fn add(&mut self, alloc: Global, changes: &Changes) -> Result<(), KeepFault>
        ensures cause { HasCause self.old.faults self.new.faults result }
        ensures calls { self.new.calls ≡ self.old.calls }
    {
        match add_commit(alloc, &mut self.connection, changes) {
            Ok(bytes) => {
                self.weight = self.weight.saturating_add(bytes);
                Ok(())
            }
            Err(error) => Err(self.refused(Refusal::Statement(error))),
        }
    }

    /// The connection, for instance to close it.
    pub fn into_connection(self) -> Connection<S> {
        let SqlKeeper {
            connection,
            weight: _,
            kept: _,
            faults: _,
            calls: _,
        } = self;
        connection
    }

    /// Why what is held wasn't read or written; it is counted, unless memory was wanting.
    fn refused(&mut self, refusal: Refusal) -> KeepFault
        ensures later { self.old.faults ≤ self.new.faults }
        ensures fault { result ≡ KeepFault.Fault → Rose self.old.faults self.new.faults }
        ensures quiet { result ≢ KeepFault.Fault → self.new.faults ≡ self.old.faults }
        ensures calls { self.new.calls ≡ self.old.calls }
    {
        if refusal.is_memory() {
            return KeepFault::Memory;
        }
        self.faults = self.faults.saturating_add(1);
        KeepFault::Fault
    }
}

impl<S: Alter + Drop> Keeper for SqlKeeper<S> {
    ghost told = { λ keeper. None };

    ghost keep_faults = { λ keeper. keeper.faults };

    ghost calls = { λ keeper. keeper.calls };

    fn load(&mut self, alloc: Global) -> Result<Kept, KeepFault> {
        self.calls.note_load();
        if let Some(kept) = self.kept.take() {
            return Ok(kept);
        }
        match read(alloc, &mut self.connection) {
            Ok(kept) => Ok(kept),
            Err(refusal) => Err(self.refused(refusal)),
        }
    }

    fn commit(&mut self, alloc: Global, changes: &Changes) -> Result<(), KeepFault> {
        self.calls.note_commit();
        self.kept = None;
        let is_large = payload_bytes(changes) > MOST_WEIGHT;
        match self.fold_many(alloc, is_large) {
            Ok(()) if is_large => self.write(alloc, changes),
            Ok(()) => self.add(alloc, changes),
            Err(fault) => Err(fault),
        }
    }
}
