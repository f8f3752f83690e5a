//! The file of an account.

ghost use Rattle.std.specs.Prelude.{◌≡◌, ◌≢◌, ◌↔◌, IsTrue, None};
ghost use Rattle.ss_site.specs.Counted.{faults_of, keeper_in};
ghost use Rattle.ss_real_site.specs.Files.{counted_in};

use ss_bso::{Changes, Kept};
use ss_keep_sql::SqlKeeper;
use ss_keeper::{KeepFault, Keeper};
use ss_site::CountedKeeper;
use std::alloc::Global;

/// An account in a database that is a file, and how often it failed. It tells no rows.
#[derive(Drop)]
pub struct AccountFile {
    keeper: CountedKeeper<SqlKeeper>,
}

impl AccountFile {
    pub(crate) fn new(keeper: SqlKeeper) -> AccountFile
        ensures { faults_of (counted_in result) ≡ 0 }
    {
        AccountFile {
            keeper: CountedKeeper::new(keeper),
        }
    }

    /// Whether a call of it failed.
    pub(crate) fn has_failed(&self) -> bool
        ensures { IsTrue result ↔ (faults_of (counted_in self.now) ≢ 0) }
    {
        self.keeper.has_failed()
    }

    /// Makes the commits that stand beside the tables to them, and lets go of the file. Where that fails they stand on,
    /// and are made as the file is opened again.
    pub(crate) fn settle(self, alloc: Global) {
        let AccountFile { keeper } = self;
        let mut keeper = keeper.into_keeper();
        let _folded = keeper.fold(alloc).is_ok();
        drop(keeper);
    }
}

impl Keeper for AccountFile {
    ghost told = { λ file. None };

    ghost keep_faults = { λ file. faults_of (counted_in file) };

    ghost calls = { λ file. (keeper_in (counted_in file)).calls };

    fn load(&mut self, alloc: Global) -> Result<Kept, KeepFault> {
        self.keeper.load(alloc)
    }

    fn commit(&mut self, alloc: Global, changes: &Changes) -> Result<(), KeepFault> {
        self.keeper.commit(alloc, changes)
    }
}
