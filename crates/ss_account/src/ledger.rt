//! A keeper, and the batches of which it has yet to be told that they ended.

ghost use Rattle.std.specs.Prelude.{◌≡◌, [], OnOk, OnErr};
ghost use Rattle.ss_keeper.specs.Calls.{with_commit};
ghost use Rattle.ss_keeper.specs.Keeping.{HasCause, changed_by};

use ss_bso::Changes;
use ss_keeper::{KeepFault, Keeper};
use ss_writes::Ended;
use std::alloc::Global;

/// A keeper, and the numbers of the batches that ended since its last commit.
#[derive(Drop)]
pub(crate) struct Ledger<K: Keeper> {
    pub(crate) keeper: K,
    pub(crate) ended: Ended,
}

impl<K: Keeper> Ledger<K> {
    /// Has the keeper make changes, in which the ended batches are named. After an Err nothing is changed.
    pub(crate) fn commit(&mut self, alloc: Global, changes: &Changes) -> Result<(), KeepFault>
        ensures done { OnOk result (K.told self.new.keeper ≡ changed_by changes.now (K.told self.old.keeper)) }
        ensures cleared { OnOk result (self.new.ended ≡ []) }
        ensures refused { OnErr result (K.told self.new.keeper ≡ K.told self.old.keeper) }
        ensures left { OnErr result (self.new.ended ≡ self.old.ended) }
        ensures cause { HasCause (K.keep_faults self.old.keeper) (K.keep_faults self.new.keeper) result }
        ensures called { K.calls self.new.keeper ≡ with_commit (K.calls self.old.keeper) }
    {
        self.keeper.commit(alloc, changes)?;
        self.ended.clear();
        Ok(())
    }
}
