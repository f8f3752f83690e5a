//! What holds an account beyond its process.

ghost use Rattle.std.specs.Prelude.{◌≡◌, ℕ, Option, IfOk, OnOk, OnErr};
ghost use Rattle.ss_bso.specs.declared.changes.Kept.{Kept};
ghost use Rattle.ss_keeper.specs.declared.calls.KeeperCalls.{KeeperCalls};
ghost use Rattle.ss_keeper.specs.Calls.{with_commit, with_load};
ghost use Rattle.ss_keeper.specs.Keeping.{HasCause, TellsKept, changed_by};

use crate::faults::KeepFault;
use ss_bso::{Changes, Kept};
use std::alloc::Global;

/// What holds an account beyond its process.
pub trait Keeper {
    /// What it holds, where that is told.
    ghost told: { Self → Option Kept };

    /// How many of its calls were refused by what it keeps on.
    ghost keep_faults: { Self → ℕ };

    /// How often it was called, whatever it answered.
    ghost calls: { Self → KeeperCalls };

    /// Gives what is held, and leaves it.
    fn load(&mut self, alloc: Global) -> Result<Kept, KeepFault>
        ensures kept { IfOk result (λ kept. TellsKept kept (told self.old)) }
        ensures left { told self.new ≡ told self.old }
        ensures cause { HasCause (keep_faults self.old) (keep_faults self.new) result }
        ensures called { calls self.new ≡ with_load (calls self.old) };

    /// Makes changes, all of them or none: after an Err what is held is as before.
    fn commit(&mut self, alloc: Global, changes: &Changes) -> Result<(), KeepFault>
        ensures done { OnOk result (told self.new ≡ changed_by changes.now (told self.old)) }
        ensures refused { OnErr result (told self.new ≡ told self.old) }
        ensures cause { HasCause (keep_faults self.old) (keep_faults self.new) result }
        ensures called { calls self.new ≡ with_commit (calls self.old) };
}
