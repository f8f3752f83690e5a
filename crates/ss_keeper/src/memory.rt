//! Keepers in memory.

ghost use Rattle.std.specs.Prelude.{◌≡◌, ◌↔◌, ℕ, None, Some, IsTrue, IfOk, OnOk, OnErr};
ghost use Rattle.ss_outside.specs.Plans.{after_call, fault_count, fresh_plan, is_failing};
ghost use Rattle.ss_bso.specs.Changes.{kept_after_changes};
ghost use Rattle.ss_keeper.specs.Calls.{no_keeper_calls, with_commit, with_load};
ghost use Rattle.ss_keeper.specs.Keeping.{HasCause};

use crate::calls::KeeperCalls;
use crate::faults::KeepFault;
use crate::history::History;
use crate::keeper::Keeper;
use ss_bso::{Changes, Kept};
use ss_outside::{Faults, Never, Numbered};
use std::alloc::Global;
use std::marker::Model;

/// What is kept, in memory; it is told. A call of `load` or `commit` fails by its plan, and no other call answers a
/// fault. A commit takes time in the size of its changes, and not of what is kept.
#[derive(Drop, Debug)]
pub struct KeeperUnder<F: Faults + Drop> {
    history: History,
    plan: F,
    calls: KeeperCalls,
}

impl<F: Faults + Drop> Model for KeeperUnder<F> {
    ghost use Rattle.ss_keeper.specs.Memory.{Holding};

    ghost Value = { Holding };

    ghost view = { λ k. record { kept = k.history; plan = F.Faults.plan k.plan; calls = k.calls } };
}

/// A keeper in memory, some of whose calls fail.
pub type MemKeeper = KeeperUnder<Numbered>;

/// A keeper in memory that never fails: it answers Ok or that memory is wanting, and never a fault.
pub type SureKeeper = KeeperUnder<Never>;

impl KeeperUnder<Numbered> {
    /// A keeper that holds this. The calls with the numbers `failing` fail; calls of `load` and of `commit` are counted
    /// together, from 1 on, also those for which memory is wanting.
    pub fn new(kept: Kept, failing: Vec<u64>) -> MemKeeper
        ensures kept { result.kept ≡ kept }
        ensures plan { result.plan ≡ Some (fresh_plan failing.items) }
        ensures calls { result.calls ≡ no_keeper_calls }
    {
        KeeperUnder {
            history: History::new(kept),
            plan: Numbered::new(failing),
            calls: KeeperCalls::new(),
        }
    }
}

impl KeeperUnder<Never> {
    /// A keeper that holds this.
    pub fn new(kept: Kept) -> SureKeeper
        ensures kept { result.kept ≡ kept }
        ensures plan { result.plan ≡ None }
        ensures calls { result.calls ≡ no_keeper_calls }
    {
        KeeperUnder {
            history: History::new(kept),
            plan: Never,
            calls: KeeperCalls::new(),
        }
    }

    /// Its count of faults is always 0, so no call of it ever answers a fault.
    pub fn never_fails(&self)
        ensures { ⟦<KeeperUnder<Never> as Keeper>⟧.keep_faults self.now ≡ 0 }
    {
        let _ = &self.plan;
    }
}

impl<F: Faults + Drop> Keeper for KeeperUnder<F> {
    ghost told = { λ k. Some k.kept };

    ghost keep_faults = { λ k. fault_count k.plan };

    ghost calls = { λ k. k.calls };

    fn load(&mut self, alloc: Global) -> Result<Kept, KeepFault>
        ensures kept { IfOk result (λ kept. kept ≡ self.old.kept) }
        ensures left { self.new.kept ≡ self.old.kept }
        ensures fails { (result ≡ Err KeepFault.Fault) ↔ IsTrue (is_failing self.old.plan) }
        ensures counted { self.new.plan ≡ after_call self.old.plan }
        ensures cause { HasCause (fault_count self.old.plan) (fault_count self.new.plan) result }
        ensures called { self.new.calls ≡ with_load self.old.calls }
    {
        self.calls.note_load();
        if self.plan.fails() {
            return Err(KeepFault::Fault);
        }
        Ok(self.history.copy(alloc)?)
    }

    fn commit(&mut self, alloc: Global, changes: &Changes) -> Result<(), KeepFault>
        ensures done { OnOk result (self.new.kept ≡ kept_after_changes self.old.kept changes.now) }
        ensures refused { OnErr result (self.new.kept ≡ self.old.kept) }
        ensures fails { (result ≡ Err KeepFault.Fault) ↔ IsTrue (is_failing self.old.plan) }
        ensures counted { self.new.plan ≡ after_call self.old.plan }
        ensures cause { HasCause (fault_count self.old.plan) (fault_count self.new.plan) result }
        ensures called { self.new.calls ≡ with_commit self.old.calls }
    {
        self.calls.note_commit();
        if self.plan.fails() {
            return Err(KeepFault::Fault);
        }
        self.history.add(alloc, changes)?;
        Ok(())
    }
}
