//! Keepers that tell how often they failed.

ghost use Rattle.std.specs.Prelude.{◌≡◌, ◌≢◌, ◌↔◌, IsTrue, IfOk, OnOk, OnErr};
ghost use Rattle.ss_keeper.specs.Keeping.{HasCause, TellsKept, changed_by};

use ss_bso::{Changes, Kept};
use ss_keeper::{KeepFault, Keeper};
use std::alloc::Global;

/// A keeper, and a count of its calls that failed since it was given.
#[derive(Drop, Debug)]
pub struct CountedKeeper<K> {
    keeper: K,
    faults: u64,
}

impl<K> CountedKeeper<K> {
    ghost use Rattle.ss_site.specs.Counted.{keeper_in, faults_of};

    pub fn new(keeper: K) -> CountedKeeper<K>
        ensures keeper { keeper_in result ≡ keeper }
        ensures fresh { faults_of result ≡ 0 }
    {
        CountedKeeper { keeper, faults: 0 }
    }

    /// Whether a call of it failed.
    pub fn has_failed(&self) -> bool
        ensures { IsTrue result ↔ (faults_of self.now ≢ 0) }
    {
        self.faults != 0
    }

    /// The keeper itself.
    pub fn into_keeper(self) -> K
        ensures { result ≡ keeper_in self }
    {
        let CountedKeeper { keeper, faults: _ } = self;
        keeper
    }

    // Counts an answer that is a fault.
    fn count<T>(&mut self, answer: Result<T, KeepFault>) -> Result<T, KeepFault>
        ensures same { result ≡ answer }
        ensures keeper { keeper_in self.new ≡ keeper_in self.old }
        ensures cause { HasCause (faults_of self.old) (faults_of self.new) result }
    {
        if let Err(KeepFault::Fault) = &answer {
            self.faults = self.faults.saturating_add(1);
        }
        answer
    }
}

impl<K: Keeper> Keeper for CountedKeeper<K> {
    ghost use Rattle.ss_site.specs.Counted.{keeper_in, faults_of};

    ghost told = { λ k. K.told (keeper_in k) };

    ghost keep_faults = { λ k. faults_of k };

    ghost calls = { λ k. K.calls (keeper_in k) };

    fn load(&mut self, alloc: Global) -> Result<Kept, KeepFault> {
        let loaded = self.keeper.load(alloc);
        self.count(loaded)
    }

    fn commit(&mut self, alloc: Global, changes: &Changes) -> Result<(), KeepFault> {
        let done = self.keeper.commit(alloc, changes);
        self.count(done)
    }
}
