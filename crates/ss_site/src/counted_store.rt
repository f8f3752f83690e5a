//! Stores that tell how often they failed.

ghost use Rattle.std.specs.Prelude.{◌≡◌, ◌≢◌, ◌↔◌, IsTrue, IfOk, OnOk, OnErr};
ghost use Rattle.ss_links.specs.Stores.{HasCause, HasSaved, IsEntry};

use ss_links::{Store, StoreFault};
use std::alloc::Global;

/// A store, and a count of its calls that failed since it was given.
#[derive(Drop, Debug)]
pub struct CountedStore<S> {
    store: S,
    faults: u64,
}

impl<S> CountedStore<S> {
    ghost use Rattle.ss_site.specs.Counted.{store_in, failed_of};

    pub fn new(store: S) -> CountedStore<S>
        ensures store { store_in result ≡ store }
        ensures fresh { failed_of result ≡ 0 }
    {
        CountedStore { store, faults: 0 }
    }

    /// Whether a call of it failed.
    pub fn has_failed(&self) -> bool
        ensures { IsTrue result ↔ (failed_of self.now ≢ 0) }
    {
        self.faults != 0
    }

    /// The store itself.
    pub fn into_store(self) -> S
        ensures { result ≡ store_in self }
    {
        let CountedStore { store, faults: _ } = self;
        store
    }

    // Counts an answer that is a fault.
    fn count<T>(&mut self, answer: Result<T, StoreFault>) -> Result<T, StoreFault>
        ensures same { result ≡ answer }
        ensures store { store_in self.new ≡ store_in self.old }
        ensures cause { HasCause (result) (failed_of self.old) (failed_of self.new) }
    {
        if let Err(StoreFault::Fault) = &answer {
            self.faults = self.faults.saturating_add(1);
        }
        answer
    }
}

impl<S: Store> Store for CountedStore<S> {
    ghost use Rattle.ss_site.specs.Counted.{store_in, failed_of};

    ghost held = { λ s. S.held (store_in s) };

    ghost store_faults = { λ s. failed_of s };

    fn load(&mut self, alloc: Global, name: &str) -> Result<Option<Vec<u8>>, StoreFault> {
        let loaded = self.store.load(alloc, name);
        self.count(loaded)
    }

    fn save(&mut self, alloc: Global, name: &str, bytes: &[u8]) -> Result<(), StoreFault> {
        let saved = self.store.save(alloc, name, bytes);
        self.count(saved)
    }
}
