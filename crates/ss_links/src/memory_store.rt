//! Stores in memory.

ghost use Rattle.std.specs.Prelude.{◌≡◌, ◌↔◌, Some, None, Err, IfOk, OnOk, OnErr, IsTrue, option_copied};
ghost use Rattle.ss_outside.specs.Plans.{after_call, fault_count, fresh_plan, is_failing};
ghost use Rattle.ss_links.specs.Stores.{HasCause, HasSaved, IsEntry, IsPlace, files_of};
ghost use Rattle.ss_links.specs.declared.store.StoreFault.TheVariants.{Fault};

use crate::store::{Store, StoreFault};
use ss_outside::{Faults, Never, Numbered};
use std::alloc::Global;
use std::marker::Model;

/// Files in memory. Of two with the same name the first counts.
#[derive(Drop, Debug)]
pub struct StoreUnder<F: Faults + Drop> {
    entries: Vec<(String, Vec<u8>)>,
    plan: F,
}

impl<F: Faults + Drop> Model for StoreUnder<F> {
    ghost use Rattle.ss_links.specs.Stores.{Shelf};

    ghost Value = { Shelf };

    ghost view = { λ s. record { entries = s.entries.items; plan = F.Faults.plan s.plan } };
}

/// A store in memory, some of whose calls fail.
pub type MemStore = StoreUnder<Numbered>;

/// A store in memory that never fails.
pub type SureStore = StoreUnder<Never>;

impl StoreUnder<Numbered> {
    /// A store of these files. The calls with the numbers `failing` fail, counted from 1.
    pub fn new(entries: Vec<(String, Vec<u8>)>, failing: Vec<u64>) -> MemStore
        ensures { result ≡ record { entries = entries.items; plan = Some (fresh_plan failing.items) } }
    {
        StoreUnder {
            entries,
            plan: Numbered::new(failing),
        }
    }
}

impl StoreUnder<Never> {
    /// A store of these files.
    pub fn new(entries: Vec<(String, Vec<u8>)>) -> SureStore
        ensures { result ≡ record { entries = entries.items; plan = None } }
    {
        StoreUnder {
            entries,
            plan: Never,
        }
    }
}

impl<F: Faults + Drop> StoreUnder<F> {
    /// The bytes of the file with this name.
    pub fn file(&self, name: &str) -> Option<&[u8]>
        ensures { option_copied result ≡ files_of self.now.entries name.now }
    {
        let at = self.place_of(name)?;
        Some(self.entries[at].1.as_slice())
    }

    // Where the first entry with this name stands.
    fn place_of(&self, name: &str) -> Option<usize>
        ensures { IsPlace name.now self.now.entries result }
    {
        for at in 0..self.entries.len() {
            if self.entries[at].0.as_str() == name {
                return Some(at);
            }
        }
        None
    }
}

impl<F: Faults + Drop> Store for StoreUnder<F> {
    ghost held = { λ store. Some (files_of store.entries) };

    ghost store_faults = { λ store. fault_count store.plan };

    fn load(&mut self, alloc: Global, name: &str) -> Result<Option<Vec<u8>>, StoreFault>
        ensures entry { IfOk result (λ file. IsEntry name.now file (Some (files_of self.old.entries))) }
        ensures left { Some (files_of self.new.entries) ≡ Some (files_of self.old.entries) }
        ensures cause { HasCause result (fault_count self.old.plan) (fault_count self.new.plan) }
        ensures fails { (result ≡ Err Fault) ↔ IsTrue (is_failing self.old.plan) }
        ensures plan { self.new.plan ≡ after_call self.old.plan }
    {
        if self.plan.fails() {
            return Err(StoreFault::Fault);
        }
        match self.file(name) {
            Some(bytes) => Ok(Some(Vec::from_slice(alloc, bytes)?)),
            None => Ok(None),
        }
    }

    fn save(&mut self, alloc: Global, name: &str, bytes: &[u8]) -> Result<(), StoreFault>
        ensures saved { OnOk result (HasSaved name.now bytes.now (Some (files_of self.old.entries)) (Some (files_of self.new.entries))) }
        ensures refused { OnErr result (Some (files_of self.new.entries) ≡ Some (files_of self.old.entries)) }
        ensures cause { HasCause result (fault_count self.old.plan) (fault_count self.new.plan) }
        ensures fails { (result ≡ Err Fault) ↔ IsTrue (is_failing self.old.plan) }
        ensures plan { self.new.plan ≡ after_call self.old.plan }
    {
        if self.plan.fails() {
            return Err(StoreFault::Fault);
        }
        let copy = Vec::from_slice(alloc, bytes)?;
        match self.place_of(name) {
            Some(at) => self.entries[at].1 = copy,
            None => {
                let name = String::from_str(alloc, name)?;
                self.entries.reserve(1)?;
                self.entries.push_reserved((name, copy));
            }
        }
        Ok(())
    }
}
