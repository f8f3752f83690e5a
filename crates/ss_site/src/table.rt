//! What a site in memory keeps, under folders and uids.

ghost use Rattle.std.specs.Prelude.{◌≡◌, ◌++◌, ◌∷◌, [], true, IfOk, OnOk, OnErr, IsTrue, string_bytes};
ghost use Rattle.ss_bso.specs.Changes.{fresh_kept};
ghost use Rattle.ss_site.specs.Sites.{IsWith};
ghost use Rattle.ss_site.specs.Counted.{keeper_in};
ghost use Rattle.ss_site.specs.Tables.{is_at, entries_of, knows, IsPlace, KeepsPlaces};

use crate::counted_keeper::CountedKeeper;
use ss_bso::Kept;
use ss_keeper::{KeepFault, Keeper, MemKeeper};
use std::alloc::{AllocError, Global};
use std::marker::Model;

/// What is kept under a folder and a uid.
#[derive(Drop, Debug)]
pub(crate) struct Entry {
    folder: String,
    uid: u32,
    keeper: CountedKeeper<MemKeeper>,
}

impl Model for Entry {
    ghost use Rattle.std.specs.Prelude.{string_bytes};
    ghost use Rattle.ss_site.specs.Tables.{TableEntry};

    ghost Value = { TableEntry };

    ghost view = { λ e. record { folder = string_bytes e.folder; uid = e.uid; kept = e.keeper.keeper.kept } };
}

impl Entry {
    fn new(folder: String, uid: u32, kept: Kept, alloc: Global) -> Entry
        ensures { result ≡ record { folder = string_bytes folder; uid = uid; kept = kept } }
    {
        Entry {
            folder,
            uid,
            keeper: CountedKeeper::new(MemKeeper::new(kept, Vec::new(alloc))),
        }
    }

    fn is_at(&self, folder: &str, uid: u32) -> bool
        ensures { result ≡ is_at folder.now uid self.now }
    {
        self.folder.as_str() == folder && self.uid == uid
    }

    fn copy(&mut self, alloc: Global) -> Result<Kept, KeepFault>
        ensures copied { IfOk result (λ kept. kept ≡ self.old.kept) }
        ensures same { self.new ≡ self.old }
    {
        self.keeper.load(alloc)
    }

    fn put(&mut self, keeper: CountedKeeper<MemKeeper>)
        ensures { self.new ≡ record self.old { kept = (keeper_in keeper).kept } }
    {
        self.keeper = keeper;
    }
}

/// Entries, of which the first at a place counts.
#[derive(Drop, Debug)]
pub(crate) struct Table {
    entries: Vec<Entry>,
}

impl Model for Table {
    ghost use Rattle.std.specs.Prelude.{List};
    ghost use Rattle.ss_site.specs.Tables.{TableEntry};

    ghost Value = { List TableEntry };

    ghost view = { λ t. t.entries.items };
}

impl Table {
    pub(crate) fn new(alloc: Global) -> Table
        ensures { result ≡ [] }
    {
        Table {
            entries: Vec::new(alloc),
        }
    }

    /// Puts an entry behind the others.
    pub(crate) fn push(
        &mut self,
        alloc: Global,
        folder: String,
        uid: u32,
        kept: Kept,
    ) -> Result<(), AllocError>
        ensures added { IfOk result (λ _. self.new ≡ self.old ++ record {
          folder = string_bytes folder;
          uid = uid;
          kept = kept;
        } ∷ []) }
        ensures refused { OnErr result (self.new ≡ self.old) }
    {
        match self.entries.push(Entry::new(folder, uid, kept, alloc)) {
            Ok(()) => Ok(()),
            Err(_) => Err(AllocError),
        }
    }

    /// Where the first entry at a place stands.
    fn place_of(&self, folder: &str, uid: u32) -> Option<usize>
        ensures { IsPlace folder.now uid self.now result }
    {
        for at in 0..self.entries.len() {
            if self.entries[at].is_at(folder, uid) {
                return Some(at);
            }
        }
        None
    }

    /// A copy of what is kept there; where nothing is yet, a fresh entry is made.
    pub(crate) fn copy_of(
        &mut self,
        alloc: Global,
        folder: &str,
        uid: u32,
    ) -> Result<Kept, KeepFault>
        ensures copied { IfOk result (λ kept. kept ≡ entries_of self.old folder.now uid) }
        ensures same { entries_of self.new ≡ entries_of self.old }
        ensures place { OnOk result (knows self.new (folder.now, uid) ≡ true) }
        ensures places { KeepsPlaces self.old self.new }
    {
        match self.place_of(folder, uid) {
            Some(at) => self.entries[at].copy(alloc),
            None => match self.add(alloc, folder, uid) {
                Ok(()) => Ok(Kept::fresh(alloc)),
                Err(_) => Err(KeepFault::Memory),
            },
        }
    }

    /// Puts a fresh entry behind the others.
    fn add(&mut self, alloc: Global, folder: &str, uid: u32) -> Result<(), AllocError>
        ensures same { entries_of self.new ≡ entries_of self.old }
        ensures place { OnOk result (knows self.new (folder.now, uid) ≡ true) }
        ensures places { KeepsPlaces self.old self.new }
    {
        let folder = String::from_str(alloc, folder)?;
        self.push(alloc, folder, uid, Kept::fresh(alloc))
    }

    /// Makes what a keeper holds the entry, where there is one.
    pub(crate) fn put(&mut self, folder: &str, uid: u32, keeper: CountedKeeper<MemKeeper>) -> bool
        ensures put { IsTrue result → IsWith folder.now uid (keeper_in keeper).kept (entries_of self.old)
            (entries_of self.new) }
        ensures there { knows self.old (folder.now, uid) ≡ true → IsTrue result }
        ensures places { KeepsPlaces self.old self.new }
    {
        match self.place_of(folder, uid) {
            Some(at) => {
                self.entries[at].put(keeper);
                true
            }
            None => {
                drop(keeper);
                false
            }
        }
    }
}
