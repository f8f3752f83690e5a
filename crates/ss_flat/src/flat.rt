//! A state: what the rows that were seen come to.

ghost use Rattle.std.specs.Prelude.{◌≡◌, ◌+◌, ◌≤◌, ◌<◌, ◌++◌, ◌∷◌, [], ℕ, List, false, bytes_eq, length, map};
ghost use Rattle.std.specs.Prelude.{slice_get, IfOk, OnOk, OnErr};
ghost use Rattle.std.specs.Option.{option_to_list};
ghost use Rattle.ss_bso.specs.declared.rows.Row.{Row as RowView};
ghost use Rattle.ss_bso.specs.Lists.{Each, Pairs};
ghost use Rattle.ss_flat.specs.Readings.{reading};
ghost use Rattle.ss_flat.specs.Joining.{HasRoom, Joins, OtherKey, heard_among, sight_of, entry_heard};
ghost use Rattle.ss_flat.specs.States.{IsFlatState, IsJoin, KeepsSame, heard_of, held_of};

use crate::entry::Entry;
use crate::kinds::{FlatKind, Sight};
use crate::reading::read_row;
use indexmap::IndexMap;
use ss_bso::Row;
use ss_text::Id;
use std::alloc::{AllocError, Global};
use std::marker::Model;

/// What the rows of a collection without a tree come to, by the set of the rows that were seen. It keeps a fixed amount
/// of memory for each id and visit, and no row. Its contracts see what is kept of each id.
#[derive(Drop)]
pub struct Flat {
    kind: FlatKind,
    pub(crate) entries: IndexMap<Id, Entry>,
}

impl Model for Flat {
    ghost use Rattle.ss_flat.specs.States.{State};
    ghost use Rattle.indexmap.specs.IndexMap.{spare};

    ghost Value = { State };

    ghost view = { λ f. record { kind = f.kind; entries = f.entries.entries; spare = spare f.entries } };
}

impl Flat {
    /// The state of no rows, which takes no memory.
    pub fn new(alloc: Global, kind: FlatKind) -> Flat
        ensures kind { result.kind ≡ kind }
        ensures none { IsFlatState [] result }
    {
        Flat {
            kind,
            entries: IndexMap::new(alloc),
        }
    }

    /// The kind of the collection.
    pub fn kind(&self) -> FlatKind
        ensures { result ≡ self.now.kind }
    {
        self.kind
    }

    /// Makes room for so many more visits of an id, where it is there.
    fn make_room(&mut self, id: &Id, count: usize) -> Result<(), AllocError>
        ensures same { KeepsSame self.old self.new }
        ensures room { OnOk result (HasRoom id.now count self.new) }
        ensures kept { (other : List ℕ) (n : ℕ) → HasRoom other n self.old → HasRoom other n self.new }
        ensures spare { self.new.spare ≡ self.old.spare }
    {
        match self.entries.get_mut(id) {
            Some(entry) => entry.make_room(count),
            None => Ok(()),
        }
    }

    /// Makes room for so many more ids.
    fn reserve(&mut self, count: usize) -> Result<(), AllocError>
        ensures entries { self.new.entries ≡ self.old.entries }
        ensures kind { self.new.kind ≡ self.old.kind }
        ensures spare { OnOk result (count ≤ self.new.spare) }
    {
        self.entries.reserve(count)
    }

    /// Joins what is kept of an id with more of it. It takes no memory.
    fn put(&mut self, id: Id, more: Entry)
        requires spare { 0 < self.old.spare }
        requires room { HasRoom id (length more.heard.visits) self.old }
        ensures kind { self.new.kind ≡ self.old.kind }
        ensures joins { Joins (heard_of id self.old) more.heard (heard_of id self.new) }
        ensures others { (other : List ℕ) → bytes_eq id other ≡ false → held_of other self.new ≡ held_of other self.old }
        ensures spare { self.old.spare ≤ self.new.spare + 1 }
    {
        match self.entries.get_mut(&id) {
            Some(entry) => entry.take_in(more),
            None => {
                self.entries.insert(id, more).unwrap();
            }
        }
    }

    /// Joins what is kept of an id with more of it. Without memory the state keeps the same.
    fn add(&mut self, id: Id, more: Entry) -> Result<(), AllocError>
        ensures kind { self.new.kind ≡ self.old.kind }
        ensures joins { OnOk result (Joins (heard_of id self.old) more.heard (heard_of id self.new)) }
        ensures others { (other : List ℕ) → bytes_eq id other ≡ false → heard_of other self.new ≡ heard_of other self.old }
        ensures refused { OnErr result (KeepsSame self.old self.new) }
    {
        self.reserve(1)?;
        self.make_room(&id, more.visits())?;
        self.put(id, more);
        Ok(())
    }

    /// Sees a row: of a state of some rows it makes that of these and the row. `Skipped` comes exactly where the row's
    /// payload is neither a tombstone nor a record of its id. Without memory the state keeps the same.
    pub fn see(&mut self, alloc: Global, row: &Row) -> Result<Sight, AllocError>
        ensures kind { self.new.kind ≡ self.old.kind }
        ensures sight { IfOk result (λ sight. sight ≡ sight_of (reading self.old.kind row.now)) }
        ensures seen { OnOk result ((rows : List RowView) → IsFlatState rows self.old
            → IsFlatState (rows ++ row.now ∷ []) self.new) }
        ensures refused { OnErr result (KeepsSame self.old self.new) }
    {
        let reading = read_row(alloc, self.kind, row)?;
        let sight = reading.sight();
        let more = Entry::of(alloc, row.modified, reading)?;
        let id = row.id.copy(alloc)?;
        self.add(id, more)?;
        Ok(sight)
    }

    /// Copies one entry behind others, where it is there.
    fn copy_entry(
        &self,
        alloc: Global,
        i: usize,
        copies: &mut Vec<(Id, Entry)>,
    ) -> Result<(), AllocError>
        ensures { OnOk result (map entry_heard copies.new.items ≡ map entry_heard copies.old.items
            ++ map entry_heard (option_to_list (slice_get self.now.entries i))) }
    {
        if let Some((id, entry)) = self.entries.get_index(i) {
            copies.push((id.copy(alloc)?, entry.copy(alloc)?))?;
        }
        Ok(())
    }

    /// A copy of each entry.
    fn copies(&self, alloc: Global) -> Result<Vec<(Id, Entry)>, AllocError>
        ensures same { IfOk result (λ copies. map entry_heard copies.items ≡ map entry_heard self.now.entries) }
        ensures apart { IfOk result (λ copies. Pairs OtherKey copies.items) }
    {
        let mut copies = Vec::new(alloc);
        for i in 0..self.entries.len() {
            self.copy_entry(alloc, i, &mut copies)?;
        }
        Ok(copies)
    }

    /// Makes room for what is to be put.
    fn make_room_for(&mut self, more: &[(Id, Entry)]) -> Result<(), AllocError>
        ensures same { KeepsSame self.old self.new }
        ensures spare { OnOk result (length more.now ≤ self.new.spare) }
        ensures room { OnOk result (Each (λ entry. HasRoom entry.0 (length entry.1.heard.visits) self.new) more.now) }
    {
        self.reserve(more.len())?;
        for (id, entry) in more {
            self.make_room(id, entry.visits())?;
        }
        Ok(())
    }

    /// Puts all of these, which takes no memory.
    fn put_all(&mut self, mut more: Vec<(Id, Entry)>)
        requires spare { length more.items ≤ self.old.spare }
        requires room { Each (λ entry. HasRoom entry.0 (length entry.1.heard.visits) self.old) more.items }
        requires apart { Pairs OtherKey more.items }
        ensures kind { self.new.kind ≡ self.old.kind }
        ensures joins { (id : List ℕ) → Joins (heard_of id self.old) (heard_among id more.items) (heard_of id self.new) }
    {
        'entries: while let Some((id, entry)) = more.pop() {
            self.put(id, entry);
        }
    }

    /// Joins another state of the same kind: of states of two sets of rows it makes that of their union. It costs as the
    /// other state does. Without memory both keep the same.
    pub fn join(&mut self, alloc: Global, other: &Flat) -> Result<(), AllocError>
        requires { other.now.kind ≡ self.old.kind }
        ensures kind { self.new.kind ≡ self.old.kind }
        ensures joined { OnOk result (IsJoin self.old other.now self.new) }
        ensures refused { OnErr result (KeepsSame self.old self.new) }
    {
        let more = other.copies(alloc)?;
        self.make_room_for(more.as_slice())?;
        self.put_all(more);
        Ok(())
    }
}

/// The state of these rows.
pub fn flat_of(alloc: Global, kind: FlatKind, rows: &[Row]) -> Result<Flat, AllocError>
    ensures kind { IfOk result (λ flat. flat.kind ≡ kind) }
    ensures state { IfOk result (λ flat. IsFlatState rows.now flat) }
{
    let mut flat = Flat::new(alloc, kind);
    for row in rows {
        flat.see(alloc, row)?;
    }
    Ok(flat)
}
