//! The shelf: one account's rows, a drawer for each collection.
ghost use Rattle.std.specs.Prelude.{◌≡◌, ◌+◌, ◌-◌, ◌<◌, ◌≤◌, ◌^◌, ℕ, List, [], ◌∷◌, ◌++◌, length, map, slice_get};
ghost use Rattle.std.specs.Prelude.{◌↔◌, AllPairs, IsFalse, None, cond, filter, fold, count_by, IfNone, IfOk, IfSome};
ghost use Rattle.std.specs.Prelude.{IsTrue, OnErr, OnOk};
ghost use Rattle.std.specs.Map.{lookup};
ghost use Rattle.std.specs.Option.{option_copied, option_to_list};
ghost use Rattle.std.specs.Str.{bytes_eq};
ghost use Rattle.ss_text.specs.Texts.{IsReordering};
ghost use Rattle.ss_bso.specs.Account.{is_alive, is_at, row_at};
ghost use Rattle.ss_bso.specs.Changes.{kept_after_changes, row_changed};
ghost use Rattle.ss_bso.specs.declared.changes.Changes.{Changes};
ghost use Rattle.ss_bso.specs.declared.changes.Kept.{Kept};
ghost use Rattle.ss_bso.specs.declared.changes.RowChange.TheVariants.{Put, Drop};
ghost use Rattle.ss_bso.specs.Limits.{rows_of, row_bytes};
ghost use Rattle.ss_query.specs.Answer.{answer, answer_of, picked_ids};
ghost use Rattle.ss_index.specs.Held.{some_rows};
ghost use Rattle.ss_index.specs.Layout.{NoLater};
ghost use Rattle.ss_index.specs.Numbers.{capped_number, entries_of, measured_rows, per_name};
ghost use Rattle.ss_bso.specs.Lists.{Apart, Each, Pairs};
ghost use Rattle.ss_index.specs.Ready.{rows_after_ready, change_of, changes_of, puts_in, rows_left, spare_of, CanApply};
ghost use Rattle.ss_index.specs.Ready.{CanChange, HasKey, InTime, IsLast, IsReady, NotEarlier, NotLater, PutsInOrder};
ghost use Rattle.ss_index.specs.Ready.{put_time};
ghost use Rattle.ss_index.specs.Shelved.{dropped_names, rows_in, rows_without, NoneEmpty};
ghost use Rattle.ss_index.specs.Sweep.{AliveTo, HoldsTo, Outlives};
ghost use Rattle.ss_index.specs.Walk.{is_above};

use crate::drawer::{Drawer, end_of};
use crate::numbers::{Measure, by_name, capped};
use crate::ready::{Ready, ReadyRow, dropped_names};
use indexmap::IndexMap;
use ss_bso::{Changes, Row, RowChange, Rows};
use ss_list::Steps;
use ss_query::{Numbers, Picked, PickedIds, Query, answer_found, ids_found};
use ss_text::{Id, Name, Stamp};
use std::alloc::{AllocError, Global};
use std::marker::{Brand, Model};
use std::sync::ledger::{Blank, Ledger};

/// One account's rows. Its contracts see their list, on whose order no clause depends.
#[derive(Drop)]
pub struct Shelf {
    drawers: IndexMap<Name, Drawer>,
    len: u64,
    total: u128,
    ends: u64,
}

impl Model for Shelf {
    ghost use Rattle.std.specs.Prelude.{List, ℕ};
    ghost use Rattle.ss_index.specs.Held.{HeldRows};

    ghost Value = { List (List ℕ × HeldRows) };

    ghost use Rattle.ss_index.specs.Shelved.{IsShelf};

    ghost view = { λ s. s.drawers.entries };

    ghost invariant = { λ s. IsShelf s.drawers.entries s.len s.total s.ends };
}

/// The rows in the order of time.
fn in_time(mut rows: Vec<Row>) -> Result<Vec<Row>, AllocError>
    ensures same { IfOk result (λ sorted. IsReordering rows.items sorted.items) }
    ensures sorted { IfOk result (λ sorted. Pairs NoLater sorted.items) }
{
    rows.sort_by(|row, other| row.modified.get().cmp(&other.modified.get()))?;
    Ok(rows)
}

impl Shelf {
    /// A shelf without rows, which takes no memory.
    pub fn new(alloc: Global) -> Shelf
        ensures { rows_in result ≡ [] }
    {
        Shelf {
            drawers: IndexMap::new(alloc),
            len: 0,
            total: 0,
            ends: u64::MAX,
        }
    }

    /// The shelf of these rows, of which no two have one collection and id.
    pub fn from_rows(alloc: Global, rows: Vec<Row>) -> Result<Shelf, AllocError>
        requires places { AllPairs (λ row other. IsFalse (is_at row.collection row.id other)) rows.items }
        requires number { length rows.items < 2 ^ 32 - 1 }
        ensures { IfOk result (λ shelf. IsReordering rows.items (rows_in shelf)) }
    {
        let mut shelf = Shelf::new(alloc);
        shelf.fill(alloc, in_time(rows)?)?;
        Ok(shelf)
    }

    /// Puts rows in the order of time.
    fn fill(&mut self, alloc: Global, rows: Vec<Row>) -> Result<(), AllocError>
        requires empty { rows_in self.old ≡ [] }
        requires times { Pairs NoLater rows.items }
        requires places { Pairs Apart rows.items }
        requires number { length rows.items < 2 ^ 32 - 1 }
        ensures { OnOk result (IsReordering rows.items (rows_in self.new)) }
    {
        for row in rows {
            let key = row.id.copy(alloc)?;
            self.enter(alloc, &row.collection, 1)?;
            self.put_row(key, row);
        }
        Ok(())
    }

    /// How many rows there are.
    pub fn len(&self) -> u64
        ensures { result ≡ length (rows_in self.now) }
    {
        self.len
    }

    /// The payload bytes of all rows, or the greatest u64 where they are more.
    pub fn total(&self) -> u64
        ensures { result ≡ capped_number (row_bytes (rows_in self.now)) }
    {
        capped(self.total)
    }

    /// How many rows a collection has.
    pub fn count_of(&self, collection: &Name) -> u64
        ensures { result ≡ length (rows_of collection.now (rows_in self.now)) }
    {
        match self.drawers.get(collection) {
            Some(drawer) => u64::from(drawer.len()),
            None => 0,
        }
    }

    /// The payload bytes of a collection's rows, or the greatest u64 where they are more.
    pub fn bytes_of(&self, collection: &Name) -> u64
        ensures { result ≡ capped_number (row_bytes (rows_of collection.now (rows_in self.now))) }
    {
        match self.drawers.get(collection) {
            Some(drawer) => capped(drawer.bytes()),
            None => 0,
        }
    }

    /// The row of a collection and id.
    pub fn get(&self, collection: &Name, id: &Id) -> Option<&Row>
        ensures { option_copied result ≡ row_at collection.now id.now (rows_in self.now) }
    {
        match self.drawers.get(collection) {
            Some(drawer) => drawer.get(id),
            None => None,
        }
    }

    /// The answer of a query over the rows of a collection (SyncStorage API 1.5). Only the rows of the page are copied.
    /// Without `ids` it follows at most one link for each row above the query's `newer`.
    pub fn select<L: Ledger>(
        &self,
        alloc: Global,
        collection: &Name,
        query: &Query,
        steps: &mut Steps<L>,
    ) -> Result<Picked, AllocError>
        ensures answer { IfOk result (λ picked. picked ≡ answer (rows_of collection.now (rows_in self.now)) query.now) }
        ensures steps { steps.new ≤ steps.old + count_by (is_above query.now.newer)
            (rows_of collection.now (rows_in self.now)) }
    {
        answer_found(alloc, self.found(alloc, collection, query, steps)?, query)
    }

    /// The ids alone of that answer. No payload is copied.
    pub fn select_ids<L: Ledger>(
        &self,
        alloc: Global,
        collection: &Name,
        query: &Query,
        steps: &mut Steps<L>,
    ) -> Result<PickedIds, AllocError>
        ensures answer { IfOk result (λ picked. picked ≡ picked_ids (answer (rows_of collection.now (rows_in self.now))
            query.now)) }
        ensures steps { steps.new ≤ steps.old + count_by (is_above query.now.newer)
            (rows_of collection.now (rows_in self.now)) }
    {
        ids_found(alloc, self.found(alloc, collection, query, steps)?, query)
    }

    /// Rows of a collection, lent, over which the answer of a query is the answer over all its rows.
    fn found<'a, L: Ledger>(
        &'a self,
        alloc: Global,
        collection: &Name,
        query: &Query,
        steps: &mut Steps<L>,
    ) -> Result<Vec<&'a Row>, AllocError>
        ensures answer { IfOk result (λ found. answer_of (map (λ row. row.now) found.items) query.now
            ≡ answer (rows_of collection.now (rows_in self.now)) query.now) }
        ensures steps { steps.new ≤ steps.old + count_by (is_above query.now.newer)
            (rows_of collection.now (rows_in self.now)) }
    {
        match self.drawers.get(collection) {
            Some(drawer) => drawer.found(alloc, query, steps),
            None => Ok(Vec::new(alloc)),
        }
    }

    /// The number of rows of each collection that has a row, upwards by name.
    pub fn counts(&self, alloc: Global) -> Result<Numbers, AllocError>
        ensures { IfOk result (λ counts. counts ≡ per_name length (rows_in self.now)) }
    {
        self.numbers(alloc, Measure::Rows)
    }

    /// The payload bytes of each collection that has a row, each up to the greatest u64, upwards by name.
    pub fn usage(&self, alloc: Global) -> Result<Numbers, AllocError>
        ensures { IfOk result (λ usage. usage ≡ per_name (λ rows. capped_number (row_bytes rows)) (rows_in self.now)) }
    {
        self.numbers(alloc, Measure::Bytes)
    }

    fn numbers(&self, alloc: Global, measure: Measure) -> Result<Numbers, AllocError>
        ensures { IfOk result (λ numbers. numbers ≡ per_name (measured_rows measure) (rows_in self.now)) }
    {
        let mut numbers = Vec::new(alloc);
        for i in 0..self.drawers.len() {
            self.note_number(alloc, measure, i, &mut numbers)?;
        }
        by_name(numbers)
    }

    /// Notes what is counted of the collection of one drawer, where it has a row.
    fn note_number(
        &self,
        alloc: Global,
        measure: Measure,
        i: usize,
        numbers: &mut Vec<(Name, u64)>,
    ) -> Result<(), AllocError>
        ensures { OnOk result (numbers.new.items ≡ numbers.old.items ++ entries_of measure
            (option_to_list (slice_get self.now i))) }
    {
        match self.drawers.get_index(i) {
            Some((name, drawer)) => measure.note(alloc, numbers, name, drawer),
            None => Ok(()),
        }
    }

    /// A copy of all rows, in some order.
    pub fn copy_rows(&self, alloc: Global) -> Result<Rows, AllocError>
        ensures { IfOk result (λ rows. IsReordering (rows_in self.now) rows) }
    {
        self.copy_counting::<Brand>(alloc, Blank::new(1))
    }

    fn copy_counting<L: Ledger>(&self, alloc: Global, blank: Blank) -> Result<Rows, AllocError>
        requires name { blank.name ≡ L.name }
        requires parts { blank.parts ≡ L.parts }
        requires some_part { 0 < blank.parts }
        ensures { IfOk result (λ rows. IsReordering (rows_in self.now) rows) }
    {
        let mut steps = Steps::<L>::new(blank);
        let mut rows = Vec::new(alloc);
        for i in 0..self.drawers.len() {
            self.copy_drawer(alloc, i, &mut rows, &mut steps)?;
        }
        Ok(Rows::new(rows))
    }

    /// Copies the rows of one drawer.
    fn copy_drawer<L: Ledger>(
        &self,
        alloc: Global,
        i: usize,
        rows: &mut Vec<Row>,
        steps: &mut Steps<L>,
    ) -> Result<(), AllocError>
        ensures { OnOk result (IsReordering (rows.old.items ++ rows_in (option_to_list (slice_get self.now i)))
            rows.new.items) }
    {
        match self.drawers.get_index(i) {
            Some((_, drawer)) => drawer.copy_rows(alloc, rows, steps),
            None => Ok(()),
        }
    }

    /// Puts a row in the place of the one of its collection and id. It takes no memory.
    fn put_row(&mut self, key: Id, row: Row)
        requires key { key ≡ row.id }
        requires room { 0 < spare_of row.collection self.old }
        requires last { Each (λ other. other.modified ≤ row.modified) (rows_of row.collection (rows_in self.old)) }
        requires len { length (rows_in self.old) < 2 ^ 32 - 1 }
        ensures rows { IsReordering (rows_in self.new) (row_changed (rows_in self.old) (Put row)) }
        ensures room { (collection : List ℕ) → spare_of collection self.old
            ≤ spare_of collection self.new + cond (bytes_eq collection row.collection) 1 0 }
    {
        let ends = end_of(&row);
        match self.drawers.get_mut(&row.collection) {
            Some(drawer) => {
                let len = u64::from(drawer.len());
                let bytes = drawer.bytes();
                drawer.put(key, row);
                self.len = self.len - len + u64::from(drawer.len());
                self.total = self.total - bytes + drawer.bytes();
                self.ends = self.ends.min(ends);
            }
            None => unreachable!(),
        }
    }

    /// Takes the row of a collection and id out, where it is there. It takes no memory.
    fn drop_row(&mut self, collection: Name, id: Id)
        ensures rows { IsReordering (rows_in self.new) (row_changed (rows_in self.old) (Drop collection id)) }
        ensures room { (name : List ℕ) → spare_of name self.old ≤ spare_of name self.new }
    {
        match self.drawers.get_mut(&collection) {
            Some(drawer) => {
                let len = drawer.len();
                let bytes = drawer.bytes();
                drawer.take(&id);
                self.len -= u64::from(len - drawer.len());
                self.total -= bytes - drawer.bytes();
            }
            None => {}
        }
    }

    /// Makes one change. It takes no memory.
    fn change_row(&mut self, change: ReadyRow)
        requires key { HasKey change }
        requires can { CanChange self.old (change_of change ∷ []) }
        ensures rows { IsReordering (rows_in self.new) (row_changed (rows_in self.old) (change_of change)) }
        ensures room { (collection : List ℕ) → spare_of collection self.old
            ≤ spare_of collection self.new + puts_in collection (change_of change ∷ []) }
    {
        match change {
            ReadyRow::Put { key, row } => self.put_row(key, row),
            ReadyRow::Drop { collection, id } => self.drop_row(collection, id),
        }
    }

    /// Makes changes, one after the other. It takes no memory.
    fn change_rows(&mut self, changes: Vec<ReadyRow>)
        requires keys { Each HasKey changes.items }
        requires can { CanChange self.old (changes_of changes.items) }
        ensures { IsReordering (rows_in self.new) (fold row_changed (rows_in self.old) (changes_of changes.items)) }
    {
        for change in changes {
            self.change_row(change);
        }
    }

    /// Makes a drawer for a collection that has none. It takes memory, and leaves the rows.
    fn enter_new(&mut self, alloc: Global, collection: &Name, n: u32) -> Result<(), AllocError>
        requires new { lookup (bytes_eq collection.now) self.old ≡ None }
        requires number { n < 2 ^ 32 - 1 }
        ensures rows { rows_in self.new ≡ rows_in self.old }
        ensures room { OnOk result (n ≤ spare_of collection.now self.new) }
        ensures others { (name : List ℕ) → spare_of name self.old ≤ spare_of name self.new }
    {
        let mut drawer = Drawer::new(alloc);
        drawer.reserve(n)?;
        self.drawers.insert(collection.copy(alloc)?, drawer)?;
        Ok(())
    }

    /// Makes sure that a collection has a drawer, with room for `n` more rows. It takes memory, and leaves the rows.
    fn enter(&mut self, alloc: Global, collection: &Name, n: u32) -> Result<(), AllocError>
        requires { length (rows_in self.old) + n < 2 ^ 32 - 1 }
        ensures rows { rows_in self.new ≡ rows_in self.old }
        ensures room { OnOk result (n ≤ spare_of collection.now self.new) }
        ensures others { (name : List ℕ) → spare_of name self.old ≤ spare_of name self.new }
    {
        if self.drawers.contains_key(collection) {
            match self.drawers.get_mut(collection) {
                Some(drawer) => drawer.reserve(n),
                None => unreachable!(),
            }
        } else {
            self.enter_new(alloc, collection, n)
        }
    }

    /// Takes the memory of one change, with room for `n` rows in the drawer of a row that is put. It leaves the rows.
    fn ready_row(
        &mut self,
        alloc: Global,
        change: &RowChange,
        n: u32,
    ) -> Result<ReadyRow, AllocError>
        requires { length (rows_in self.old) + n < 2 ^ 32 - 1 }
        ensures rows { rows_in self.new ≡ rows_in self.old }
        ensures change { IfOk result (λ ready. change_of ready ≡ change.now) }
        ensures key { IfOk result HasKey }
        ensures room { OnOk result ((name : List ℕ) → 0 < puts_in name (change.now ∷ []) → n ≤ spare_of name self.new) }
        ensures others { (name : List ℕ) → spare_of name self.old ≤ spare_of name self.new }
    {
        match change {
            RowChange::Put(row) => {
                self.enter(alloc, &row.collection, n)?;
                Ok(ReadyRow::Put {
                    key: row.id.copy(alloc)?,
                    row: row.copy(alloc)?,
                })
            }
            RowChange::Drop { collection, id } => Ok(ReadyRow::Drop {
                collection: collection.copy(alloc)?,
                id: id.copy(alloc)?,
            }),
        }
    }

    /// Takes the memory of changes, and leaves the rows.
    fn ready_rows(
        &mut self,
        alloc: Global,
        changes: &[RowChange],
    ) -> Result<Vec<ReadyRow>, AllocError>
        requires { length (rows_in self.old) + length changes.now < 2 ^ 32 - 1 }
        ensures rows { rows_in self.new ≡ rows_in self.old }
        ensures changes { IfOk result (λ ready. changes_of ready.items ≡ changes.now) }
        ensures keys { IfOk result (λ ready. Each HasKey ready.items) }
        ensures room { OnOk result ((name : List ℕ) → puts_in name changes.now ≤ spare_of name self.new) }
    {
        let n = changes.len() as u32;
        let mut ready = Vec::new(alloc);
        for change in changes {
            ready.push(self.ready_row(alloc, change, n)?)?;
        }
        Ok(ready)
    }

    /// Takes the rows out that have ended by a moment. It takes no memory, and where no row has ended it looks at none.
    pub fn sweep(&mut self, moment: Stamp)
        ensures rows { rows_in self.new ≡ filter (is_alive moment) (rows_in self.old) }
        ensures room { (name : List ℕ) → spare_of name self.old ≤ spare_of name self.new }
    {
        if moment.get() < self.ends {
            return;
        }
        self.sweep_all(moment);
    }

    fn sweep_all(&mut self, moment: Stamp)
        ensures rows { rows_in self.new ≡ filter (is_alive moment) (rows_in self.old) }
        ensures room { (name : List ℕ) → spare_of name self.old ≤ spare_of name self.new }
    {
        let mut least = u64::MAX;
        for i in 0..self.drawers.len() {
            least = least.min(self.sweep_drawer(i, moment));
        }
        self.set_ends(least);
    }

    fn set_ends(&mut self, ends: u64)
        requires { Each (Outlives ends) (rows_in self.old) }
        ensures { self.new ≡ self.old }
    {
        self.ends = ends;
    }

    /// Takes the rows of one drawer out that have ended by a moment, and gives a moment before which no other of its
    /// rows ends. It takes no memory.
    fn sweep_drawer(&mut self, i: usize, moment: Stamp) -> u64
        ensures rows { filter (is_alive moment) (rows_in self.new) ≡ filter (is_alive moment) (rows_in self.old) }
        ensures alive { AliveTo moment i self.old → AliveTo moment (i + 1) self.new }
        ensures ends { (least : ℕ) → least ≤ result → HoldsTo (Outlives least) i self.old
            → HoldsTo (Outlives least) (i + 1) self.new }
        ensures number { length self.new ≡ length self.old }
        ensures room { (name : List ℕ) → spare_of name self.old ≤ spare_of name self.new }
    {
        match self.drawers.get_index_mut(i) {
            Some(drawer) => {
                let len = drawer.len();
                let bytes = drawer.bytes();
                let ends = drawer.sweep(moment);
                self.len -= u64::from(len - drawer.len());
                self.total -= bytes - drawer.bytes();
                ends
            }
            None => u64::MAX,
        }
    }

    /// Takes the rows of a collection out. It takes no memory.
    fn drop_collection(&mut self, name: &Name)
        ensures rows { rows_in self.new ≡ rows_without (rows_in self.old) name.now }
        ensures room { (other : List ℕ) → spare_of other self.old ≤ spare_of other self.new }
    {
        match self.drawers.get_mut(name) {
            Some(drawer) => {
                self.len -= u64::from(drawer.len());
                self.total -= drawer.bytes();
                drawer.clear();
            }
            None => {}
        }
    }

    /// Takes the rows of collections out. It takes no memory.
    fn drop_collections(&mut self, names: &[Name])
        ensures rows { rows_in self.new ≡ rows_left names.now (rows_in self.old) }
        ensures room { (other : List ℕ) → spare_of other self.old ≤ spare_of other self.new }
    {
        for name in names {
            self.drop_collection(name);
        }
    }

    /// Whether a row is no earlier than those of its collection.
    fn is_last(&self, row: &Row) -> bool
        ensures last { IsTrue result → IsLast (rows_in self.now) (Put row.now) }
        ensures sooner { IsFalse result → IsLast (rows_in self.now) (Put row.now) → ⊥ }
    {
        match self.drawers.get(&row.collection) {
            Some(drawer) => drawer.is_last(row.modified),
            None => true,
        }
    }

    /// The time of the row that a change puts, where it is no earlier than a time and than the rows of its collection.
    fn time_after(&self, change: &RowChange, time: u64) -> Option<u64>
        ensures last { IfSome result (λ later. IsLast (rows_in self.now) change.now) }
        ensures not_before { IfSome result (λ later. NotEarlier time change.now) }
        ensures rises { IfSome result (λ later. time ≤ later) }
        ensures within { IfSome result (λ later. NotLater later change.now) }
        ensures time { IfSome result (λ later. later ≡ put_time time change.now) }
        ensures refused { IfNone result (IsLast (rows_in self.now) change.now → NotEarlier time change.now → ⊥) }
    {
        match change {
            RowChange::Put(row) => {
                if time <= row.modified.get() && self.is_last(row) {
                    Some(row.modified.get())
                } else {
                    None
                }
            }
            RowChange::Drop { .. } => Some(time),
        }
    }

    /// Whether each row that changes put is no earlier than those of its collection and than those that they put
    /// before, so that `prepare` takes them.
    pub fn is_in_time(&self, changes: &Changes) -> bool
        ensures taken { IsTrue result → InTime (rows_left (dropped_names changes.now.collections)
            (filter (is_alive changes.now.moment) (rows_in self.now))) changes.now.rows }
        ensures exact { IsTrue result ↔ PutsInOrder (rows_in self.now) changes.now.rows }
    {
        let mut time = 0;
        for change in changes.rows.as_slice() {
            match self.time_after(change, time) {
                Some(later) => time = later,
                None => return false,
            }
        }
        true
    }

    /// Takes the collections out that have no row. It takes no memory.
    fn tidy(&mut self)
        ensures rows { rows_in self.new ≡ rows_in self.old }
        ensures none_empty { NoneEmpty self.new }
    {
        self.drawers.retain(
            |_name: &Name, drawer: &mut Drawer| -> bool
                ensures { (result ≡ some_rows drawer.old.rows) × (drawer.new ≡ drawer.old) }
            { drawer.has_rows() },
        );
    }

    /// Takes the collections out that have no row, where some were dropped.
    fn tidy_dropped(&mut self, dropped: &[Name])
        ensures rows { rows_in self.new ≡ rows_in self.old }
        ensures none_empty { 0 < length dropped.now → NoneEmpty self.new }
    {
        if !dropped.is_empty() {
            self.tidy();
        }
    }

    /// Takes all the memory of changes, and leaves the rows. Where memory runs out no collection is left without a row.
    pub fn prepare(&mut self, alloc: Global, changes: &Changes) -> Result<Ready, AllocError>
        requires number { length (rows_in self.old) + length changes.now.rows < 2 ^ 32 - 1 }
        requires times { InTime (rows_left (dropped_names changes.now.collections)
            (filter (is_alive changes.now.moment) (rows_in self.old))) changes.now.rows }
        ensures rows { rows_in self.new ≡ rows_in self.old }
        ensures ready { IfOk result (λ ready. IsReady ready changes.now self.new) }
        ensures refused { OnErr result (NoneEmpty self.new) }
    {
        match self.ready(alloc, changes) {
            Ok(ready) => Ok(ready),
            Err(error) => {
                self.tidy();
                Err(error)
            }
        }
    }

    /// Takes all the memory of changes, and leaves the rows.
    fn ready(&mut self, alloc: Global, changes: &Changes) -> Result<Ready, AllocError>
        requires number { length (rows_in self.old) + length changes.now.rows < 2 ^ 32 - 1 }
        requires times { InTime (rows_left (dropped_names changes.now.collections)
            (filter (is_alive changes.now.moment) (rows_in self.old))) changes.now.rows }
        ensures rows { rows_in self.new ≡ rows_in self.old }
        ensures ready { IfOk result (λ ready. IsReady ready changes.now self.new) }
    {
        let dropped = dropped_names(alloc, changes.collections.as_slice())?;
        let rows = self.ready_rows(alloc, changes.rows.as_slice())?;
        Ok(Ready {
            moment: changes.moment,
            dropped,
            rows,
        })
    }

    /// Leaves the rows as they are, and no collection without a row. It takes no memory.
    pub fn cancel(&mut self, ready: Ready)
        ensures rows { rows_in self.new ≡ rows_in self.old }
        ensures none_empty { NoneEmpty self.new }
    {
        let _ready = ready;
        self.tidy();
    }

    /// Makes the changes that are ready: rows that have ended go, collections are dropped, and then rows are changed.
    /// It takes no memory.
    pub fn apply(&mut self, ready: Ready)
        requires { CanApply ready self.old }
        ensures applied { IsReordering (rows_in self.new) (rows_after_ready ready (rows_in self.old)) }
        ensures changed { (kept : Kept) (changes : Changes) → IsReady ready changes self.old
            → kept.rows ≡ rows_in self.old → IsReordering (rows_in self.new) (kept_after_changes kept changes).rows }
        ensures dropped { 0 < length ready.dropped.items → NoneEmpty self.new }
    {
        let Ready {
            moment,
            dropped,
            rows,
        } = ready;
        self.sweep(moment);
        self.drop_collections(dropped.as_slice());
        self.change_rows(rows);
        self.tidy_dropped(dropped.as_slice());
    }
}
