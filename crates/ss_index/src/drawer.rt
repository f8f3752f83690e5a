//! The rows of one collection: a map from ids to nodes, and a chain in the order of time.
ghost use Rattle.std.specs.Prelude.{◌≡◌, ◌+◌, ◌-◌, ◌<◌, ◌≤◌, ◌^◌, ◌++◌, [], ◌∷◌, find, filter, map, drop, count_by};
ghost use Rattle.std.specs.Prelude.{length, None, IfOk, OnOk, OnErr, IsFalse, IsOk, IsTrue};
ghost use Rattle.std.specs.Option.{option_copied};
ghost use Rattle.ss_bso.specs.Account.{is_alive};
ghost use Rattle.ss_bso.specs.Limits.{row_bytes};
ghost use Rattle.ss_index.specs.Held.{has_id, rows_but_id, picked_row, some_rows, HasCountablePayload};
ghost use Rattle.ss_bso.specs.Write.{is_among};
ghost use Rattle.ss_text.specs.Texts.{IsReordering};
ghost use Rattle.ss_query.specs.Answer.{answer, answer_of, is_asked};
ghost use Rattle.ss_bso.specs.Lists.{Each, OtherId, Pairs};
ghost use Rattle.ss_index.specs.Sweep.{Outlives};
ghost use Rattle.ss_index.specs.Walk.{is_above};

use crate::walk::{note, walk, walked};
use indexmap::IndexMap;
use ss_bso::Row;
use ss_list::{At, Chain, Steps};
use ss_query::{Query, Sort};
use ss_text::{Id, Stamp};
use std::alloc::{AllocError, Global};
use std::marker::{Brand, Model};
use std::sync::ledger::{Blank, Ledger};

/// The rows of one collection. Its contracts see the rows in the order of time, and how many more fit without memory.
#[derive(Drop)]
pub(crate) struct Drawer {
    places: IndexMap<Id, At>,
    rows: Chain<Row>,
    bytes: u128,
}

impl Model for Drawer {
    ghost use Rattle.ss_index.specs.Held.{HeldRows};

    ghost Value = { HeldRows };

    ghost use Rattle.ss_index.specs.Layout.{held_rows, IsLayout};

    ghost view = { λ d. held_rows d.places d.rows };

    ghost invariant = { λ d. IsLayout d.places d.rows d.bytes };
}

fn is_named(ids: &[Id], id: &Id) -> bool
    ensures { result ≡ is_among ids.now id.now }
{
    ids.iter().any(|other| other == id)
}

/// The moment from which a row has ended, or the last one.
pub(crate) fn end_of(row: &Row) -> u64
    ensures { Outlives result row.now }
{
    match row.expires {
        Some(expiry) => expiry,
        None => u64::MAX,
    }
}

/// Copies lent rows after those of a vector.
fn copy_each(alloc: Global, rows: &mut Vec<Row>, lent: &[&Row]) -> Result<(), AllocError>
    ensures { OnOk result (rows.new.items ≡ rows.old.items ++ map (λ row. row.now) lent.now) }
{
    for row in lent {
        rows.push(row.copy(alloc)?)?;
    }
    Ok(())
}

impl Drawer {
    pub(crate) fn new(alloc: Global) -> Drawer
        ensures { result.rows ≡ [] }
    {
        Drawer {
            places: IndexMap::new(alloc),
            rows: Chain::new(alloc),
            bytes: 0,
        }
    }

    /// How many rows there are.
    pub(crate) fn len(&self) -> u32
        ensures { result ≡ length self.now.rows }
    {
        self.rows.len()
    }

    /// Whether there is a row.
    pub(crate) fn has_rows(&self) -> bool
        ensures { result ≡ some_rows self.now.rows }
    {
        !self.rows.is_empty()
    }

    /// The payload bytes of the rows.
    pub(crate) fn bytes(&self) -> u128
        ensures { result ≡ row_bytes self.now.rows }
    {
        self.bytes
    }

    /// The row of an id.
    pub(crate) fn get(&self, id: &Id) -> Option<&Row>
        ensures { option_copied result ≡ find (has_id id.now) self.now.rows }
    {
        match self.places.get(id) {
            Some(at) => Some(self.rows.get(*at)),
            None => None,
        }
    }

    /// Copies the rows after those of a vector, in some order.
    pub(crate) fn copy_rows<L: Ledger>(
        &self,
        alloc: Global,
        rows: &mut Vec<Row>,
        steps: &mut Steps<L>,
    ) -> Result<(), AllocError>
        ensures { OnOk result (IsReordering (rows.old.items ++ self.now.rows) rows.new.items) }
    {
        let all = Query {
            ids: None,
            newer: None,
            older: None,
            limit: None,
            offset: 0,
            sort: Sort::Newest,
            full: true,
        };
        let found = walk(alloc, &self.rows, &all, None, steps)?;
        copy_each(alloc, rows, found.as_slice())
    }

    /// Whether no row is of a later time.
    pub(crate) fn is_last(&self, time: Stamp) -> bool
        ensures last { IsTrue result → Each (λ other. other.modified ≤ time) self.now.rows }
        ensures sooner { IsFalse result → Each (λ other. other.modified ≤ time) self.now.rows → ⊥ }
    {
        match self.rows.back() {
            Some(at) => self.rows.get(at).modified.get() <= time.get(),
            None => true,
        }
    }

    /// Makes room for `n` more rows. It alone takes memory. After an error there are the same rows.
    pub(crate) fn reserve(&mut self, n: u32) -> Result<(), AllocError>
        requires { length self.old.rows + n < 2 ^ 32 - 1 }
        ensures rows { self.new.rows ≡ self.old.rows }
        ensures spare { OnOk result (n ≤ self.new.spare) }
        ensures kept { self.old.spare ≤ self.new.spare }
    {
        self.places.reserve(n as usize)?;
        self.rows.reserve(n)
    }

    /// Takes the row of an id out. It takes no memory.
    pub(crate) fn take(&mut self, id: &Id) -> Option<Row>
        ensures value { result ≡ find (has_id id.now) self.old.rows }
        ensures rows { self.new.rows ≡ rows_but_id id.now self.old.rows }
        ensures spare { self.old.spare ≤ self.new.spare }
    {
        match self.places.swap_remove(id) {
            Some(at) => {
                let row = self.rows.remove(at);
                self.bytes -= row.payload.as_str().len() as u128;
                Some(row)
            }
            None => None,
        }
    }

    /// Takes the first row out, where there is one. It takes no memory.
    fn take_front(&mut self)
        ensures rows { self.new.rows ≡ drop 1 self.old.rows }
        ensures spare { self.old.spare ≤ self.new.spare }
    {
        match self.rows.front() {
            Some(at) => {
                let row = self.rows.remove(at);
                self.places.swap_remove(&row.id);
                self.bytes -= row.payload.as_str().len() as u128;
            }
            None => {}
        }
    }

    /// Takes all rows out. It takes no memory.
    pub(crate) fn clear(&mut self)
        ensures rows { self.new.rows ≡ [] }
        ensures spare { self.old.spare ≤ self.new.spare }
    {
        for _ in 0..self.len() {
            self.take_front();
        }
    }

    /// Takes the rows out that have ended by a moment, and gives a moment before which no other ends. It takes no
    /// memory.
    pub(crate) fn sweep(&mut self, moment: Stamp) -> u64
        ensures rows { self.new.rows ≡ filter (is_alive moment) self.old.rows }
        ensures spare { self.old.spare ≤ self.new.spare }
        ensures ends { Each (Outlives result) self.new.rows }
    {
        self.sweep_counting::<Brand>(moment, Blank::new(1))
    }

    fn sweep_counting<L: Ledger>(&mut self, moment: Stamp, blank: Blank) -> u64
        requires name { blank.name ≡ L.name }
        requires parts { blank.parts ≡ L.parts }
        requires some_part { 0 < blank.parts }
        ensures rows { self.new.rows ≡ filter (is_alive moment) self.old.rows }
        ensures spare { self.old.spare ≤ self.new.spare }
        ensures ends { Each (Outlives result) self.new.rows }
    {
        let mut steps = Steps::<L>::new(blank);
        let mut least = u64::MAX;
        let mut at = self.rows.front();
        for _ in 0..self.rows.len() {
            let Some(here) = at else {
                return least;
            };
            at = self.rows.next(here, &mut steps);
            let seen = self.rows.get(here);
            if seen.is_alive(moment) {
                least = least.min(end_of(seen));
                continue;
            }
            let row = self.rows.remove(here);
            self.places.swap_remove(&row.id);
            self.bytes -= row.payload.as_str().len() as u128;
        }
        least
    }

    /// Appends a row whose id isn't there. It takes no memory.
    fn append(&mut self, key: Id, row: Row)
        requires key { key ≡ row.id }
        requires new { find (has_id row.id) self.old.rows ≡ None }
        requires spare { 0 < self.old.spare }
        requires last { Each (λ other. other.modified ≤ row.modified) self.old.rows }
        requires bytes { row_bytes self.old.rows < 2 ^ 127 }
        ensures rows { self.new.rows ≡ self.old.rows ++ row ∷ [] }
        ensures spare { self.old.spare ≤ self.new.spare + 1 }
        ensures size { HasCountablePayload row }
    {
        self.bytes += row.payload.as_str().len() as u128;
        let at = self.rows.push_back(row);
        self.places.insert(key, at).unwrap();
    }

    /// Puts a row in the place of the one of its id, as the last. It takes no memory.
    pub(crate) fn put(&mut self, key: Id, row: Row)
        requires key { key ≡ row.id }
        requires spare { 0 < self.old.spare }
        requires last { Each (λ other. other.modified ≤ row.modified) self.old.rows }
        requires bytes { row_bytes self.old.rows < 2 ^ 127 }
        ensures rows { self.new.rows ≡ rows_but_id row.id self.old.rows ++ row ∷ [] }
        ensures spare { self.old.spare ≤ self.new.spare + 1 }
        ensures size { HasCountablePayload row }
    {
        self.take(&row.id);
        self.append(key, row);
    }

    /// Notes the row of an id, lent, where a query asks for it and the id is not among those before.
    fn pick<'a>(
        &'a self,
        found: &mut Vec<&'a Row>,
        before: &[Id],
        id: &Id,
        query: &Query,
    ) -> Result<(), AllocError>
        ensures { OnOk result (map (λ row. row.now) found.new.items ≡ map (λ row. row.now) found.old.items
            ++ picked_row query.now self.now.rows before.now id.now) }
    {
        if is_named(before, id) {
            return Ok(());
        }
        match self.get(id) {
            Some(row) => note(found, row, query),
            None => Ok(()),
        }
    }

    /// The rows of these ids that a query asks for, lent. It looks at no other row.
    fn named<'a>(
        &'a self,
        alloc: Global,
        ids: &[Id],
        query: &Query,
    ) -> Result<Vec<&'a Row>, AllocError>
        requires { Pairs OtherId self.now.rows }
        ensures { IfOk result (λ found. IsReordering (filter (is_asked query.now)
            (filter (λ row. is_among ids.now row.id) self.now.rows)) (map (λ row. row.now) found.items)) }
    {
        let mut found = Vec::new(alloc);
        for (i, id) in ids.iter().enumerate() {
            self.pick(&mut found, &ids[..i], id, query)?;
        }
        Ok(found)
    }

    /// Rows, lent in some order, over which the answer of a query is the answer over all rows: by ids those alone, and
    /// a page in the order of time takes the rows up to its end. Without `ids` it follows at most one link for each row
    /// above the query's `newer`.
    pub(crate) fn found<'a, L: Ledger>(
        &'a self,
        alloc: Global,
        query: &Query,
        steps: &mut Steps<L>,
    ) -> Result<Vec<&'a Row>, AllocError>
        ensures answer { IfOk result (λ found. answer_of (map (λ row. row.now) found.items) query.now
            ≡ answer self.now.rows query.now) }
        ensures steps { steps.new ≤ steps.old + count_by (is_above query.now.newer) self.now.rows }
    {
        match &query.ids {
            Some(ids) => self.named(alloc, ids.as_slice(), query),
            None => walked(alloc, &self.rows, query, steps),
        }
    }
}
