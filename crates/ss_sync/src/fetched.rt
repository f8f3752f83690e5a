//! The rows of a fetch, with distinct ids.

ghost use Rattle.std.specs.Prelude.{◌≡◌, ◌∷◌, ◌++◌, ℕ, List, true, not, IfOk, OnOk, if◌then◌else◌, bytes_eq};
ghost use Rattle.indexmap.specs.IndexSet.{contains};
ghost use Rattle.ss_record.specs.Ids.{has, Apart};
ghost use Rattle.ss_sync.specs.Rows.{ids_of};
ghost use Rattle.ss_sync.specs.Fetched.{are_known};

use indexmap::IndexSet;
use ss_record::Sheet;
use ss_seed::Seed;
use ss_text::{Id, Ids};
use std::alloc::{AllocError, Global};
use std::marker::Model;

/// Rows in the order in which they were fetched; no id stands twice.
#[derive(Drop)]
pub struct Fetched {
    rows: Vec<Sheet>,
    ids: IndexSet<Id, Seed>,
}

impl Model for Fetched {
    ghost use Rattle.std.specs.Prelude.{List, ◌≡◌, true};
    ghost use Rattle.ss_record.specs.declared.readings.Sheet.{Sheet};
    ghost use Rattle.ss_sync.specs.Rows.{ids_of};
    ghost use Rattle.ss_sync.specs.Fetched.{are_apart};

    ghost Value = { List Sheet };

    ghost view = { λ f. f.rows.items };

    ghost invariant = { λ f. (f.ids.keys ≡ ids_of f.rows.items) × (are_apart (ids_of f.rows.items) ≡ true) };
}

impl Fetched {
    ghost use Rattle.std.specs.Prelude.{[]};
    ghost use Rattle.ss_sync.specs.Fetched.{are_apart, kept};

    pub fn new(alloc: Global) -> Fetched
        ensures { result ≡ [] }
    {
        Fetched {
            rows: Vec::new(alloc),
            ids: IndexSet::with_hasher(alloc, Seed::random()),
        }
    }

    pub fn as_slice(&self) -> &[Sheet]
        ensures rows { result.now ≡ self.now }
        ensures apart { are_apart (ids_of self.now) ≡ true }
    {
        self.rows.as_slice()
    }

    /// The rows as a vector, which are moved.
    pub fn into_vec(self) -> Vec<Sheet>
        ensures { result.items ≡ self }
    {
        self.rows
    }

    /// Whether a row with this id was fetched.
    pub fn has(&self, id: &Id) -> bool
        ensures { result ≡ has id.now (ids_of self.now) }
    {
        self.ids.contains(id)
    }

    /// Adds a row with a new id; false where there is one with this id.
    fn insert(&mut self, alloc: Global, sheet: Sheet) -> Result<bool, AllocError>
        ensures fresh { IfOk result (λ fresh. fresh ≡ not (has sheet.id (ids_of self.old))) }
        ensures added { IfOk result (λ fresh. self.new ≡ (if fresh then self.old ++ sheet ∷ [] else self.old)) }
        ensures apart { OnOk result (are_apart (ids_of self.new) ≡ true) }
    {
        self.rows.reserve(1)?;
        let fresh = self.ids.insert(sheet.id.copy(alloc)?)?;
        if fresh {
            self.rows.push_reserved(sheet);
        }
        Ok(fresh)
    }

    /// Adds the rows of a page; false where an id stands twice among these rows and those before.
    pub fn add(&mut self, alloc: Global, rows: Vec<Sheet>) -> Result<bool, AllocError>
        ensures apart { IfOk result (λ fit. fit ≡ are_apart (ids_of (self.old ++ rows.items))) }
        ensures added { IfOk result (λ fit. fit ≡ true → self.new ≡ self.old ++ rows.items) }
    {
        self.rows.reserve(rows.len())?;
        for sheet in rows {
            if !self.insert(alloc, sheet)? {
                return Ok(false);
            }
        }
        Ok(true)
    }

    /// Adds each row of a mirror whose id is listed and that wasn't fetched. The mirror has distinct ids.
    pub fn keep(&mut self, alloc: Global, mirror: &[Sheet], ids: &Ids) -> Result<(), AllocError>
        requires { Apart (ids_of mirror.now) }
        ensures { OnOk result (self.new ≡ self.old ++ kept self.old ids.now mirror.now) }
    {
        let listed = set_of(alloc, ids)?;
        for sheet in mirror {
            if listed.contains(&sheet.id) {
                self.insert(alloc, sheet.copy(alloc)?)?;
            }
        }
        Ok(())
    }
}

fn set_of(alloc: Global, ids: &Ids) -> Result<IndexSet<Id, Seed>, AllocError>
    ensures { IfOk result (λ set. (x : List ℕ) → contains bytes_eq set x ≡ has x ids.now) }
{
    let mut set = IndexSet::with_capacity_and_hasher(alloc, ids.as_slice().len(), Seed::random())?;
    for id in ids.as_slice() {
        set.insert(id.copy(alloc)?)?;
    }
    Ok(set)
}

fn ids_of(alloc: Global, sheets: &[Sheet]) -> Result<IndexSet<Id, Seed>, AllocError>
    ensures { IfOk result (λ set. (x : List ℕ) → contains bytes_eq set x ≡ has x (ids_of sheets.now)) }
{
    let mut set = IndexSet::with_capacity_and_hasher(alloc, sheets.len(), Seed::random())?;
    for sheet in sheets {
        set.insert(sheet.id.copy(alloc)?)?;
    }
    Ok(set)
}

/// Whether each of these ids is that of a fetched row or of a row of the mirror.
#[tactic(auto, unfolding(crate::specs::Fetched::are_known))]
pub fn are_known(
    alloc: Global,
    rows: &Fetched,
    mirror: &[Sheet],
    ids: &Ids,
) -> Result<bool, AllocError>
    ensures { IfOk result (λ known. known ≡ are_known rows.now mirror.now ids.now) }
{
    let mirrored = ids_of(alloc, mirror)?;
    for id in ids.as_slice() {
        if !rows.has(id) && !mirrored.contains(id) {
            return Ok(false);
        }
    }
    Ok(true)
}
