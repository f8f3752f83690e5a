//! The ids that a request names, each once.

ghost use Rattle.std.specs.Prelude.{◌≡◌, ◌≤◌, ◌++◌, [], List, ℕ, IfOk, OnOk, fold, length, map};
ghost use Rattle.ss_bso.specs.Lists.{Pairs};
ghost use Rattle.ss_bso.specs.declared.changes.RowChange.TheVariants.{Drop as DropChange};
ghost use Rattle.ss_bso.specs.Write.{ids_of, is_among};
ghost use Rattle.ss_writes.specs.Parts.{with_id, with_part_id, OtherText};

use indexmap::IndexSet;
use ss_bso::{Part, RowChange};
use ss_text::{Id, Name};
use std::alloc::{AllocError, Global};
use std::marker::Model;

/// Ids, each once, in the order in which they were named first.
#[derive(Drop)]
pub struct Targets {
    ids: IndexSet<Id>,
}

impl Model for Targets {
    ghost use Rattle.std.specs.Prelude.{List, ℕ};

    ghost Value = { List (List ℕ) };

    ghost view = { λ t. t.ids.keys };
}

impl Targets {
    fn new(alloc: Global) -> Targets
        ensures { result ≡ [] }
    {
        Targets {
            ids: IndexSet::new(alloc),
        }
    }

    /// Names an id.
    fn add(&mut self, alloc: Global, id: &Id) -> Result<(), AllocError>
        ensures { OnOk result (self.new ≡ with_id self.old id.now) }
    {
        self.ids.insert(id.copy(alloc)?)?;
        Ok(())
    }

    /// Names the ids of parts.
    fn add_parts(&mut self, alloc: Global, parts: &[Part]) -> Result<(), AllocError>
        ensures { OnOk result (self.new ≡ fold with_part_id self.old parts.now) }
    {
        for part in parts {
            self.add(alloc, &part.id)?;
        }
        Ok(())
    }

    /// These ids are named.
    pub fn of_ids(alloc: Global, ids: &[Id]) -> Result<Targets, AllocError>
        ensures named { IfOk result (λ targets. (id : List ℕ) → is_among targets id ≡ is_among ids.now id) }
        ensures apart { IfOk result (λ targets. Pairs OtherText targets) }
        ensures few { IfOk result (λ targets. length targets ≤ length ids.now) }
    {
        let mut targets = Targets::new(alloc);
        for id in ids {
            targets.add(alloc, id)?;
        }
        Ok(targets)
    }

    /// The ids that parts name, and then those that further parts name.
    pub fn of_parts(alloc: Global, first: &[Part], more: &[Part]) -> Result<Targets, AllocError>
        ensures ids { IfOk result (λ targets. targets ≡ ids_of (first.now ++ more.now)) }
        ensures apart { IfOk result (λ targets. Pairs OtherText targets) }
    {
        let mut targets = Targets::new(alloc);
        targets.add_parts(alloc, first)?;
        targets.add_parts(alloc, more)?;
        Ok(targets)
    }

    pub(crate) fn as_slice(&self) -> &[Id]
        ensures { result.now ≡ self.now }
    {
        self.ids.as_slice()
    }

    /// The changes that drop the rows of the collection that are named.
    pub(crate) fn drops(
        &self,
        alloc: Global,
        collection: &Name,
    ) -> Result<Vec<RowChange>, AllocError>
        ensures { IfOk result (λ changes. changes.items ≡ map (DropChange collection.now) self.now) }
    {
        let ids = self.ids.as_slice();
        let mut changes = Vec::with_capacity(alloc, ids.len())?;
        for id in ids {
            changes.push(RowChange::Drop {
                collection: collection.copy(alloc)?,
                id: id.copy(alloc)?,
            })?;
        }
        Ok(changes)
    }

    /// The ids as a vector, which are moved.
    pub fn into_vec(self, alloc: Global) -> Result<Vec<Id>, AllocError>
        ensures { IfOk result (λ ids. ids.items ≡ self) }
    {
        self.ids.into_iter().collect(alloc)
    }
}
