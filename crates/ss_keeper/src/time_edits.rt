//! What the changes of commits come to for the times of collections, so that they are made in one pass over the
//! collections.

ghost use Rattle.std.specs.Prelude.{◌≡◌, ◌&&◌, ◌||◌, ◌++◌, not, true, ℕ, List, [], IfOk, OnOk, filter, reverse};
ghost use Rattle.ss_keeper.specs.Together.{is_named, is_set, is_time_spared, last_times, leaves_time, sets};
ghost use Rattle.ss_keeper.specs.Together.{spared_times, spares_time, with_time};

use crate::names::{has_name, note_drops};
use ss_bso::{Changes, CollectionChange};
use ss_text::{Name, Stamp};
use std::alloc::{AllocError, Global};
use std::collections::HashSet;

/// Notes the collection that a change sets.
fn note_set<'a>(
    names: &mut HashSet<&'a Name>,
    change: &'a CollectionChange,
) -> Result<(), AllocError>
    ensures { OnOk result ((name : List ℕ) → is_named names.new name ≡
        (sets name change.now || is_named names.old name)) }
{
    if let CollectionChange::Set { name, .. } = change {
        let _added = names.insert(name)?;
    }
    Ok(())
}

/// What commits come to for collections: which are dropped, which are set, and their times in the end. They are
/// gathered from the last commit to the first, and the times stand in that order.
#[derive(Drop)]
pub(crate) struct TimeEdits<'a> {
    dropped: HashSet<&'a Name>,
    set: HashSet<&'a Name>,
    pub(crate) times: Vec<(Name, Stamp)>,
}

impl<'a> TimeEdits<'a> {
    fn none(alloc: Global) -> TimeEdits<'a>
        ensures leaves { (name : List ℕ) → leaves_time result name ≡ true }
        ensures times { result.times.items ≡ [] }
    {
        TimeEdits {
            dropped: HashSet::new(alloc),
            set: HashSet::new(alloc),
            times: Vec::new(alloc),
        }
    }

    /// Whether a collection's time stays as it is.
    pub(crate) fn leaves(&self, name: &Name) -> bool
        ensures { result ≡ leaves_time self.now name.now }
    {
        !has_name(&self.dropped, name) && !has_name(&self.set, name)
    }

    /// Takes a copy of the time that is set, unless it goes again.
    fn push_time(&mut self, alloc: Global, change: &CollectionChange) -> Result<(), AllocError>
        ensures times { OnOk result (reverse self.new.times.items ≡ with_time (leaves_time self.old) change.now
            (reverse self.old.times.items)) }
        ensures same { OnOk result ((name : List ℕ) → leaves_time self.new name ≡ leaves_time self.old name) }
    {
        match change {
            CollectionChange::Set { name, time } if self.leaves(name) => {
                self.times.push((name.copy(alloc)?, *time))?;
            }
            CollectionChange::Set { .. } | CollectionChange::Drop { .. } => (),
        }
        Ok(())
    }

    /// Gathers a change before those that were gathered.
    fn add_change(&mut self, alloc: Global, change: &'a CollectionChange) -> Result<(), AllocError>
        ensures times { OnOk result (reverse self.new.times.items ≡ with_time (leaves_time self.old) change.now
            (reverse self.old.times.items)) }
        ensures leaves { OnOk result ((name : List ℕ) → leaves_time self.new name
            ≡ (not (sets name change.now) && leaves_time self.old name)) }
    {
        self.push_time(alloc, change)?;
        note_set(&mut self.set, change)?;
        Ok(())
    }

    /// Gathers the times that a commit sets before those that were gathered.
    fn add_changes(
        &mut self,
        alloc: Global,
        changes: &'a [CollectionChange],
    ) -> Result<(), AllocError>
        ensures times { OnOk result (reverse self.new.times.items ≡ filter (λ entry. leaves_time self.old entry.0)
            (last_times changes.now) ++ reverse self.old.times.items) }
        ensures leaves { OnOk result ((name : List ℕ) → leaves_time self.new name
            ≡ (not (is_set changes.now name) && leaves_time self.old name)) }
    {
        let mut at = changes.len();
        'changes: while at > 0 {
            at -= 1;
            self.add_change(alloc, &changes[at])?;
        }
        Ok(())
    }

    /// Gathers a commit before those that were gathered.
    fn add(&mut self, alloc: Global, commit: &'a Changes) -> Result<(), AllocError>
        ensures times { OnOk result (reverse self.new.times.items ≡ filter (λ entry. leaves_time self.old entry.0)
            (last_times commit.now.collections) ++ reverse self.old.times.items) }
        ensures leaves { OnOk result ((name : List ℕ) → leaves_time self.new name
            ≡ (spares_time commit.now name && leaves_time self.old name)) }
    {
        self.add_changes(alloc, commit.collections.as_slice())?;
        note_drops(&mut self.dropped, commit.collections.as_slice())?;
        Ok(())
    }

    /// What commits come to, each made after the one before it.
    pub(crate) fn of(alloc: Global, commits: &'a [Changes]) -> Result<TimeEdits<'a>, AllocError>
        ensures leaves { IfOk result (λ edits. (name : List ℕ) → leaves_time edits name
            ≡ is_time_spared commits.now name) }
        ensures times { IfOk result (λ edits. edits.times.items ≡ spared_times commits.now) }
    {
        let mut edits = TimeEdits::none(alloc);
        let mut at = commits.len();
        'commits: while at > 0 {
            at -= 1;
            edits.add(alloc, &commits[at])?;
        }
        edits.times.reverse();
        Ok(edits)
    }
}
