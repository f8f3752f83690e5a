//! Edits of a device.

ghost use Rattle.std.specs.Prelude.{◌≡◌, ◌⊎◌, Some, None, IfErr, OnOk, OnErr, MatchResult};
ghost use Rattle.ss_tree.specs.Entries.{tree as tree_of};
ghost use Rattle.ss_device.specs.Edits.{AddsItem, DeletesItem, MovesItem, RenamesItem, add_fault, change_fault};
ghost use Rattle.ss_device.specs.Edits.{move_fault};
ghost use Rattle.ss_device.specs.declared.faults.EditFault.TheVariants.{Memory};

use crate::deletions::{sentence, take_out, with_doomed};
use crate::device::Device;
use crate::faults::EditFault;
use crate::tree_edits::{add_to, move_in, rename_in};
use ss_record::Item;
use ss_text::{Id, Stamp};
use std::alloc::Global;

impl Device {
    /// Puts a new item last under a folder, at this reading of the clock in hundredths of a second. The item and the
    /// folder have that time, at most the last stamp, and the id isn't among the deleted any more.
    pub fn add(&mut self, alloc: Global, now: u64, parent: &Id, item: Item) -> Result<(), EditFault>
        ensures refused { MatchResult result (λ _. add_fault (tree_of self.old.tree) parent.now item.id
            ≡ None) (λ e. (e ≡ Memory) ⊎ (add_fault (tree_of self.old.tree) parent.now item.id ≡ Some e)) }
        ensures added { OnOk result (AddsItem now parent.now item self.old self.new) }
        ensures unchanged { OnErr result (self.new ≡ self.old) }
    {
        let id = item.id().copy(alloc)?;
        add_to(alloc, &mut self.tree, Stamp::clamp(now), parent, item)?;
        self.dead.remove(&id);
        Ok(())
    }

    /// Gives an item another title, and the time of this reading of the clock. That the item isn't there, or is a root,
    /// is told before any memory is taken.
    pub fn rename(&mut self, alloc: Global, now: u64, id: &Id, title: &str) -> Result<(), EditFault>
        ensures refused { MatchResult result (λ _. change_fault (tree_of self.old.tree) id.now
            ≡ None) (λ e. (e ≡ Memory) ⊎ (change_fault (tree_of self.old.tree) id.now ≡ Some e)) }
        ensures wanting { IfErr result (λ e. e ≡ Memory → change_fault (tree_of self.old.tree) id.now ≡ None) }
        ensures renamed { OnOk result (RenamesItem now id.now title.now self.old self.new) }
        ensures unchanged { OnErr result (self.new ≡ self.old) }
    {
        rename_in(alloc, &mut self.tree, Stamp::clamp(now), id, title)?;
        Ok(())
    }

    /// Moves an item, with all below it, to the end of a folder. It and both folders have the time of this reading.
    /// That the item isn't there, or is a root, is told before any memory is taken.
    pub fn move_to(
        &mut self,
        alloc: Global,
        now: u64,
        id: &Id,
        parent: &Id,
    ) -> Result<(), EditFault>
        ensures refused { MatchResult result (λ _. move_fault (tree_of self.old.tree) id.now parent.now
            ≡ None) (λ e. (e ≡ Memory) ⊎ (move_fault (tree_of self.old.tree) id.now parent.now ≡ Some e)) }
        ensures wanting { IfErr result (λ e. e ≡ Memory → change_fault (tree_of self.old.tree) id.now ≡ None) }
        ensures moved { OnOk result (MovesItem now id.now parent.now self.old self.new) }
        ensures unchanged { OnErr result (self.new ≡ self.old) }
    {
        move_in(alloc, &mut self.tree, Stamp::clamp(now), id, parent)?;
        Ok(())
    }

    /// Deletes an item with all below it: each id is then among the deleted, with the time of this reading, which its
    /// folder has too. That the item isn't there, or is a root, is told before any memory is taken.
    pub fn delete(&mut self, alloc: Global, now: u64, id: &Id) -> Result<(), EditFault>
        ensures refused { MatchResult result (λ _. change_fault (tree_of self.old.tree) id.now
            ≡ None) (λ e. (e ≡ Memory) ⊎ (change_fault (tree_of self.old.tree) id.now ≡ Some e)) }
        ensures wanting { IfErr result (λ e. e ≡ Memory → change_fault (tree_of self.old.tree) id.now ≡ None) }
        ensures deleted { OnOk result (DeletesItem now id.now self.old self.new) }
        ensures unchanged { OnErr result (self.new ≡ self.old) }
    {
        let doomed = sentence(alloc, &self.tree, id)?;
        let time = Stamp::clamp(now);
        let dead = with_doomed(alloc, &self.tree, id, &doomed, time, &self.dead)?;
        take_out(&mut self.tree, id, doomed, time);
        self.dead = dead;
        Ok(())
    }
}
