//! Edits of a tree: what a device's edits make of it.

ghost use Rattle.std.specs.Prelude.{◌≡◌, ◌⊎◌, ℕ, List, Some, None, true, false, is_some, IfErr, IfOk, OnOk, OnErr};
ghost use Rattle.std.specs.Prelude.{MatchResult, bytes_eq};
ghost use Rattle.ss_record.specs.Ids.{places};
ghost use Rattle.ss_record.specs.Items.{is_fit};
ghost use Rattle.ss_tree.specs.Trees.{IsSame, IsValidTree, PlacedItem, node, parent_in};
ghost use Rattle.ss_tree.specs.Entries.{tree as tree_of};
ghost use Rattle.ss_device.specs.Edits.{add_fault, tree_after_add, change_fault, is_fixed, is_within, move_fault};
ghost use Rattle.ss_device.specs.Edits.{tree_after_move, tree_after_rename, titled};
ghost use Rattle.ss_device.specs.declared.faults.EditFault.TheVariants.{Memory};

use crate::faults::EditFault;
use crate::grafts::{change_fault, content_of, insert, relocate, revise, touch};
use crate::titles::titled;
use ss_record::Item;
use ss_text::{Id, Stamp, Word};
use ss_tree::Tree;
use std::alloc::{AllocError, Global};

/// Puts a new item last under a folder, which has the item's time then.
pub(crate) fn add_to(
    alloc: Global,
    tree: &mut Tree,
    time: Stamp,
    parent: &Id,
    item: Item,
) -> Result<(), EditFault>
    ensures refused { MatchResult result (λ _. add_fault (tree_of tree.old) parent.now item.id
        ≡ None) (λ e. (e ≡ Memory) ⊎ (add_fault (tree_of tree.old) parent.now item.id ≡ Some e)) }
    ensures same { OnOk result (IsSame (tree_of tree.new) (tree_after_add time parent.now item (tree_of tree.old))) }
    ensures unchanged { OnErr result (tree.new ≡ tree.old) }
{
    if tree.find(parent).is_none() {
        return Err(EditFault::NoItem);
    }
    let content = content_of(alloc, tree, parent)?;
    insert(alloc, tree, parent, item, time)?;
    touch(tree, parent, content, time);
    Ok(())
}

/// The content of an item that is there, and isn't `places`, with another title.
fn titled_at(alloc: Global, tree: &Tree, id: &Id, title: &str) -> Result<Word, AllocError>
    requires there { is_some (node id.now (tree_of tree.now)) ≡ true }
    requires inner { bytes_eq id.now places ≡ false }
    ensures content { IfOk result (λ content. (n : PlacedItem) → node id.now (tree_of tree.now) ≡ Some n
        → titled title.now n.content ≡ content) }
    ensures fit { (n : PlacedItem) → node id.now (tree_of tree.now) ≡ Some n
        → is_fit (record { id = n.id; kind = n.kind; content = titled title.now n.content }) ≡ true }
{
    let Some(at) = tree.find(id) else {
        unreachable!();
    };
    titled(alloc, tree.item(at), title)
}

/// Gives an item another title.
pub(crate) fn rename_in(
    alloc: Global,
    tree: &mut Tree,
    time: Stamp,
    id: &Id,
    title: &str,
) -> Result<(), EditFault>
    ensures refused { MatchResult result (λ _. change_fault (tree_of tree.old) id.now ≡ None) (λ e. (e ≡ Memory)
        ⊎ (change_fault (tree_of tree.old) id.now ≡ Some e)) }
    ensures wanting { IfErr result (λ e. e ≡ Memory → change_fault (tree_of tree.old) id.now ≡ None) }
    ensures same { OnOk result (IsSame (tree_of tree.new) (tree_after_rename time id.now title.now (tree_of tree.old))) }
    ensures unchanged { OnErr result (tree.new ≡ tree.old) }
{
    if let Some(fault) = change_fault(tree, id) {
        return Err(fault);
    }
    let content = titled_at(alloc, tree, id, title)?;
    revise(tree, id, content, time);
    Ok(())
}

/// The id of the folder of an item that is there, and is neither `places` nor a root.
pub(crate) fn parent_of(alloc: Global, tree: &Tree, id: &Id) -> Result<Id, AllocError>
    requires there { is_some (node id.now (tree_of tree.now)) ≡ true }
    requires loose { is_fixed id.now ≡ false }
    ensures id { IfOk result (λ parent. parent ≡ parent_in (tree_of tree.now) id.now) }
    ensures there { is_some (node (parent_in (tree_of tree.now) id.now) (tree_of tree.now)) ≡ true }
    ensures inner { bytes_eq (parent_in (tree_of tree.now) id.now) places ≡ false }
    ensures outside { is_within (tree_of tree.now) id.now (parent_in (tree_of tree.now) id.now) ≡ false }
    ensures valid { IsValidTree (tree_of tree.now) }
{
    let Some(at) = tree.find(id) else {
        unreachable!();
    };
    let Some(above) = tree.parent(at) else {
        unreachable!();
    };
    tree.item(above).id().copy(alloc)
}

/// Moves an item to the end of a folder; it and both folders have another time then.
pub(crate) fn move_in(
    alloc: Global,
    tree: &mut Tree,
    time: Stamp,
    id: &Id,
    parent: &Id,
) -> Result<(), EditFault>
    ensures refused { MatchResult result (λ _. move_fault (tree_of tree.old) id.now parent.now
        ≡ None) (λ e. (e ≡ Memory) ⊎ (move_fault (tree_of tree.old) id.now parent.now ≡ Some e)) }
    ensures wanting { IfErr result (λ e. e ≡ Memory → change_fault (tree_of tree.old) id.now ≡ None) }
    ensures same { OnOk result (IsSame (tree_of tree.new) (tree_after_move time id.now parent.now (tree_of tree.old))) }
    ensures unchanged { OnErr result (tree.new ≡ tree.old) }
{
    if tree.find(parent).is_none() {
        return Err(EditFault::NoItem);
    }
    if let Some(fault) = change_fault(tree, id) {
        return Err(fault);
    }
    let from = parent_of(alloc, tree, id)?;
    let own = content_of(alloc, tree, id)?;
    let left = content_of(alloc, tree, &from)?;
    let taken = content_of(alloc, tree, parent)?;
    relocate(tree, id, parent)?;
    touch(tree, id, own, time);
    touch(tree, &from, left, time);
    touch(tree, parent, taken, time);
    Ok(())
}
