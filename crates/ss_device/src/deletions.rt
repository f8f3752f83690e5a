//! What a deletion takes out of a device.

ghost use Rattle.std.specs.Prelude.{◌≡◌, ◌⊎◌, ℕ, List, Some, None, IfErr, IfOk, MatchResult, if◌then◌else◌};
ghost use Rattle.std.specs.BTreeMap.{IsOrdered, get};
ghost use Rattle.ss_text.specs.Texts.{text_cmp};
ghost use Rattle.ss_tree.specs.Trees.{IsSame};
ghost use Rattle.ss_tree.specs.Entries.{tree as tree_of};
ghost use Rattle.ss_device.specs.Edits.{change_fault, tree_after_delete, is_within};
ghost use Rattle.ss_device.specs.Removal.{IsDeletableItem};
ghost use Rattle.ss_device.specs.declared.faults.EditFault.TheVariants.{Memory};

use crate::burials::buried;
use crate::faults::EditFault;
use crate::grafts::{change_fault, content_of, touch};
use crate::removal::{ids_of, remove_all, within};
use crate::tree_edits::parent_of;
use ss_text::{Id, Stamp, Word};
use ss_tree::{Node, Tree};
use std::alloc::{AllocError, Global};
use std::collections::BTreeMap;

/// The nodes of an item and of all below it; its folder, with the folder's content.
#[derive(Drop)]
pub(crate) struct Doomed {
    pub(crate) nodes: Vec<Node>,
    pub(crate) from: Id,
    pub(crate) content: Word,
}

/// What goes with an item that is deleted.
pub(crate) fn sentence(alloc: Global, tree: &Tree, id: &Id) -> Result<Doomed, EditFault>
    ensures refused { MatchResult result (λ _. change_fault (tree_of tree.now) id.now ≡ None) (λ e. (e ≡ Memory)
        ⊎ (change_fault (tree_of tree.now) id.now ≡ Some e)) }
    ensures wanting { IfErr result (λ e. e ≡ Memory → change_fault (tree_of tree.now) id.now ≡ None) }
    ensures doomed { IfOk result (λ d. IsDeletableItem tree.now id.now d.nodes.items d.from d.content) }
{
    if let Some(fault) = change_fault(tree, id) {
        return Err(fault);
    }
    let nodes = within(alloc, tree, id)?;
    let from = parent_of(alloc, tree, id)?;
    let content = content_of(alloc, tree, &from)?;
    Ok(Doomed {
        nodes,
        from,
        content,
    })
}

/// The deleted ids with those of an item and of all below it.
pub(crate) fn with_doomed(
    alloc: Global,
    tree: &Tree,
    id: &Id,
    doomed: &Doomed,
    time: Stamp,
    older: &BTreeMap<Id, Stamp>,
) -> Result<BTreeMap<Id, Stamp>, AllocError>
    requires { IsDeletableItem tree.now id.now doomed.now.nodes.items doomed.now.from doomed.now.content }
    ensures told { IfOk result (λ m. (y : List ℕ) → get text_cmp m y ≡
        (if is_within (tree_of tree.now) id.now y then Some time else get text_cmp older.now y)) }
    ensures ordered { IfOk result (λ m. IsOrdered text_cmp m) }
{
    let ids = ids_of(alloc, tree, id, &doomed.nodes)?;
    buried(alloc, &ids, time, older)
}

/// Takes an item with all below it out of the tree; its folder has another time.
pub(crate) fn take_out(tree: &mut Tree, id: &Id, doomed: Doomed, time: Stamp)
    requires { IsDeletableItem tree.old id.now doomed.nodes.items doomed.from doomed.content }
    ensures { IsSame (tree_of tree.new) (tree_after_delete time id.now (tree_of tree.old)) }
{
    let Doomed {
        nodes,
        from,
        content,
    } = doomed;
    remove_all(tree, id, nodes);
    touch(tree, &from, content, time);
}
