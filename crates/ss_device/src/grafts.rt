//! Changes of a tree that name items by their ids.

ghost use Rattle.std.specs.Prelude.{◌≡◌, ◌⊎◌, ◌++◌, ◌∷◌, [], ℕ, List, Some, None, true, false, not, is_some, IfOk};
ghost use Rattle.std.specs.Prelude.{OnOk, OnErr, MatchResult, MatchOption, option_map, bytes_eq, if◌then◌else◌};
ghost use Rattle.ss_record.specs.Ids.{places};
ghost use Rattle.ss_record.specs.Items.{is_fit};
ghost use Rattle.ss_tree.specs.Trees.{PlacedItem, node};
ghost use Rattle.ss_tree.specs.Entries.{IsTree, tree as tree_of};
ghost use Rattle.ss_device.specs.Edits.{add_fault, change_fault, is_fixed, left_node, lacks_item, move_fault};
ghost use Rattle.ss_tree.specs.Trees.{item_of};
ghost use Rattle.ss_device.specs.Edits.{moved_only, new_node, revised_node, item_at_time, with_child};
ghost use Rattle.ss_device.specs.Refusals.{edit_of_move, edit_of_tree};
ghost use Rattle.ss_tree.specs.declared.faults.TreeFault.TheVariants.{BadPlace};
ghost use Rattle.ss_tree.specs.declared.faults.MoveFault.TheVariants.{BadPlace as NoPlace};
ghost use Rattle.ss_device.specs.declared.faults.EditFault.TheVariants.{Memory};

use crate::faults::EditFault;
use ss_record::{Item, is_places, is_root};
use ss_text::{Id, Stamp, Word};
use ss_tree::{MoveFault, Node, Tree, TreeFault};
use std::alloc::{AllocError, Global};

/// The content of an item that is there.
pub(crate) fn content_of(alloc: Global, tree: &Tree, id: &Id) -> Result<Word, AllocError>
    requires { is_some (node id.now (tree_of tree.now)) ≡ true }
    ensures content { IfOk result (λ content. (n : PlacedItem) → node id.now (tree_of tree.now) ≡ Some n
        → n.content ≡ content) }
    ensures fit { (n : PlacedItem) → node id.now (tree_of tree.now) ≡ Some n → is_fit (item_of n) ≡ true }
{
    let Some(at) = tree.find(id) else {
        unreachable!();
    };
    tree.item(at).content().copy(alloc)
}

/// Gives an item another content, with which it is fit, and another time.
pub fn revise(tree: &mut Tree, id: &Id, content: Word, time: Stamp)
    requires there { is_some (node id.now (tree_of tree.old)) ≡ true }
    requires inner { bytes_eq id.now places ≡ false }
    requires fit { (n : PlacedItem) → node id.now (tree_of tree.old) ≡ Some n
        → is_fit (record { id = n.id; kind = n.kind; content = content }) ≡ true }
    ensures nodes { (y : List ℕ) → node y (tree_of tree.new) ≡ option_map
        (λ n. if bytes_eq n.id id.now then revised_node content time n else n) (node y (tree_of tree.old)) }
    ensures kept { IsTree tree.new }
{
    let Some(at) = tree.find(id) else {
        unreachable!();
    };
    tree.set_item(at, content, time);
    let _kept = tree.find(id);
}

/// Gives an item another time; its content is this one.
pub(crate) fn touch(tree: &mut Tree, id: &Id, content: Word, time: Stamp)
    requires there { is_some (node id.now (tree_of tree.old)) ≡ true }
    requires inner { bytes_eq id.now places ≡ false }
    requires content { (n : PlacedItem) → node id.now (tree_of tree.old) ≡ Some n → n.content ≡ content }
    requires fit { (n : PlacedItem) → node id.now (tree_of tree.old) ≡ Some n → is_fit (item_of n) ≡ true }
    ensures nodes { (y : List ℕ) → node y (tree_of tree.new) ≡ option_map (item_at_time id.now time)
        (node y (tree_of tree.old)) }
    ensures kept { IsTree tree.new }
{
    revise(tree, id, content, time);
}

/// Whether an item can't be renamed, moved or deleted: it is `places` or a root.
pub(crate) fn is_fixed(id: &Id) -> bool
    ensures { result ≡ is_fixed id.now }
{
    is_places(id) || is_root(id)
}

/// Why an item isn't renamed or deleted.
#[tactic(auto, unfolding(crate::specs::Edits::change_fault))]
pub(crate) fn change_fault(tree: &Tree, id: &Id) -> Option<EditFault>
    ensures { result ≡ change_fault (tree_of tree.now) id.now }
{
    if tree.find(id).is_none() {
        return Some(EditFault::NoItem);
    }
    if is_fixed(id) {
        return Some(EditFault::Root);
    }
    None
}

/// Why an item isn't put last under a folder.
fn not_inserted(fault: TreeFault) -> EditFault
    requires { fault ≡ BadPlace → ⊥ }
    ensures { result ≡ edit_of_tree fault }
{
    match fault {
        TreeFault::NotFolder => EditFault::NotFolder,
        TreeFault::Twice => EditFault::Twice,
        TreeFault::BadPlace => unreachable!(),
        TreeFault::Memory => EditFault::Memory,
    }
}

/// Puts an item last under a folder.
pub fn insert(
    alloc: Global,
    tree: &mut Tree,
    parent: &Id,
    item: Item,
    time: Stamp,
) -> Result<(), EditFault>
    ensures refused { MatchResult result (λ _. add_fault (tree_of tree.old) parent.now item.id
        ≡ None) (λ e. (e ≡ Memory) ⊎ (add_fault (tree_of tree.old) parent.now item.id ≡ Some e)) }
    ensures nodes { OnOk result ((y : List ℕ) → node y (tree_of tree.new)
        ≡ (if bytes_eq y item.id then Some (new_node time parent.now item) else option_map
        (λ n. if bytes_eq n.id parent.now then with_child item.id n else n) (node y (tree_of tree.old)))) }
    ensures unchanged { OnErr result (tree.new ≡ tree.old) }
    ensures kept { IsTree tree.new }
{
    let Some(at) = tree.find(parent) else {
        return Err(EditFault::NoItem);
    };
    let inserted = tree.insert(alloc, at, None, item, time);
    let _kept = tree.find(parent);
    match inserted {
        Ok(_) => Ok(()),
        Err(fault) => Err(not_inserted(fault)),
    }
}

/// Why an item isn't moved last under a folder.
fn not_moved(fault: MoveFault) -> EditFault
    requires { fault ≡ NoPlace → ⊥ }
    ensures { result ≡ edit_of_move fault }
{
    match fault {
        MoveFault::Root => EditFault::Root,
        MoveFault::NotFolder => EditFault::NotFolder,
        MoveFault::Under => EditFault::Under,
        MoveFault::BadPlace => unreachable!(),
    }
}

/// Moves an item to the end of a folder.
pub(crate) fn relocate(tree: &mut Tree, id: &Id, parent: &Id) -> Result<(), EditFault>
    ensures refused { MatchResult result (λ _. move_fault (tree_of tree.old) id.now parent.now
        ≡ None) (λ e. move_fault (tree_of tree.old) id.now parent.now ≡ Some e) }
    ensures nodes { OnOk result ((y : List ℕ) → node y (tree_of tree.new)
        ≡ option_map (moved_only id.now parent.now) (node y (tree_of tree.old))) }
    ensures unchanged { OnErr result (tree.new ≡ tree.old) }
    ensures kept { IsTree tree.new }
{
    let Some(node) = tree.find(id) else {
        return Err(EditFault::NoItem);
    };
    let Some(at) = tree.find(parent) else {
        return Err(EditFault::NoItem);
    };
    let moved = tree.move_to(node, at, None);
    let _kept = tree.find(parent);
    match moved {
        Ok(()) => Ok(()),
        Err(fault) => Err(not_moved(fault)),
    }
}
