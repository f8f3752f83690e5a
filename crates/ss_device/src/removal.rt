//! Taking an item with all below it out of a tree.

ghost use Rattle.std.specs.Prelude.{◌≡◌, ◌==◌, ◌||◌, ℕ, List, Some, None, true, false, is_some, IfOk, OnOk, filter};
ghost use Rattle.std.specs.Prelude.{length, map, option_map, if◌then◌else◌};
ghost use Rattle.ss_record.specs.Ids.{has};
ghost use Rattle.ss_tree.specs.Trees.{node};
ghost use Rattle.ss_tree.specs.Entries.{IsTree, is_below, preorder, tree as tree_of};
ghost use Rattle.ss_device.specs.Edits.{is_fixed, is_within, left_node};
ghost use Rattle.ss_device.specs.Removal.{CanGo};

use ss_text::Id;
use ss_tree::{Node, Tree};
use std::alloc::{AllocError, Global};

/// The nodes of the top and of all below it, in preorder.
fn below(alloc: Global, tree: &Tree, top: Node) -> Result<Vec<Node>, AllocError>
    ensures nodes { IfOk result (λ nodes. nodes.items ≡ filter (λ k. (top == k) || is_below tree.now top k)
        (preorder tree.now (length tree.now) 0)) }
    ensures kept { OnOk result (IsTree tree.now) }
{
    let walk = tree.walk(alloc)?;
    let mut nodes = Vec::new(alloc);
    for node in &walk {
        if top == *node || tree.is_under(*node, top) {
            nodes.push(*node)?;
        }
    }
    Ok(nodes)
}

/// The nodes of an item that is neither `places` nor a root, and of all below it.
pub(crate) fn within(alloc: Global, tree: &Tree, id: &Id) -> Result<Vec<Node>, AllocError>
    requires there { is_some (node id.now (tree_of tree.now)) ≡ true }
    requires loose { is_fixed id.now ≡ false }
    ensures { IfOk result (λ nodes. CanGo tree.now id.now nodes.items) }
{
    let Some(top) = tree.find(id) else {
        unreachable!();
    };
    below(alloc, tree, top)
}

/// The ids of an item and of all below it.
pub(crate) fn ids_of(
    alloc: Global,
    tree: &Tree,
    id: &Id,
    nodes: &[Node],
) -> Result<Vec<Id>, AllocError>
    requires can { CanGo tree.now id.now nodes.now }
    requires there { is_some (node id.now (tree_of tree.now)) ≡ true }
    requires loose { is_fixed id.now ≡ false }
    ensures { IfOk result (λ ids. (y : List ℕ) → has y ids.items ≡ is_within (tree_of tree.now) id.now y) }
{
    let _kept = tree.find(id);
    let mut ids = Vec::with_capacity(alloc, nodes.len())?;
    for node in nodes {
        ids.push(tree.item(*node).id().copy(alloc)?)?;
    }
    Ok(ids)
}

/// Takes an item with all below it out of the tree.
pub(crate) fn remove_all(tree: &mut Tree, id: &Id, nodes: Vec<Node>)
    requires can { CanGo tree.old id.now nodes.items }
    requires there { is_some (node id.now (tree_of tree.old)) ≡ true }
    requires loose { is_fixed id.now ≡ false }
    ensures nodes { (y : List ℕ) → node y (tree_of tree.new) ≡ (if is_within (tree_of tree.old) id.now y then None else
        option_map (left_node id.now) (node y (tree_of tree.old))) }
    ensures kept { IsTree tree.new }
{
    let _there = tree.find(id);
    let mut left = nodes;
    while let Some(node) = left.pop() {
        match tree.remove(node) {
            Ok(_) => {}
            Err(_) => unreachable!(),
        }
    }
    let _kept = tree.find(id);
}
