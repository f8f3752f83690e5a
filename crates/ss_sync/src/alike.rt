//! Trees that are the same but for their times.

ghost use Rattle.std.specs.Prelude.{◌≡◌, true, option_map, IfOk, IsTrue};
ghost use Rattle.std.specs.List.{All};
ghost use Rattle.ss_build.specs.Stand.{without_time};
ghost use Rattle.ss_tree.specs.Entries.{IsTree, above, id_at, is_live, tree as tree_of};
ghost use Rattle.ss_sync.specs.Equal.{IsUntimed, ids_at, placed_at};

use ss_record::Item;
use ss_text::Id;
use ss_tree::{Node, Tree};
use std::alloc::{AllocError, Global};

/// The id at a node.
fn id_at(tree: &Tree, node: Node) -> &Id
    requires { IsTrue (is_live node tree.now) }
    ensures { result.now ≡ id_at tree.now node }
{
    tree.item(node).id()
}

/// Whether two items have one id, kind and content.
fn is_same_item(item: &Item, other: &Item) -> bool
    ensures { result ≡ true → item.now ≡ other.now }
{
    item.id() == other.id() && item.kind() == other.kind() && item.content() == other.content()
}

/// Whether nodes stand under one id, or both under none.
fn is_same_parent(tree: &Tree, node: Node, other: &Tree, at: Node) -> bool
    ensures { result ≡ true → option_map (id_at tree.now) (above tree.now node) ≡ option_map (id_at other.now) (above
        other.now at) }
{
    match (tree.parent(node), other.parent(at)) {
        (Some(parent), Some(above)) => id_at(tree, parent) == id_at(other, above),
        (None, None) => true,
        _ => false,
    }
}

/// Whether nodes have the ids of other ones, in order.
fn are_same_ids(tree: &Tree, nodes: &[Node], other: &Tree, others: &[Node]) -> bool
    requires nodes { All (λ k. is_live k tree.now ≡ true) nodes.now }
    requires others { All (λ k. is_live k other.now ≡ true) others.now }
    ensures { result ≡ true → ids_at tree.now nodes.now ≡ ids_at other.now others.now }
{
    if nodes.len() != others.len() {
        return false;
    }
    for (i, node) in nodes.iter().enumerate() {
        if id_at(tree, *node) != id_at(other, others[i]) {
            return false;
        }
    }
    true
}

/// Whether a node's item has time 0, and is in its place the item of another tree's node.
fn is_untimed_at(
    alloc: Global,
    tree: &Tree,
    node: Node,
    other: &Tree,
    at: Node,
) -> Result<bool, AllocError>
    requires tree { IsTree tree.now }
    requires other { IsTree other.now }
    requires node { IsTrue (is_live node tree.now) }
    requires at { IsTrue (is_live at other.now) }
    ensures { IfOk result (λ same. same ≡ true → placed_at tree.now node ≡ option_map without_time (placed_at other.now
        at)) }
{
    if tree.time(node).get() != 0
        || !is_same_item(tree.item(node), other.item(at))
        || !is_same_parent(tree, node, other, at)
    {
        return Ok(false);
    }
    let nodes = tree.children(alloc, node)?;
    let others = other.children(alloc, at)?;
    Ok(are_same_ids(tree, &nodes, other, &others))
}

/// Whether a tree is another one, with all its times 0.
pub(crate) fn is_untimed(alloc: Global, tree: &Tree, other: &Tree) -> Result<bool, AllocError>
    ensures { IfOk result (λ same. same ≡ true → IsUntimed (tree_of tree.now) (tree_of other.now)) }
{
    let nodes = tree.walk(alloc)?;
    let others = other.walk(alloc)?;
    if nodes.len() != others.len() {
        return Ok(false);
    }
    for (i, node) in nodes.iter().enumerate() {
        if !is_untimed_at(alloc, tree, *node, other, others[i])? {
            return Ok(false);
        }
    }
    Ok(true)
}
