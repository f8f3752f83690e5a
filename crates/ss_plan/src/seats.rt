//! Items in their places, read out of a tree.

ghost use Rattle.std.specs.Prelude.{◌≡◌, Some, true, IfOk, option_map, option_and_then};
ghost use Rattle.ss_tree.specs.Entries.{IsTree, above, entry, is_live, kid_ids, placed};
ghost use Rattle.ss_plan.specs.Seats.{placed_at};

use ss_record::Item;
use ss_text::{Id, Stamp};
use ss_tree::{Node, Tree};
use std::alloc::{AllocError, Global};

/// An item with the ids of its parent and of its children, and its time in hundredths of a second.
#[derive(Drop)]
pub(crate) struct Seat<'a> {
    pub(crate) item: &'a Item,
    pub(crate) parent: Option<Id>,
    pub(crate) children: Vec<Id>,
    pub(crate) time: Stamp,
}

/// The ids under a node, in their order.
fn children_of(alloc: Global, tree: &Tree, node: Node) -> Result<Vec<Id>, AllocError>
    requires { IsTree tree.now }
    ensures { IfOk result (λ ids. ids.items ≡ kid_ids node tree.now) }
{
    let children = tree.children(alloc, node)?;
    let mut ids = Vec::with_capacity(alloc, children.len())?;
    for child in &children {
        ids.push(tree.item(*child).id().copy(alloc)?)?;
    }
    Ok(ids)
}

/// The id of the node above.
fn parent_of(alloc: Global, tree: &Tree, node: Node) -> Result<Option<Id>, AllocError>
    ensures { IfOk result (λ id. id ≡ option_and_then (λ p. option_map (λ f. f.item.id) (entry p tree.now))
        (above tree.now node)) }
{
    match tree.parent(node) {
        Some(parent) => Ok(Some(tree.item(parent).id().copy(alloc)?)),
        None => Ok(None),
    }
}

/// The item of a node, in its place.
pub(crate) fn seat_of<'a>(alloc: Global, tree: &'a Tree, node: Node) -> Result<Seat<'a>, AllocError>
    requires live { is_live node tree.now ≡ true }
    requires kept { IsTree tree.now }
    ensures { IfOk result (λ s. option_map (placed tree.now) (entry node tree.now) ≡ Some (placed_at s)) }
{
    let item = tree.item(node);
    Ok(Seat {
        item,
        parent: parent_of(alloc, tree, node)?,
        children: children_of(alloc, tree, node)?,
        time: tree.time(node),
    })
}
