//! The tree of items that have their places.

ghost use Rattle.std.specs.Prelude.{◌≡◌, ℕ, List, IfOk, OnOk};
ghost use Rattle.ss_tree.specs.Trees.{IsSame, node};
ghost use Rattle.ss_tree.specs.Entries.{tree as tree_of};
ghost use Rattle.ss_device_file.specs.Growing.{MayCome, come_to};
ghost use Rattle.ss_device_file.specs.Places.{AreItemLines, IsWhole, tree_of as tree_told};

use crate::lines::ItemLine;
use ss_device::{insert, revise};
use ss_record::is_places;
use ss_tree::Tree;
use std::alloc::{AllocError, Global};

/// Puts an item in its place: a root, which is there, has its content and time, another item is last under its parent.
fn put(alloc: Global, tree: &mut Tree, line: &ItemLine) -> Result<(), AllocError>
    requires { MayCome (tree_of tree.old) line.now }
    ensures { OnOk result ((y : List ℕ) → node y (tree_of tree.new) ≡ come_to line.now y (node y (tree_of tree.old))) }
{
    if is_places(&line.parent) {
        let content = line.item.content().copy(alloc)?;
        revise(tree, line.item.id(), content, line.time);
        return Ok(());
    }
    match insert(alloc, tree, &line.parent, line.item.copy(alloc)?, line.time) {
        Ok(()) => Ok(()),
        Err(_) => Err(AllocError),
    }
}

/// The tree of items in form that have their places.
pub(crate) fn plant(alloc: Global, items: &[ItemLine]) -> Result<Tree, AllocError>
    requires whole { IsWhole items.now }
    requires form { AreItemLines items.now }
    ensures { IfOk result (λ tree. IsSame (tree_of tree) (tree_told items.now)) }
{
    let mut tree = Tree::new(alloc)?;
    for line in items {
        put(alloc, &mut tree, line)?;
    }
    Ok(tree)
}
