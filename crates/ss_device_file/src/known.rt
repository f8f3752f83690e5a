//! Items of the mirror that a device has lost.

ghost use Rattle.std.specs.Prelude.{◌≡◌, ◌||◌, IfOk, find, option_map};
ghost use Rattle.ss_record.specs.Ids.{has};
ghost use Rattle.ss_tree.specs.Trees.{node_ids};
ghost use Rattle.ss_tree.specs.Entries.{tree as tree_of};
ghost use Rattle.ss_device.specs.Device.{AreById, dead_ids, row_ids};
ghost use Rattle.ss_device_file.specs.Joining.{HasRoots, loses, lost_of};

use crate::items::is_item;
use ss_record::{Sheet, read_record};
use ss_text::{Id, Stamp};
use ss_tree::Tree;
use std::alloc::{AllocError, Global};
use std::collections::BTreeMap;

/// Whether an id is in a tree.
fn is_there(tree: &Tree, id: &Id) -> bool
    ensures { result ≡ has id.now (node_ids (tree_of tree.now)) }
{
    tree.find(id).is_some()
}

/// Whether an id was deleted.
fn is_dead(dead: &BTreeMap<Id, Stamp>, id: &Id) -> bool
    ensures { result ≡ has id.now (dead_ids dead.now.entries) }
{
    dead.contains_key(id)
}

/// Whether an id is in a tree or was deleted.
fn is_known(tree: &Tree, dead: &BTreeMap<Id, Stamp>, id: &Id) -> bool
    ensures { result ≡ (has id.now (node_ids (tree_of tree.now)) || has id.now (dead_ids dead.now.entries)) }
{
    is_there(tree, id) || is_dead(dead, id)
}

/// Whether a row reads as an item that is neither in the tree nor among the deleted. It is read only where its id is in
/// neither.
#[tactic(auto, unfolding(crate::specs::Joining::loses))]
fn is_lost(
    alloc: Global,
    tree: &Tree,
    dead: &BTreeMap<Id, Stamp>,
    row: &Sheet,
) -> Result<bool, AllocError>
    ensures { IfOk result (λ lost. lost ≡ loses (tree_of tree.now) dead.now.entries row.now) }
{
    if is_known(tree, dead, &row.id) {
        return Ok(false);
    }
    Ok(is_item(&read_record(alloc, row)?))
}

/// The first of the rows whose item is lost.
fn first_lost(
    alloc: Global,
    tree: &Tree,
    dead: &BTreeMap<Id, Stamp>,
    rows: &[Sheet],
) -> Result<Option<Id>, AllocError>
    ensures { IfOk result (λ id. id ≡ option_map (λ r. r.id) (find (loses (tree_of tree.now) dead.now.entries)
        rows.now)) }
{
    for row in rows {
        if is_lost(alloc, tree, dead, row)? {
            return Ok(Some(row.id.copy(alloc)?));
        }
    }
    Ok(None)
}

/// The first of the mirror's items that is neither in the tree nor among the deleted.
pub(crate) fn lost(
    alloc: Global,
    tree: &Tree,
    dead: &BTreeMap<Id, Stamp>,
    mirror: &[Sheet],
) -> Result<Option<Id>, AllocError>
    requires by_id { AreById (row_ids mirror.now) }
    requires roots { HasRoots (tree_of tree.now) }
    ensures { IfOk result (λ id. id ≡ lost_of mirror.now (tree_of tree.now) dead.now.entries) }
{
    let id = first_lost(alloc, tree, dead, mirror)?;
    Ok(id)
}
