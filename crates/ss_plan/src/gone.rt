//! The tombstones that have to be put.

ghost use Rattle.std.specs.Prelude.{◌≡◌, Some, IfOk};
ghost use Rattle.ss_record.specs.Ids.{has};
ghost use Rattle.ss_record.specs.Records.{tombstone_of};
ghost use Rattle.ss_tree.specs.Entries.{tree as tree_of};
ghost use Rattle.ss_tree.specs.Trees.{node_ids};
ghost use Rattle.ss_build.specs.Rows.{is_item};
ghost use Rattle.ss_plan.specs.Plan.{gone, puts};

use crate::records::part;
use ss_bso::Part;
use ss_record::{Reading, write_tombstone};
use ss_text::Id;
use ss_tree::Tree;
use std::alloc::{AllocError, Global};

fn is_item(reading: &Reading) -> bool
    ensures { result ≡ is_item reading.now }
{
    matches!(reading, Reading::Item { .. })
}

/// Whether the tree has an item of this id.
fn is_in(tree: &Tree, id: &Id) -> bool
    ensures { result ≡ has id.now (node_ids (tree_of tree.now)) }
{
    tree.find(id).is_some()
}

/// The ids whose row reads as an item that isn't in the tree, by id.
#[tactic(auto, unfolding(crate::specs::Plan::gone))]
fn gone(alloc: Global, tree: &Tree, readings: &[(Id, Reading)]) -> Result<Vec<Id>, AllocError>
    ensures { IfOk result (λ ids. ids.items ≡ gone (tree_of tree.now) readings.now) }
{
    let mut ids = Vec::new(alloc);
    for (id, reading) in readings {
        if is_item(reading) && !is_in(tree, id) {
            ids.push(id.copy(alloc)?)?;
        }
    }
    ids.sort()?;
    Ok(ids)
}

/// A tombstone for each item that is gone, by id.
#[tactic(auto, unfolding(crate::specs::Plan::puts))]
pub(crate) fn tombstones(
    alloc: Global,
    tree: &Tree,
    readings: &[(Id, Reading)],
) -> Result<Vec<Part>, AllocError>
    ensures { IfOk result (λ parts. parts.items ≡ puts (λ x. Some (tombstone_of x))
        (gone (tree_of tree.now) readings.now)) }
{
    let ids = gone(alloc, tree, readings)?;
    let mut parts = Vec::with_capacity(alloc, ids.len())?;
    for id in &ids {
        parts.push(part(id.copy(alloc)?, write_tombstone(alloc, id)?))?;
    }
    Ok(parts)
}
