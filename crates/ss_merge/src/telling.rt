//! What is told beside the merged tree.

ghost use Rattle.std.specs.Prelude.{◌≡◌, ◌&&◌, ◌||◌, not, map, IfOk};
ghost use Rattle.ss_record.specs.Ids.{Apart, has};
ghost use Rattle.ss_tree.specs.Entries.{tree as by_ids};
ghost use Rattle.ss_tree.specs.Trees.{node_ids};
ghost use Rattle.ss_dupe.specs.Looks.{Id as Text, is_in, is_places};
ghost use Rattle.ss_dupe.specs.Plains.{view};
ghost use Rattle.ss_merge.specs.Survivors.{same_content, survives, taken};
ghost use Rattle.ss_merge.specs.Merged.{gone_of, origin_of, origins, walk_ids};

use crate::merging::Origin;
use crate::parts::Part;
use crate::survivors::{survives, taken};
use ss_dupe::{Plains, Side};
use ss_record::is_places;
use ss_text::{Id, Ids};
use ss_tree::Tree;
use std::alloc::{AllocError, Global};

/// Whether an item is remote and doesn't survive.
#[tactic(auto, unfolding(ss_dupe::specs::Looks::is_places))]
fn is_gone(plains: &Plains, id: &Id) -> bool
    ensures { result ≡ (is_in (view plains.now).remote id.now && not (is_places id.now || survives (view plains.now)
        id.now)) }
{
    plains.remote.has(id) && !(is_places(id) || survives(plains, id))
}

/// The remote items that don't survive.
#[tactic(auto, unfolding(crate::specs::Merged::gone_of))]
pub(crate) fn gone_of(alloc: Global, plains: &Plains, ids: &[Id]) -> Result<Ids, AllocError>
    ensures { IfOk result (λ gone. gone ≡ gone_of (view plains.now) ids.now) }
{
    let mut gone = Vec::new(alloc);
    for id in ids {
        if is_gone(plains, id) {
            gone.push(id.copy(alloc)?)?;
        }
    }
    Ok(Ids::new(gone))
}

/// The side of an item's content.
fn origin_of(plains: &Plains, id: &Id) -> Origin
    ensures { result ≡ origin_of (taken (view plains.now) same_content id.now) }
{
    match taken(plains, Part::Content, id) {
        Some(Side::Local) => Origin::Local,
        Some(Side::Remote) => Origin::Remote,
        None => Origin::Same,
    }
}

/// The ids of a tree but `places`, in preorder.
#[tactic(auto, unfolding(crate::specs::Merged::walk_ids, ss_dupe::specs::Looks::is_places))]
fn walk_ids(alloc: Global, tree: &Tree) -> Result<Vec<Id>, AllocError>
    ensures ids { IfOk result (λ ids. ids.items ≡ walk_ids tree.now) }
    ensures once { IfOk result (λ ids. Apart ids.items) }
    ensures all { IfOk result (λ ids. (x : Text) → has x ids.items ≡ (has x (node_ids (by_ids tree.now)) && not
        (is_places x))) }
{
    let nodes = tree.walk(alloc)?;
    let mut ids = Vec::with_capacity(alloc, nodes.len())?;
    for node in &nodes {
        let id = tree.item(*node).id();
        if !is_places(id) {
            ids.push(id.copy(alloc)?)?;
        }
    }
    Ok(ids)
}

/// Of each item but `places` of a tree, in preorder, the side of its content.
#[tactic(auto, unfolding(crate::specs::Merged::origins))]
pub(crate) fn origins(
    alloc: Global,
    plains: &Plains,
    tree: &Tree,
) -> Result<Vec<(Id, Origin)>, AllocError>
    ensures from { IfOk result (λ from. from.items ≡ origins (view plains.now) tree.now) }
    ensures once { IfOk result (λ from. Apart (map (λ p. p.0) from.items)) }
    ensures all { IfOk result (λ from. (x : Text) → has x (map (λ p. p.0) from.items)
        ≡ (has x (node_ids (by_ids tree.now)) && not (is_places x))) }
{
    let ids = walk_ids(alloc, tree)?;
    let mut from = Vec::with_capacity(alloc, ids.len())?;
    for id in &ids {
        from.push((id.copy(alloc)?, origin_of(plains, id)))?;
    }
    Ok(from)
}
