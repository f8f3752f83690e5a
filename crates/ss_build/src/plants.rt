//! The entries of the tree.

ghost use Rattle.std.specs.Prelude.{◌≡◌, ◌≤◌, ◌<◌, ◌+◌, ◌^◌, ◌++◌, ◌∷◌, ℕ, Some, IfOk, get_or, length, map};
ghost use Rattle.ss_tree.specs.Entries.{top_entry};
ghost use Rattle.ss_build.specs.Planted.{entries, node_at, planted_entry};

use crate::claims::Claim;
use ss_record::Item;
use ss_text::{Id, Stamp};
use ss_tree::{Entry, Node};
use std::alloc::{AllocError, Global};

/// The entry of `places`.
#[tactic(auto, unfolding(ss_record::specs::Ids::places))]
fn top(alloc: Global) -> Result<Entry, AllocError>
    ensures { IfOk result (λ e. e ≡ top_entry) }
{
    let Some(id) = Id::new(alloc, b"places")? else {
        unreachable!();
    };
    Ok(Entry {
        node: Node::new(0),
        parent: None,
        item: Item::empty_folder(alloc, id)?,
        time: Stamp::clamp(0),
    })
}

/// The node of a parent's place: that of `places` at the number of items.
fn node_at(place: usize, count: usize) -> Node
    ensures { result ≡ node_at count place }
{
    if place < count {
        Node::new(place + 1)
    } else {
        Node::new(0)
    }
}

/// The entry of the item at a place.
fn plant(alloc: Global, claims: &[Claim], parents: &[usize], at: usize) -> Result<Entry, AllocError>
    requires inside { at < length claims.now }
    requires same_length { length parents.now ≡ length claims.now }
    ensures { IfOk result (λ e. e ≡ planted_entry claims.now parents.now at) }
{
    let claim = &claims[at];
    Ok(Entry {
        node: Node::new(at + 1),
        parent: Some(node_at(parents[at], claims.len())),
        item: claim.item.copy(alloc)?,
        time: claim.time,
    })
}

/// The entries of the items in this order, under that of `places`.
pub(crate) fn entries_of(
    alloc: Global,
    claims: &[Claim],
    parents: &[usize],
    order: &[usize],
) -> Result<Vec<Entry>, AllocError>
    requires bounded { (k : ℕ) → k < length order.now → get_or order.now k 0 < length claims.now }
    requires same_length { length parents.now ≡ length claims.now }
    ensures { IfOk result (λ found. found.items ≡ entries claims.now parents.now order.now) }
{
    let mut entries = Vec::new(alloc);
    entries.push(top(alloc)?)?;
    for at in order {
        entries.push(plant(alloc, claims, parents, *at)?)?;
    }
    Ok(entries)
}
