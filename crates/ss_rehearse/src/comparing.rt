//! Whether two trees are equal.

ghost use Rattle.std.specs.Prelude.{◌≡◌, Some, true, IfOk, option_map};
ghost use Rattle.ss_record.specs.Kinds.{same_kind};
ghost use Rattle.ss_tree.specs.Entries.{is_live};
ghost use Rattle.ss_rehearse.specs.Summaries.{id_above, same_id, same_item, same_place, same_trees};

use ss_record::{Item, Kind};
use ss_text::Id;
use ss_tree::{Node, Tree};
use std::alloc::{AllocError, Global};

fn same_kind(a: Kind, b: Kind) -> bool
    ensures { result ≡ same_kind a b }
{
    a == b
}

fn same_item(a: &Item, b: &Item) -> bool
    ensures { result ≡ same_item (Some a.now) (Some b.now) }
{
    a.id() == b.id() && same_kind(a.kind(), b.kind()) && a.content() == b.content()
}

/// The id of the item above a node.
fn id_above(tree: &Tree, node: Node) -> Option<&Id>
    ensures { option_map (λ id. id.now) result ≡ id_above tree.now node }
{
    match tree.parent(node) {
        Some(above) => Some(tree.item(above).id()),
        None => None,
    }
}

fn same_id(a: Option<&Id>, b: Option<&Id>) -> bool
    ensures { result ≡ same_id (option_map (λ id. id.now) a.entry) (option_map (λ id. id.now) b.entry) }
{
    match (a, b) {
        (Some(a), Some(b)) => a == b,
        (None, None) => true,
        _ => false,
    }
}

/// Whether the items of two nodes are the same, under the same one.
#[tactic(auto, unfolding(crate::specs::Summaries::same_place))]
fn same_place(first: &Tree, one: Node, second: &Tree, other: Node) -> bool
    requires one { is_live one first.now ≡ true }
    requires other { is_live other second.now ≡ true }
    ensures { result ≡ same_place first.now second.now one other }
{
    same_item(first.item(one), second.item(other))
        && same_id(id_above(first, one), id_above(second, other))
}

/// Whether two trees are equal but for times.
#[tactic(auto, unfolding(crate::specs::Summaries::same_trees))]
pub(crate) fn same_trees(alloc: Global, first: &Tree, second: &Tree) -> Result<bool, AllocError>
    ensures { IfOk result (λ same. same ≡ same_trees first.now second.now) }
{
    let ones = first.walk(alloc)?;
    let others = second.walk(alloc)?;
    if ones.len() != others.len() {
        return Ok(false);
    }
    for at in 0..ones.len() {
        if !same_place(first, ones[at], second, others[at]) {
            return Ok(false);
        }
    }
    Ok(true)
}
