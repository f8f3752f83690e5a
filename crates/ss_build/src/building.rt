//! Building a tree from rows.

ghost use Rattle.std.specs.Prelude.{◌≡◌, ◌≤◌, ◌<◌, ℕ, List, IfOk, filter, get_or, length, map, not, take};
ghost use Rattle.ss_record.specs.Ids.{Apart, by_id};
ghost use Rattle.ss_tree.specs.Entries.{tree};
ghost use Rattle.ss_tree.specs.Trees.{IsSame, IsValidTree, PlacedItem};
ghost use Rattle.ss_build.specs.Built.{built, ids, is_kept, repaired, tree_of};
ghost use Rattle.ss_build.specs.Places.{AreItems, in_order, names, parents_of};
ghost use Rattle.ss_build.specs.Rows.{dead, readings, rows_of, skipped};
ghost use Rattle.ss_build.specs.Stand.{IsSameUntimed, StandFor};

use crate::claims::{Claim, add_roots, claims_of};
use crate::parents::parents_of;
use crate::places::{ids_of, place, word_of};
use crate::plants::entries_of;
use crate::repairs::repaired;
use crate::rows::{dead, read_rows, readings, skipped};
use crate::siblings::siblings_of;
use ss_record::{Reading, Sheet};
use ss_text::{Id, Ids};
use ss_tree::Tree;
use std::alloc::{AllocError, Global};

/// A tree that was built from rows.
#[derive(Drop, Debug)]
pub struct Built {
    pub tree: Tree,
    /// What each row says of its id, in the order of the rows.
    pub readings: Vec<(Id, Reading)>,
    /// The ids that are told as deleted, by id.
    pub dead: Ids,
    /// The ids of which nothing is understood, by id.
    pub skipped: Ids,
    /// The items that were read and have another parent, or other children, than their records say, by id.
    pub repaired: Ids,
}

/// The tree of some items, and those of the first ones that stand elsewhere than their records say.
#[derive(Drop, Debug)]
struct Grown {
    tree: Tree,
    repaired: Ids,
}

/// The tree of items with these parents, in this order.
fn plant(
    alloc: Global,
    claims: &[Claim],
    parents: &[usize],
    order: &[usize],
) -> Result<Tree, AllocError>
    requires items { AreItems claims.now }
    requires parents { parents.now ≡ parents_of claims.now }
    requires order { names (ids claims.now) order.now ≡ in_order claims.now }
    requires bounded { (k : ℕ) → k < length order.now → get_or order.now k 0 < length claims.now }
    ensures same { IfOk result (λ t. IsSame (tree t) (tree_of claims.now)) }
    ensures valid { IfOk result (λ t. IsValidTree (tree t)) }
{
    let entries = entries_of(alloc, claims, parents, order)?;
    let tree = Tree::from_entries(alloc, entries)?;
    Ok(tree)
}

/// The tree of some items, and which of the first `count` are repaired.
fn grow(alloc: Global, claims: &[Claim], count: usize) -> Result<Grown, AllocError>
    requires items { AreItems claims.now }
    requires inside { count ≤ length claims.now }
    ensures same { IfOk result (λ g. IsSame (tree g.tree) (tree_of claims.now)) }
    ensures valid { IfOk result (λ g. IsValidTree (tree g.tree)) }
    ensures repaired { IfOk result (λ g. g.repaired ≡ by_id (map (λ e. e.item.id) (filter (λ e. not (is_kept claims.now e)) (take count claims.now)))) }
{
    let places = ids_of(alloc, claims)?;
    let unfiled = word_of(alloc, "unfiled")?;
    let fallback = place(&places, &unfiled);
    let parents = parents_of(alloc, claims, &places, fallback)?;
    let siblings = siblings_of(alloc, claims, &places, &parents)?;
    let tree = plant(alloc, claims, &parents, &siblings.order)?;
    let repaired = repaired(alloc, claims, &parents, &siblings.as_told, count)?;
    Ok(Grown { tree, repaired })
}

/// Builds the tree of items that claim their places: distinct ids with all roots, which are folders, and without
/// `places`.
pub fn build_claims(alloc: Global, claims: &[Claim]) -> Result<Tree, AllocError>
    requires items { AreItems claims.now }
    ensures same { IfOk result (λ t. IsSame (tree t) (tree_of claims.now)) }
    ensures valid { IfOk result (λ t. IsValidTree (tree t)) }
{
    let grown = grow(alloc, claims, 0)?;
    Ok(grown.tree)
}

/// Builds the tree of rows with distinct ids, however damaged they are (the rules are this project's, over the records
/// of Firefox's bookmarks).
pub fn build(alloc: Global, sheets: &[Sheet]) -> Result<Built, AllocError>
    requires distinct { Apart (map (λ s. s.id) sheets.now) }
    ensures tree { IfOk result (λ b. IsSame (tree b.tree) (built (rows_of sheets.now))) }
    ensures valid { IfOk result (λ b. IsValidTree (tree b.tree)) }
    ensures back { IfOk result (λ b. (t : List PlacedItem) → IsValidTree t → StandFor t (rows_of sheets.now) → IsSameUntimed (tree b.tree) t) }
    ensures readings { IfOk result (λ b. b.readings.items ≡ readings (rows_of sheets.now)) }
    ensures dead { IfOk result (λ b. b.dead ≡ dead (rows_of sheets.now)) }
    ensures skipped { IfOk result (λ b. b.skipped ≡ skipped (rows_of sheets.now)) }
    ensures repaired { IfOk result (λ b. b.repaired ≡ repaired (rows_of sheets.now)) }
{
    let rows = read_rows(alloc, sheets)?;
    let read = claims_of(alloc, &rows)?;
    let count = read.len();
    let claims = add_roots(alloc, read)?;
    let grown = grow(alloc, &claims, count)?;
    let deleted = dead(alloc, &rows)?;
    let unread = skipped(alloc, &rows)?;
    let told = readings(alloc, rows)?;
    Ok(Built {
        tree: grown.tree,
        readings: told,
        dead: deleted,
        skipped: unread,
        repaired: grown.repaired,
    })
}
