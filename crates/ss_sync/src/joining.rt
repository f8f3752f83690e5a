//! What a merge makes of a device's tree and of fetched rows.

ghost use Rattle.std.specs.Prelude.{◌≡◌, ◌↔◌, IsTrue, IfOk, OnOk};
ghost use Rattle.ss_record.specs.Ids.{Apart};
ghost use Rattle.ss_tree.specs.Entries.{IsTree, tree as by_ids};
ghost use Rattle.ss_tree.specs.Trees.{IsValidTree};
ghost use Rattle.ss_build.specs.Rows.{readings, rows_of};
ghost use Rattle.ss_sync.specs.Rows.{ids_of};
ghost use Rattle.ss_sync.specs.Joined.{IsJoinedTree, counting};
ghost use Rattle.ss_sync.specs.Equal.{IsMergeOf};

use crate::alike::is_untimed;
use ss_build::{Built, build};
use ss_merge::merge;
use ss_record::Sheet;
use ss_text::{Id, Ids};
use ss_tree::{Sides, Tree};
use std::alloc::{AllocError, Global};

/// A merged tree, and what was built of the rows.
#[derive(Drop, Debug)]
pub struct Joined {
    pub tree: Tree,
    pub remote: Built,
}

/// The rows of the mirror that count: where no row was fetched, none.
fn counting<'a>(mirror: &'a [Sheet], rows: &[Sheet]) -> &'a [Sheet]
    ensures { result.now ≡ counting mirror.entry.now rows.now }
{
    if rows.is_empty() {
        &mirror[..0]
    } else {
        mirror
    }
}

/// Whether a row is the other one.
fn is_same(sheet: &Sheet, other: &Sheet) -> bool
    ensures { IsTrue result ↔ (sheet.now ≡ other.now) }
{
    sheet.id == other.id && sheet.modified == other.modified && sheet.payload == other.payload
}

/// Whether rows are the others, in order.
fn are_same(sheets: &[Sheet], others: &[Sheet]) -> bool
    ensures { IsTrue result ↔ (sheets.now ≡ others.now) }
{
    if sheets.len() != others.len() {
        return false;
    }
    for (i, sheet) in sheets.iter().enumerate() {
        if !is_same(sheet, &others[i]) {
            return false;
        }
    }
    true
}

/// Looks `places` up: the entries are a tree, as those of every `Tree` are.
#[tactic(auto, unfolding(ss_record::specs::Ids::places))]
fn find_places(alloc: Global, tree: &Tree) -> Result<(), AllocError>
    ensures { OnOk result (IsTree tree.now) }
{
    let Some(places) = Id::new(alloc, b"places")? else {
        unreachable!();
    };
    let _top = tree.find(&places);
    Ok(())
}

/// The tree that merging makes of a mirror, a device's tree and a tree that was built of rows.
fn merged(
    alloc: Global,
    mirror: &Tree,
    local: &Tree,
    local_dead: &Ids,
    remote: &Built,
) -> Result<Tree, AllocError>
    ensures { IfOk result (IsMergeOf (by_ids mirror.now) (by_ids local.now) (by_ids remote.now.tree) local_dead.now
        remote.now.dead) }
{
    let sides = Sides {
        mirror,
        local,
        remote: &remote.tree,
        local_dead,
        remote_dead: &remote.dead,
    };
    let merged = merge(alloc, &sides)?;
    find_places(alloc, &merged.tree)?;
    Ok(merged.tree)
}

/// The same where the tree of the rows is the mirror too: a device's tree that is that tree is left by merging.
fn merged_alone(
    alloc: Global,
    local: &Tree,
    local_dead: &Ids,
    remote: &Built,
) -> Result<Tree, AllocError>
    requires { IsValidTree (by_ids remote.now.tree) }
    ensures { IfOk result (IsMergeOf (by_ids remote.now.tree) (by_ids local.now) (by_ids remote.now.tree) local_dead.now
        remote.now.dead) }
{
    if is_untimed(alloc, local, &remote.tree)? {
        find_places(alloc, local)?;
        return local.copy(alloc);
    }
    merged(alloc, &remote.tree, local, local_dead, remote)
}

/// Merges a device's tree with the tree of fetched rows, both against the tree of the mirror.
pub fn join(
    alloc: Global,
    mirror: &[Sheet],
    local: &Tree,
    local_dead: &Ids,
    rows: &[Sheet],
) -> Result<Joined, AllocError>
    requires mirror { Apart (ids_of mirror.now) }
    requires rows { Apart (ids_of rows.now) }
    ensures joined { IfOk result (λ j. IsJoinedTree mirror.now local.now local_dead.now rows.now j.tree) }
    ensures readings { IfOk result (λ j. j.remote.readings.items ≡ readings (rows_of rows.now)) }
{
    let remote = build(alloc, rows)?;
    let counted = counting(mirror, rows);
    let tree = if are_same(counted, rows) {
        // (nothing came: one tree is that of both)
        merged_alone(alloc, local, local_dead, &remote)?
    } else {
        let before = build(alloc, counted)?;
        merged(alloc, &before.tree, local, local_dead, &remote)?
    };
    Ok(Joined { tree, remote })
}
