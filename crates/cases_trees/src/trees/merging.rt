//! Duplicates and merges.

use crate::trees::changes::find;
use crate::trees::listing::{ids_text, listed, pairs_text};
use crate::trees::notation::tree_text;
use ss_dupe::pair_dupes;
use ss_merge::{Merged, Origin, merge};
use ss_record::is_root;
use ss_text::Id;
use ss_tree::Sides;
use std::alloc::{AllocError, Global};

/// The duplicate pairs of the sides.
pub fn pair(alloc: Global, sides: &Sides) -> anyhow::Result<String> {
    let pairs = pair_dupes(alloc, sides)?;
    Ok(pairs_text(alloc, "renamed", &pairs)?)
}

/// The name of a side.
pub fn side_name(origin: Origin) -> &'static str {
    match origin {
        Origin::Local => "local",
        Origin::Remote => "remote",
        Origin::Same => "same",
    }
}

/// The items of a merged tree but the roots, each with the side of its content.
fn from_text(alloc: Global, from: &[(Id, Origin)]) -> Result<String, AllocError> {
    let mut texts = Vec::new(alloc);
    for (id, origin) in from {
        if !is_root(id) {
            texts.push(format!(in alloc; "{} {}", id.as_str(), side_name(*origin))?)?;
        }
    }
    listed(alloc, "from", &texts)
}

/// The merged tree, the sides of contents, what is gone, and what was renamed.
fn merged_text(alloc: Global, merged: &Merged) -> Result<String, AllocError> {
    let tree = tree_text(alloc, &merged.tree)?;
    let from = from_text(alloc, &merged.from)?;
    let gone = ids_text(alloc, "gone", &merged.gone)?;
    let renamed = pairs_text(alloc, "renamed", &merged.renamed)?;
    format!(in alloc; "{tree} | {from} | {gone} | {renamed}")
}

/// Merges the sides.
pub fn merge_sides(alloc: Global, sides: &Sides) -> anyhow::Result<String> {
    let merged = merge(alloc, sides)?;
    let text = merged_text(alloc, &merged);
    drop(merged);
    Ok(text?)
}

/// How many items a merge has, and how many of them stand in `unfiled`.
fn counted(alloc: Global, merged: &Merged) -> anyhow::Result<String> {
    let unfiled = find(alloc, &merged.tree, "unfiled")?;
    let below = merged.tree.children(alloc, unfiled)?;
    Ok(format!(in alloc;
        "{} items, {} in unfiled, {} gone, {} renamed",
        merged.from.len(),
        below.len(),
        merged.gone.as_slice().len(),
        merged.renamed.len()
    )?)
}

/// Merges the sides, and tells how many items there are then.
pub fn count_merged(alloc: Global, sides: &Sides) -> anyhow::Result<String> {
    let merged = merge(alloc, sides)?;
    let counted = counted(alloc, &merged);
    drop(merged);
    counted
}
