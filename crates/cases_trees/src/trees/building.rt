//! Trees that are built from rows.

use crate::trees::changes::count;
use crate::trees::desk::Desk;
use crate::trees::listing::ids_text;
use crate::trees::notation::tree_text;
use ss_build::{Built, are_distinct, build};
use ss_record::Sheet;
use std::alloc::{AllocError, Global};

/// What is built of rows, where their ids are distinct.
pub fn built(alloc: Global, rows: &[Sheet]) -> anyhow::Result<Option<Built>> {
    if !are_distinct(alloc, rows)? {
        return Ok(None);
    }
    Ok(Some(build(alloc, rows)?))
}

/// The tree that was built, and the ids that are told as deleted, not understood, and repaired.
fn built_text(alloc: Global, built: &Built) -> Result<String, AllocError> {
    let tree = tree_text(alloc, &built.tree)?;
    let dead = ids_text(alloc, "dead", &built.dead)?;
    let skipped = ids_text(alloc, "skipped", &built.skipped)?;
    let repaired = ids_text(alloc, "repaired", &built.repaired)?;
    format!(in alloc; "{tree} | {dead} | {skipped} | {repaired}")
}

/// Takes over what was built, and tells it; its tree is then the case's.
fn take_built(alloc: Global, desk: &mut Desk, built: &Built) -> anyhow::Result<String> {
    let text = built_text(alloc, built)?;
    desk.tree = built.tree.copy(alloc)?;
    Ok(text)
}

/// Builds the rows; the tree is then the case's.
pub fn build_rows(alloc: Global, desk: &mut Desk) -> anyhow::Result<String> {
    let Some(built) = built(alloc, &desk.rows)? else {
        return Ok(String::from_str(alloc, "an id twice")?);
    };
    let text = take_built(alloc, desk, &built);
    drop(desk.built.replace(built));
    text
}

/// Builds the rows as the remote tree.
pub fn build_remote(alloc: Global, desk: &mut Desk) -> anyhow::Result<String> {
    let Some(built) = built(alloc, &desk.rows)? else {
        return Ok(String::from_str(alloc, "an id twice")?);
    };
    desk.remote = built.tree;
    count(alloc, &desk.remote)
}
