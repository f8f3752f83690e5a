//! Two trees of bookmarks that were changed apart become one.

use anyhow::bail;
use ss_build::{Built, are_distinct, build};
use ss_merge::{Merged, Origin, merge};
use ss_record::{Sheet, is_root};
use ss_text::{Id, Stamp, Word};
use ss_tree::{Sides, Tree};
use std::alloc::Global;

/// The ids of each side's records.
const IDS: [&str; 3] = ["menu", "f", "a"];

/// What both sides had at their last sync: a folder in the menu, with a bookmark.
const MIRROR: [&str; 3] = [
    r#"{"id":"menu","type":"folder","parentid":"places","children":["f"]}"#,
    r#"{"id":"f","type":"folder","parentid":"menu","children":["a"],"title":"News"}"#,
    r#"{"id":"a","type":"bookmark","parentid":"f","bmkUri":"http://a/","title":"A"}"#,
];

/// One side gave the bookmark another title.
const LOCAL: [&str; 3] = [
    r#"{"id":"menu","type":"folder","parentid":"places","children":["f"]}"#,
    r#"{"id":"f","type":"folder","parentid":"menu","children":["a"],"title":"News"}"#,
    r#"{"id":"a","type":"bookmark","parentid":"f","bmkUri":"http://a/","title":"B"}"#,
];

/// The other side moved it into the menu, and deleted the folder.
const REMOTE: [&str; 3] = [
    r#"{"id":"menu","type":"folder","parentid":"places","children":["a"]}"#,
    r#"{"id":"f","deleted":true}"#,
    r#"{"id":"a","type":"bookmark","parentid":"menu","bmkUri":"http://a/","title":"A"}"#,
];

/// The tree of records of one time (hundredths of a second), with the ids that they tell as deleted.
fn built(alloc: Global, time: u64, payloads: &[&str]) -> anyhow::Result<Built> {
    let mut sheets = Vec::new(alloc);
    for (id, payload) in IDS.iter().zip(payloads.iter()) {
        let Some(id) = Id::new(alloc, id.as_bytes())? else {
            bail!("an id isn't in form");
        };
        sheets.push(Sheet {
            id,
            modified: Stamp::clamp(time),
            payload: Word::new(String::from_str(alloc, payload)?),
        })?;
    }
    if !are_distinct(alloc, &sheets)? {
        bail!("an id stands twice");
    }
    Ok(build(alloc, &sheets)?)
}

/// An item of a tree, with its folder and the side of its content.
fn item_line(alloc: Global, tree: &Tree, id: &Id, side: Origin) -> anyhow::Result<String> {
    let Some(node) = tree.find(id) else {
        bail!("no such item");
    };
    let Some(folder) = tree.parent(node) else {
        bail!("an item without a folder");
    };
    let folder = tree.item(folder).id().as_str();
    let content = tree.item(node).content().as_str();
    Ok(format!(in alloc; "{side:?} {} in {folder}: {content}", id.as_str())?)
}

/// Tells each item of what comes of two trees, but for the roots.
fn item_lines(alloc: Global, merged: &Merged) -> anyhow::Result<Vec<String>> {
    let mut lines = Vec::new(alloc);
    for (id, side) in &merged.from {
        if !is_root(id) {
            lines.push(item_line(alloc, &merged.tree, id, *side)?)?;
        }
    }
    Ok(lines)
}

/// Merges the trees, and tells each item of what comes of them, but for the roots.
pub fn merged(alloc: Global) -> anyhow::Result<Vec<String>> {
    let mirror = built(alloc, 100, &MIRROR)?;
    let local = built(alloc, 500, &LOCAL)?;
    let remote = built(alloc, 400, &REMOTE)?;
    let sides = Sides {
        mirror: &mirror.tree,
        local: &local.tree,
        remote: &remote.tree,
        local_dead: &local.dead,
        remote_dead: &remote.dead,
    };
    let merged = merge(alloc, &sides)?;
    item_lines(alloc, &merged)
}
