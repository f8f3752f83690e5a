//! A tree under insertions, moves and removals, and what is told of it.

ghost use Rattle.std.specs.Prelude.{◌≡◌, true, IfOk};
ghost use Rattle.std.specs.List.{All};
ghost use Rattle.ss_tree.specs.Entries.{is_live};

use crate::trees::notation::{cut, item_of};
use crate::words::id_of;
use anyhow::bail;
use ss_record::Item;
use ss_text::Stamp;
use ss_tree::{Node, Tree};
use std::alloc::{AllocError, Global};

/// The node of an id that is there.
pub fn find(alloc: Global, tree: &Tree, text: &str) -> anyhow::Result<Node>
    ensures { IfOk result (λ k. is_live k tree.now ≡ true) }
{
    match tree.find(&id_of(alloc, text)?) {
        Some(node) => Ok(node),
        None => bail!("no item {text}"),
    }
}

/// A parent, and the child before which an item is to stand; it stands last where none is named.
fn place(alloc: Global, tree: &Tree, line: &str) -> anyhow::Result<(Node, Option<Node>)> {
    let (parent, before) = cut(line);
    let parent = find(alloc, tree, parent)?;
    if before.is_empty() {
        return Ok((parent, None));
    }
    Ok((parent, Some(find(alloc, tree, before)?)))
}

/// Puts an item under a parent, before a child or last.
pub fn insert(alloc: Global, tree: &mut Tree, line: &str) -> anyhow::Result<String> {
    let (word, rest) = cut(line);
    let (item, time) = item_of(alloc, word)?;
    let (parent, before) = place(alloc, tree, rest)?;
    Ok(
        match tree.insert(alloc, parent, before, item, Stamp::clamp(time)) {
            Ok(_) => String::from_str(alloc, "done")?,
            Err(fault) => format!(in alloc; "{fault:?}")?,
        },
    )
}

/// Moves an item under a parent, before a child or last.
pub fn shift(alloc: Global, tree: &mut Tree, line: &str) -> anyhow::Result<String> {
    let (text, rest) = cut(line);
    let (parent, before) = place(alloc, tree, rest)?;
    let node = find(alloc, tree, text)?;
    Ok(match tree.move_to(node, parent, before) {
        Ok(()) => String::from_str(alloc, "done")?,
        Err(fault) => format!(in alloc; "{fault:?}")?,
    })
}

/// An item: its kind, its id and its content.
fn item_text(alloc: Global, item: &Item) -> Result<String, AllocError> {
    format!(in alloc;
        "{} {} {}",
        item.kind().name(),
        item.id().as_str(),
        item.content().as_str()
    )
}

/// Takes an item away.
pub fn remove(alloc: Global, tree: &mut Tree, text: &str) -> anyhow::Result<String> {
    let node = find(alloc, tree, text)?;
    Ok(match tree.remove(node) {
        Ok(item) => item_text(alloc, &item)?,
        Err(fault) => format!(in alloc; "{fault:?}")?,
    })
}

/// The ids of nodes.
fn ids_text(alloc: Global, tree: &Tree, nodes: &[Node]) -> Result<String, AllocError>
    requires { All (λ k. is_live k tree.now ≡ true) nodes.now }
{
    let mut line = String::new(alloc);
    for node in nodes {
        if !line.is_empty() {
            line.push(' ')?;
        }
        line.push_str(tree.item(*node).id().as_str())?;
    }
    Ok(line)
}

/// The ids of a tree in preorder.
pub fn walk(alloc: Global, tree: &Tree) -> anyhow::Result<String> {
    let nodes = tree.walk(alloc)?;
    Ok(ids_text(alloc, tree, &nodes)?)
}

/// How many nodes a walk meets.
pub fn count(alloc: Global, tree: &Tree) -> anyhow::Result<String> {
    Ok(format!(in alloc; "{} nodes", tree.walk(alloc)?.len())?)
}

/// The id of a node's first child.
fn first_text<'a>(tree: &'a Tree, node: Node) -> &'a str {
    match tree.first(node) {
        Some(first) => tree.item(first).id().as_str(),
        None => "none",
    }
}

/// The ids of a node's children.
fn children_text(alloc: Global, tree: &Tree, node: Node) -> Result<String, AllocError> {
    let children = tree.children(alloc, node)?;
    if children.is_empty() {
        return String::from_str(alloc, "none");
    }
    ids_text(alloc, tree, &children)
}

/// An item, its time, its children and the first of them.
pub fn show(alloc: Global, tree: &Tree, text: &str) -> anyhow::Result<String> {
    let node = find(alloc, tree, text)?;
    let item = item_text(alloc, tree.item(node))?;
    let children = children_text(alloc, tree, node)?;
    Ok(format!(in alloc;
        "{item}, time {}, children {children}, first {}",
        tree.time(node).get(),
        first_text(tree, node)
    )?)
}
