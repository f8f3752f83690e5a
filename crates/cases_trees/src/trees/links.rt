//! Long chains and circles of folders, as a tree and as rows.

use crate::trees::notation::{cut, item_of, plant};
use crate::words::{id_of, number};
use anyhow::bail;
use ss_record::Sheet;
use ss_text::{Stamp, Word};
use ss_tree::Tree;
use std::alloc::{AllocError, Global};

/// Adds so many folders to a tree, each in the one before, and the first one in `menu`.
fn add_chain(alloc: Global, tree: &mut Tree, count: u64) -> anyhow::Result<()> {
    let Some(mut above) = tree.find(&id_of(alloc, "menu")?) else {
        bail!("no menu");
    };
    for level in 0..count {
        let name = format!(in alloc; "F{level}")?;
        let (item, time) = item_of(alloc, name.as_str())?;
        above = plant(alloc, tree, above, item, time)?;
    }
    Ok(())
}

/// A tree of such folders.
pub fn chain(alloc: Global, count: u64) -> anyhow::Result<Tree> {
    let mut tree = Tree::new(alloc)?;
    add_chain(alloc, &mut tree, count)?;
    Ok(tree)
}

/// The form of rows of folders.
#[derive(Clone, Copy, PartialEq, Eq)]
enum Form {
    /// Each names the next one as its parent, and the last one the first; none lists children.
    Upward,
    /// Each lists the next one and names the one before as its parent; the first one names `menu`.
    Chain,
    /// As a chain, but the last one lists the first, and the first one names the last.
    Circle,
}

/// The name of a folder's parent.
fn parent(alloc: Global, form: Form, count: u64, number: u64) -> Result<String, AllocError> {
    let next = number.saturating_add(1);
    match form {
        Form::Upward if next < count => format!(in alloc; "f{next}"),
        Form::Upward => String::from_str(alloc, "f0"),
        _ if number > 0 => format!(in alloc; "f{}", number - 1),
        Form::Circle => format!(in alloc; "f{}", count.saturating_sub(1)),
        Form::Chain => String::from_str(alloc, "menu"),
    }
}

/// The folder that a folder lists, in quotes, or nothing.
fn child(alloc: Global, form: Form, count: u64, number: u64) -> Result<String, AllocError> {
    let next = number.saturating_add(1);
    match form {
        Form::Chain | Form::Circle if next < count => format!(in alloc; "\"f{next}\""),
        Form::Circle => String::from_str(alloc, "\"f0\""),
        _ => Ok(String::new(alloc)),
    }
}

/// The row of a folder.
fn link(alloc: Global, form: Form, count: u64, number: u64) -> anyhow::Result<Sheet> {
    let name = format!(in alloc; "f{number}")?;
    let parent = parent(alloc, form, count, number)?;
    let child = child(alloc, form, count, number)?;
    let payload = format!(in alloc;
        "{{\"id\":\"{name}\",\"type\":\"folder\",\"title\":\"t\",\"parentid\":\"{parent}\",\"children\":[{child}]}}"
    )?;
    Ok(Sheet {
        id: id_of(alloc, name.as_str())?,
        modified: Stamp::clamp(1),
        payload: Word::new(payload),
    })
}

/// The form of a name.
fn form_of(name: &str) -> anyhow::Result<Form> {
    match name {
        "upward" => Ok(Form::Upward),
        "chain" => Ok(Form::Chain),
        "circle" => Ok(Form::Circle),
        _ => bail!("no form: {name}"),
    }
}

/// Rows of folders: their form, and how many there are.
pub fn rows(alloc: Global, line: &str) -> anyhow::Result<Vec<Sheet>> {
    let (name, count) = cut(line);
    let form = form_of(name)?;
    let count = number(count)?;
    let mut rows = Vec::new(alloc);
    for number in 0..count {
        rows.push(link(alloc, form, count, number)?)?;
    }
    Ok(rows)
}
