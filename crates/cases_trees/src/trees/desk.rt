//! What a case has laid out before a call: a tree, rows, and the sides of a merge.

use crate::trees::links;
use crate::trees::notation::{cut, ids_of, item, plant, read_tree};
use crate::words::{id_of, number};
use anyhow::bail;
use ss_build::Built;
use ss_record::{Kind, Sheet};
use ss_text::{Id, Ids, Stamp, Word};
use ss_tree::{Sides, Tree};
use std::alloc::Global;

/// What a case has laid out.
#[derive(Drop)]
pub struct Desk {
    pub tree: Tree,
    pub rows: Vec<Sheet>,
    /// What was built of the rows last.
    pub built: Option<Built>,
    pub mirror: Tree,
    pub local: Tree,
    pub remote: Tree,
    pub local_dead: Ids,
    pub remote_dead: Ids,
}

/// Adds a row: its id, its time in hundredths of a second, and its payload.
fn add_row(alloc: Global, rows: &mut Vec<Sheet>, line: &str) -> anyhow::Result<()> {
    let (id, rest) = cut(line);
    let (time, payload) = cut(rest);
    rows.push(Sheet {
        id: id_of(alloc, id)?,
        modified: Stamp::clamp(number(time)?),
        payload: Word::new(String::from_str(alloc, payload)?),
    })?;
    Ok(())
}

/// The kind of a name.
fn kind_of(name: &str) -> anyhow::Result<Kind> {
    match Kind::from_name(name) {
        Some(kind) => Ok(kind),
        None => bail!("no kind: {name}"),
    }
}

/// Puts an item last into a tree: its parent, its id, its kind and its content.
fn add_item(alloc: Global, tree: &mut Tree, line: &str) -> anyhow::Result<()> {
    let (parent, rest) = cut(line);
    let (id, rest) = cut(rest);
    let (kind, content) = cut(rest);
    let item = item(alloc, id_of(alloc, id)?, kind_of(kind)?, content)?;
    let Some(under) = tree.find(&id_of(alloc, parent)?) else {
        bail!("no parent {parent}");
    };
    plant(alloc, tree, under, item, 1)?;
    Ok(())
}

impl Desk {
    /// Empty trees, and nothing else.
    pub fn new(alloc: Global) -> anyhow::Result<Desk> {
        Ok(Desk {
            tree: Tree::new(alloc)?,
            rows: Vec::new(alloc),
            built: None,
            mirror: Tree::new(alloc)?,
            local: Tree::new(alloc)?,
            remote: Tree::new(alloc)?,
            local_dead: Ids::new(Vec::new(alloc)),
            remote_dead: Ids::new(Vec::new(alloc)),
        })
    }

    /// The sides of a merge.
    pub fn sides(&self) -> Sides<'_> {
        Sides {
            mirror: &self.mirror,
            local: &self.local,
            remote: &self.remote,
            local_dead: &self.local_dead,
            remote_dead: &self.remote_dead,
        }
    }

    /// Lays out a part of a side; false where the word names none.
    fn lay_side(&mut self, alloc: Global, word: &str, rest: &str) -> anyhow::Result<bool> {
        match word {
            "mirror" => self.mirror = read_tree(alloc, rest)?,
            "local" => self.local = read_tree(alloc, rest)?,
            "remote" => self.remote = read_tree(alloc, rest)?,
            "local-dead" => self.local_dead = ids_of(alloc, rest)?,
            "remote-dead" => self.remote_dead = ids_of(alloc, rest)?,
            _ => return Ok(false),
        }
        Ok(true)
    }

    /// Puts an item last into the tree of a side; false where the word names none.
    fn lay_item(&mut self, alloc: Global, word: &str, rest: &str) -> anyhow::Result<bool> {
        match word {
            "mirror-item" => add_item(alloc, &mut self.mirror, rest)?,
            "local-item" => add_item(alloc, &mut self.local, rest)?,
            "remote-item" => add_item(alloc, &mut self.remote, rest)?,
            _ => return Ok(false),
        }
        Ok(true)
    }

    /// Lays out a tree or rows; false where the word names none.
    fn lay_other(&mut self, alloc: Global, word: &str, rest: &str) -> anyhow::Result<bool> {
        match word {
            "tree" => self.tree = read_tree(alloc, rest)?,
            "copy" => self.tree = self.tree.copy(alloc)?,
            "row" => add_row(alloc, &mut self.rows, rest)?,
            "links" => self.rows = links::rows(alloc, rest)?,
            _ => return Ok(false),
        }
        Ok(true)
    }

    /// Lays out what a line tells; false where its word names a call.
    pub fn lay(&mut self, alloc: Global, word: &str, rest: &str) -> anyhow::Result<bool> {
        if self.lay_side(alloc, word, rest)? || self.lay_item(alloc, word, rest)? {
            return Ok(true);
        }
        self.lay_other(alloc, word, rest)
    }
}
