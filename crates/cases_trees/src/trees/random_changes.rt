//! Random changes of a tree, compared with those of a plain list.

ghost use Rattle.std.specs.Prelude.{◌≡◌, true, IfOk, IfSome};
ghost use Rattle.ss_tree.specs.Entries.{is_live};

use crate::trees::chances::Dice;
use crate::trees::changes::walk;
use crate::trees::notation::item;
use crate::trees::plain_changes::{Row, inserted, listed, moved, removed};
use crate::words::id_of;
use ss_record::{Item, Kind};
use ss_text::Stamp;
use ss_tree::{Node, Tree};
use std::alloc::{AllocError, Global};

/// The id of a number; every third item is a folder.
fn name_of(alloc: Global, number: u32) -> Result<String, AllocError> {
    match number {
        0 => String::from_str(alloc, "menu"),
        1 => String::from_str(alloc, "toolbar"),
        2 => String::from_str(alloc, "unfiled"),
        3 => String::from_str(alloc, "mobile"),
        _ if number % 3 == 0 => format!(in alloc; "f{number}"),
        _ => format!(in alloc; "b{number}"),
    }
}

/// A place that a call asks for: a parent, and the child before which an item is to stand.
#[derive(Clone, Copy)]
struct Place {
    parent: u32,
    before: Option<u32>,
}

/// A random place: before some item, or last under a number.
fn place_of(dice: &mut Dice, rows: &[Row]) -> Place {
    let chosen = dice.below_wide(400);
    match rows.get(chosen as usize) {
        Some(row) => Place {
            parent: row.parent,
            before: Some(row.id),
        },
        None => Place {
            parent: dice.below_wide(304),
            before: None,
        },
    }
}

/// The item of a row.
fn item_of(alloc: Global, row: Row) -> anyhow::Result<Item> {
    let kind = if row.folder {
        Kind::Folder
    } else {
        Kind::Bookmark
    };
    let name = name_of(alloc, row.id)?;
    item(alloc, id_of(alloc, name.as_str())?, kind, "{}")
}

/// The node of a number.
fn find(alloc: Global, tree: &Tree, number: u32) -> anyhow::Result<Option<Node>>
    ensures { IfOk result (λ found. IfSome found (λ k. is_live k tree.now ≡ true)) }
{
    let name = name_of(alloc, number)?;
    Ok(tree.find(&id_of(alloc, name.as_str())?))
}

/// The node before which an item is to stand.
fn find_before(alloc: Global, tree: &Tree, place: Place) -> anyhow::Result<Option<Node>> {
    match place.before {
        Some(number) => find(alloc, tree, number),
        None => Ok(None),
    }
}

/// Whether the tree refused a change, and the changed list, unless the list refused it.
type Changed = (bool, Option<Vec<Row>>);

/// A tree and a list that are changed alike.
#[derive(Drop)]
struct Run {
    tree: Tree,
    rows: Vec<Row>,
    dice: Dice,
    /// How many changes both refused.
    refused: u64,
    /// The most rows at a time.
    most: usize,
    /// The greatest number of a node that was given.
    greatest: usize,
}

impl Run {
    fn new(alloc: Global) -> anyhow::Result<Run> {
        Ok(Run {
            tree: Tree::new(alloc)?,
            rows: Vec::new(alloc),
            dice: Dice::new(5),
            refused: 0,
            most: 0,
            greatest: 0,
        })
    }

    /// Inserts an item into the tree, and tells whether it was refused.
    fn insert(&mut self, alloc: Global, row: Row, place: Place) -> anyhow::Result<bool> {
        let before = find_before(alloc, &self.tree, place)?;
        let Some(parent) = find(alloc, &self.tree, place.parent)? else {
            return Ok(true);
        };
        let item = item_of(alloc, row)?;
        match self
            .tree
            .insert(alloc, parent, before, item, Stamp::clamp(7))
        {
            Ok(node) => {
                self.greatest = self.greatest.max(node.number());
                Ok(false)
            }
            Err(_) => Ok(true),
        }
    }

    /// Moves an item of the tree, and tells whether that was refused.
    fn shift(&mut self, alloc: Global, number: u32, place: Place) -> anyhow::Result<bool> {
        let before = find_before(alloc, &self.tree, place)?;
        let Some(parent) = find(alloc, &self.tree, place.parent)? else {
            return Ok(true);
        };
        match find(alloc, &self.tree, number)? {
            Some(node) => Ok(self.tree.move_to(node, parent, before).is_err()),
            None => Ok(true),
        }
    }

    /// Removes an item from the tree, and tells whether that was refused.
    fn remove(&mut self, alloc: Global, number: u32) -> anyhow::Result<bool> {
        match find(alloc, &self.tree, number)? {
            Some(node) => Ok(self.tree.remove(node).is_err()),
            None => Ok(true),
        }
    }

    /// Moves an item of the tree and of the list.
    fn shift_both(&mut self, alloc: Global, number: u32, place: Place) -> anyhow::Result<Changed> {
        let refused = self.shift(alloc, number, place)?;
        let rows = moved(alloc, &self.rows, number, place.parent, place.before)?;
        Ok((refused, rows))
    }

    /// Removes an item from the tree and from the list.
    fn remove_both(&mut self, alloc: Global, number: u32) -> anyhow::Result<Changed> {
        let refused = self.remove(alloc, number)?;
        let rows = removed(alloc, &self.rows, number)?;
        Ok((refused, rows))
    }

    /// Inserts an item into the tree and into the list.
    fn insert_both(&mut self, alloc: Global, number: u32, place: Place) -> anyhow::Result<Changed> {
        let row = Row {
            id: number,
            parent: place.parent,
            folder: number % 3 == 0,
        };
        let refused = self.insert(alloc, row, place)?;
        let rows = inserted(alloc, &self.rows, row, place.before)?;
        Ok((refused, rows))
    }

    /// Makes one random change in the tree and in the list.
    fn change(&mut self, alloc: Global) -> anyhow::Result<Changed> {
        let number = self.dice.below_wide(300).saturating_add(4);
        let place = place_of(&mut self.dice, &self.rows);
        match self.dice.below_wide(4) {
            0 => self.shift_both(alloc, number, place),
            1 => self.remove_both(alloc, number),
            _ => self.insert_both(alloc, number, place),
        }
    }

    /// Takes over the changed list; what differs, where one refused the change and the other didn't.
    fn settle(&mut self, refused: bool, changed: Option<Vec<Row>>) -> Option<&'static str> {
        match changed {
            Some(rows) => {
                self.rows = rows;
                self.most = self.most.max(self.rows.len());
                if refused {
                    Some("refused by the tree alone")
                } else {
                    None
                }
            }
            None => {
                self.refused = self.refused.saturating_add(1);
                if refused {
                    None
                } else {
                    Some("refused by the list alone")
                }
            }
        }
    }

    /// The ids of the list in preorder, as a walk of the tree gives them.
    fn ids(&self, alloc: Global) -> Result<String, AllocError> {
        let mut line = String::from_str(alloc, "places")?;
        for number in &listed(alloc, &self.rows)? {
            line.push(' ')?;
            line.push_str(name_of(alloc, *number)?.as_str())?;
        }
        Ok(line)
    }

    /// What differs between the tree and the list.
    fn difference(&self, alloc: Global) -> anyhow::Result<Option<String>> {
        let told = walk(alloc, &self.tree)?;
        let wanted = self.ids(alloc)?;
        if told == wanted {
            return Ok(None);
        }
        Ok(Some(format!(in alloc; "the tree has {told}, the list {wanted}")?))
    }

    /// Makes a change, and compares the tree with the list after each hundredth; what differs.
    fn step(&mut self, alloc: Global, round: u64) -> anyhow::Result<Option<String>> {
        let (refused, changed) = self.change(alloc)?;
        if let Some(cause) = self.settle(refused, changed) {
            return Ok(Some(String::from_str(alloc, cause)?));
        }
        if round % 100 == 99 {
            self.difference(alloc)
        } else {
            Ok(None)
        }
    }
}

/// Makes so many random changes in a run, and compares each answer and each hundredth tree with those of the list.
fn compare_in(alloc: Global, run: &mut Run, rounds: u64) -> anyhow::Result<String> {
    for round in 0..rounds {
        if let Some(difference) = run.step(alloc, round)? {
            return Ok(format!(in alloc; "differs after change {round}: {difference}")?);
        }
    }
    Ok(format!(in alloc;
        "{rounds} alike, {} refused by both, {} walks alike, {} items in the end, {} at most, no node above {}",
        run.refused,
        rounds / 100,
        run.rows.len(),
        run.most,
        run.greatest
    )?)
}

/// Makes so many random changes, and compares the tree with the list.
pub fn compare(alloc: Global, rounds: u64) -> anyhow::Result<String> {
    let mut run = Run::new(alloc)?;
    let told = compare_in(alloc, &mut run, rounds);
    drop(run);
    told
}
