//! The plain slow program: the rules of building, one item at a time, over small numbers.

use crate::trees::chances::{Dice, PLACES, UNFILED, is_root, name};
use crate::trees::listing::listed;
use std::alloc::{AllocError, Global};

/// How many names there are.
pub const NAMES: u8 = 14;

/// What a row says.
#[derive(Clone, Copy, PartialEq, Eq)]
pub enum Told {
    Folder,
    Bookmark,
    Deleted,
    Unreadable,
}

/// A row over numbers.
#[derive(Drop)]
pub struct Raw {
    pub id: u8,
    pub time: u64,
    pub told: Told,
    pub parent: u8,
    pub children: Vec<u8>,
}

impl Raw {
    fn is_item(&self) -> bool {
        self.told == Told::Folder || (self.told == Told::Bookmark && !is_root(self.id))
    }
}

fn find(rows: &[Raw], id: u8) -> Option<&Raw> {
    for row in rows {
        if row.id == id && row.is_item() {
            return Some(row);
        }
    }
    None
}

fn is_there(rows: &[Raw], id: u8) -> bool {
    is_root(id) || find(rows, id).is_some()
}

fn is_folder(rows: &[Raw], id: u8) -> bool {
    match find(rows, id) {
        Some(row) => row.told == Told::Folder,
        None => is_root(id),
    }
}

fn lists(row: &Raw, id: u8) -> bool {
    row.told == Told::Folder && row.children.contains(&id)
}

/// The folder that lists an item and has the greatest time, and of these the smallest id.
fn best(rows: &[Raw], id: u8) -> Option<u8> {
    let mut best: Option<(u64, u8)> = None;
    for row in rows {
        if lists(row, id) {
            best = match best {
                Some((time, other)) => {
                    if row.time > time || (row.time == time && row.id < other) {
                        Some((row.time, row.id))
                    } else {
                        Some((time, other))
                    }
                }
                None => Some((row.time, row.id)),
            };
        }
    }
    best.map(|pair| pair.1)
}

fn proposed(rows: &[Raw], id: u8) -> u8 {
    if is_root(id) {
        return PLACES;
    }
    let Some(row) = find(rows, id) else {
        return PLACES;
    };
    if is_folder(rows, row.parent) {
        if let Some(folder) = find(rows, row.parent) {
            if lists(folder, id) {
                return row.parent;
            }
        }
    }
    if let Some(folder) = best(rows, id) {
        return folder;
    }
    if is_folder(rows, row.parent) {
        row.parent
    } else {
        UNFILED
    }
}

fn comes_back(rows: &[Raw], id: u8) -> bool {
    let mut at = proposed(rows, id);
    for _step in 0..NAMES {
        if at == id {
            return true;
        }
        at = proposed(rows, at);
    }
    false
}

fn parent(rows: &[Raw], id: u8) -> u8 {
    if comes_back(rows, id) {
        UNFILED
    } else {
        proposed(rows, id)
    }
}

fn children(alloc: Global, rows: &[Raw], id: u8) -> Result<Vec<u8>, AllocError> {
    let mut found = Vec::new(alloc);
    if let Some(row) = find(rows, id) {
        for child in &row.children {
            if is_there(rows, *child) && parent(rows, *child) == id && !found.contains(child) {
                found.push(*child)?;
            }
        }
    }
    for child in 0..NAMES {
        if is_there(rows, child) && parent(rows, child) == id && !found.contains(&child) {
            found.push(child)?;
        }
    }
    Ok(found)
}

fn is_repaired(alloc: Global, rows: &[Raw], row: &Raw) -> Result<bool, AllocError> {
    let moved = !is_root(row.id) && parent(rows, row.id) != row.parent;
    let found = children(alloc, rows, row.id)?;
    let told = if row.told == Told::Folder {
        found.as_slice() != row.children.as_slice()
    } else {
        !found.is_empty()
    };
    Ok(row.is_item() && (moved || told))
}

/// An item with its parent and its children.
fn push_item(alloc: Global, rows: &[Raw], id: u8, line: &mut String) -> Result<(), AllocError> {
    line.push_str(name(id))?;
    line.push('<')?;
    line.push_str(name(parent(rows, id)))?;
    for child in &children(alloc, rows, id)? {
        line.push(' ')?;
        line.push_str(name(*child))?;
    }
    line.push_str(", ")
}

/// Each item with its parent and its children, by id.
fn items_text(alloc: Global, rows: &[Raw]) -> Result<String, AllocError> {
    let mut line = String::new(alloc);
    for id in 0..NAMES {
        if is_there(rows, id) {
            push_item(alloc, rows, id, &mut line)?;
        }
    }
    Ok(line)
}

/// Each item with its parent and its children, by id; then the ids that are told as deleted, not understood, repaired.
pub fn shown_by_rules(alloc: Global, rows: &[Raw]) -> Result<String, AllocError> {
    let items = items_text(alloc, rows)?;
    let dead = picked(alloc, rows, "dead")?;
    let skipped = picked(alloc, rows, "skipped")?;
    let repaired = picked(alloc, rows, "repaired")?;
    format!(in alloc; "{items}{dead}, {skipped}, {repaired}")
}

/// Whether a row is told of in a list: of what is deleted, not understood, or repaired.
fn is_picked(alloc: Global, rows: &[Raw], row: &Raw, list: &str) -> Result<bool, AllocError> {
    let deleted = row.told == Told::Deleted && !is_root(row.id);
    match list {
        "dead" => Ok(deleted),
        "skipped" => Ok(!deleted && !row.is_item()),
        _ => is_repaired(alloc, rows, row),
    }
}

/// The names of the rows that are told of in a list.
fn picked(alloc: Global, rows: &[Raw], list: &str) -> Result<String, AllocError> {
    let mut texts = Vec::new(alloc);
    for id in 0..NAMES {
        for row in rows {
            if row.id == id && is_picked(alloc, rows, row, list)? {
                texts.push(String::from_str(alloc, name(id))?)?;
            }
        }
    }
    listed(alloc, list, &texts)
}

/// A row's payload.
pub fn payload(alloc: Global, row: &Raw) -> Result<String, AllocError> {
    let mut text = String::from_str(alloc, "{\"id\":\"")?;
    text.push_str(name(row.id))?;
    text.push_str(match row.told {
        Told::Deleted => "\",\"deleted\":true}",
        Told::Unreadable => "\",\"type\":\"other\"}",
        Told::Bookmark => "\",\"type\":\"bookmark\",\"parentid\":\"",
        Told::Folder => "\",\"type\":\"folder\",\"parentid\":\"",
    })?;
    if row.told == Told::Deleted || row.told == Told::Unreadable {
        return Ok(text);
    }
    text.push_str(name(row.parent))?;
    text.push_str("\",\"children\":[")?;
    for (i, child) in row.children.iter().enumerate() {
        text.push_str(if i == 0 { "\"" } else { ",\"" })?;
        text.push_str(name(*child))?;
        text.push('"')?;
    }
    text.push_str("]}")?;
    Ok(text)
}

/// Up to five names.
fn random_names(alloc: Global, dice: &mut Dice) -> Result<Vec<u8>, AllocError> {
    let mut names = Vec::new(alloc);
    for _name in 0..dice.below(6) {
        names.push(dice.below(NAMES))?;
    }
    Ok(names)
}

fn random_row(alloc: Global, dice: &mut Dice, id: u8) -> Result<Raw, AllocError> {
    let told = match dice.below(8) {
        0 => Told::Deleted,
        1 => Told::Unreadable,
        2 | 3 => Told::Bookmark,
        _ => Told::Folder,
    };
    Ok(Raw {
        id,
        time: u64::from(dice.below(3)),
        told,
        parent: dice.below(NAMES),
        children: random_names(alloc, dice)?,
    })
}

/// Rows of some of the items and roots, in some order.
pub fn random_rows(alloc: Global, dice: &mut Dice) -> Result<Vec<Raw>, AllocError> {
    let mut rows = Vec::new(alloc);
    let first = dice.below(NAMES);
    for step in 0..NAMES {
        let id = ((u16::from(step) * 5 + u16::from(first)) % u16::from(NAMES)) as u8;
        if id != PLACES && id + 1 < NAMES && dice.below(4) > 0 {
            rows.push(random_row(alloc, dice, id)?)?;
        }
    }
    Ok(rows)
}
