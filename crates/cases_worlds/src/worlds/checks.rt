//! Whether rows stand for one valid tree, by a plain walk over what they say.

use crate::worlds::playing::ById;
use anyhow::bail;
use ss_bso::Row;
use ss_build::{are_distinct, build};
use ss_device::Device;
use ss_plan::changes;
use ss_record::{Reading, Sheet, read_record};
use std::alloc::{AllocError, Global};
use std::collections::BTreeMap;

/// What a row says of an item.
#[derive(Drop)]
struct Said {
    parent: String,
    children: Vec<String>,
    is_folder: bool,
}

/// The items of rows by id; None where a row isn't understood.
type Items = BTreeMap<String, Said>;

fn sheet(alloc: Global, row: &Row) -> Result<Sheet, AllocError> {
    Ok(Sheet {
        id: row.id.copy(alloc)?,
        modified: row.modified,
        payload: row.payload.copy(alloc)?,
    })
}

fn said_of(alloc: Global, reading: &Reading) -> Result<Option<Said>, AllocError> {
    let Reading::Item {
        item,
        parentid: Some(parent),
        children,
    } = reading
    else {
        return Ok(None);
    };
    let mut names = Vec::new(alloc);
    for child in children.as_slice() {
        names.push(String::from_str(alloc, child.as_str())?)?;
    }
    Ok(Some(Said {
        parent: String::from_str(alloc, parent.as_str())?,
        children: names,
        is_folder: item.kind().is_folder(),
    }))
}

/// Enters the item of a row, if it has one; whether the row is understood, and its id is new.
fn enter(alloc: Global, items: &mut Items, row: &Row) -> Result<bool, AllocError> {
    let reading = read_record(alloc, &sheet(alloc, row)?)?;
    if let Reading::Tombstone = reading {
        return Ok(true);
    }
    match said_of(alloc, &reading)? {
        Some(said) => {
            let id = String::from_str(alloc, row.id.as_str())?;
            Ok(items.insert(id, said)?.is_none())
        }
        None => Ok(false),
    }
}

const ROOTS: [&str; 4] = ["menu", "toolbar", "unfiled", "mobile"];

/// Whether the roots are folders under `places`, and no other item is there.
fn has_roots(items: &Items) -> bool {
    let mut tops: u32 = 0;
    for (_, said) in items.iter() {
        if said.parent.as_str() == "places" {
            tops = tops.saturating_add(1);
        }
    }
    for root in ROOTS {
        match items.get(root) {
            Some(said) if said.is_folder && said.parent.as_str() == "places" => {}
            _ => return false,
        }
    }
    tops == 4
}

/// Puts the children of an item behind the queue; whether each is an item that names this one as its parent.
fn follow(
    alloc: Global,
    items: &Items,
    queue: &mut Vec<String>,
    id: &str,
) -> Result<bool, AllocError> {
    let Some(said) = items.get(id) else {
        return Ok(false);
    };
    for child in said.children.iter() {
        match items.get(child.as_str()) {
            Some(below) if below.parent.as_str() == id => {
                queue.push(String::from_str(alloc, child.as_str())?)?;
            }
            _ => return Ok(false),
        }
    }
    Ok(said.is_folder || said.children.is_empty())
}

/// Whether a walk from the roots by the children comes to each item once.
fn is_reached(alloc: Global, items: &Items) -> Result<bool, AllocError> {
    let mut queue = Vec::new(alloc);
    for root in ROOTS {
        queue.push(String::from_str(alloc, root)?)?;
    }
    for at in 0..items.len() {
        let Some(id) = queue.get(at) else {
            return Ok(false);
        };
        let id = String::from_str(alloc, id.as_str())?;
        if !follow(alloc, items, &mut queue, id.as_str())? {
            return Ok(false);
        }
    }
    queue.sort()?;
    queue.dedup();
    Ok(queue.len() == items.len())
}

/// Whether rows stand for one valid tree: there is none, or each is a tombstone or an item, the roots are there, each
/// folder lists just the items that name it as their parent, and all of them hang below the roots.
pub fn is_one_tree(alloc: Global, rows: &ById) -> Result<bool, AllocError> {
    let mut items = BTreeMap::new(alloc);
    for (_, row) in rows.iter() {
        if !enter(alloc, &mut items, row)? {
            return Ok(false);
        }
    }
    Ok(rows.is_empty() || (has_roots(&items) && is_reached(alloc, &items)?))
}

/// Whether rows stand for the tree of a device: nothing has to be put so that they do.
pub fn is_of_device(alloc: Global, rows: &ById, device: &Device) -> anyhow::Result<bool> {
    let mut sheets = Vec::new(alloc);
    for (_, row) in rows.iter() {
        sheets.push(sheet(alloc, row)?)?;
    }
    if !are_distinct(alloc, &sheets)? {
        bail!("two rows of one id");
    }
    let built = build(alloc, &sheets)?;
    Ok(changes(alloc, device.tree(), &built.readings)?.is_empty())
}
