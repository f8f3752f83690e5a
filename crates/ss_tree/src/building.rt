//! Cells from a list of entries.

ghost use Rattle.std.specs.Prelude.{◌≡◌, ◌≢◌, ◌==◌, ◌<◌, ◌≤◌, ◌^◌, ◌-◌, ℕ, List, Some, None, OnOk, IfOk, IfSome};
ghost use Rattle.std.specs.Prelude.{IfNone, vec_len, length, bytes_eq, get_or, if◌then◌else◌};
ghost use Rattle.std.specs.HashMap.{get};
ghost use Rattle.ss_tree.specs.Entries.{IsTree, entry, kids, node_of};
ghost use Rattle.ss_tree.specs.Cells.{blank, cell_at};
ghost use Rattle.ss_tree.specs.Built.{Adds, IsReady, Places};

use crate::cells::{Cell, END, attach, fill};
use crate::entries::{Entry, Node};
use crate::index::enter;
use ss_seed::Seed;
use ss_text::{Id, Stamp};
use std::alloc::{AllocError, Global};
use std::collections::HashMap;

/// Puts an entry last, and last under its parent.
pub(crate) fn add(
    alloc: Global,
    cells: &mut Vec<Cell>,
    index: &mut HashMap<Id, Node, Seed>,
    entry: Entry,
) -> Result<(), AllocError>
    requires { IsReady cells.old.items entry }
    ensures added { OnOk result (Adds cells.old.items cells.new.items entry) }
    ensures entered { OnOk result ((x : List ℕ) → get bytes_eq index.new x ≡ (if bytes_eq entry.item.id x then Some entry.node else get bytes_eq index.old x)) }
{
    enter(alloc, index, entry.item.id(), entry.node)?;
    let place = cells.len();
    cells.push(Cell {
        parent: entry.parent,
        first: END,
        last: END,
        prev: END,
        next: END,
        item: Some(entry.item),
        time: entry.time,
    })?;
    if let Some(parent) = entry.parent {
        attach(cells.as_mut_slice(), parent.number(), place, END);
    }
    Ok(())
}

/// So many blank cells.
pub(crate) fn blanks(alloc: Global, count: usize) -> Result<Vec<Cell>, AllocError>
    ensures long { IfOk result (λ cells. length cells.items ≡ count) }
    ensures blank { IfOk result (λ cells. (k : ℕ) → cell_at cells.items k ≡ blank) }
{
    let mut cells = Vec::with_capacity(alloc, count)?;
    for _round in 0..count {
        cells.push(Cell {
            parent: None,
            first: END,
            last: END,
            prev: END,
            next: END,
            item: None,
            time: Stamp::clamp(0),
        })?;
    }
    Ok(cells)
}

/// Puts an entry into the blank cell of its node, and last under its parent.
pub(crate) fn place(
    alloc: Global,
    cells: &mut Vec<Cell>,
    index: &mut HashMap<Id, Node, Seed>,
    entry: Entry,
) -> Result<(), AllocError>
    requires inside { entry.node < length cells.old.items }
    requires ready { IsReady cells.old.items entry }
    ensures placed { OnOk result (Places cells.old.items cells.new.items entry) }
    ensures entered { OnOk result ((x : List ℕ) → get bytes_eq index.new x ≡ (if bytes_eq entry.item.id x then Some entry.node else get bytes_eq index.old x)) }
{
    enter(alloc, index, entry.item.id(), entry.node)?;
    let node = entry.node.number();
    let parent = entry.parent;
    let slice = cells.as_mut_slice();
    fill(slice, entry);
    if let Some(parent) = parent {
        attach(slice, parent.number(), node, END);
    }
    Ok(())
}
