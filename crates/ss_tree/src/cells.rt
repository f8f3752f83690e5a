//! Cells of a tree in a list, linked by their places.

ghost use Rattle.ss_tree.specs.Entries.{revised_entry, under};
ghost use Rattle.std.specs.Prelude.{true, IsSome, ◌≡◌, ◌≢◌, ◌==◌, ◌<◌, ◌≤◌, ℕ, vec_len, vec_capacity, Some, None};
ghost use Rattle.std.specs.Prelude.{length, option_map, option_and_then, IfOk, if◌then◌else◌};
ghost use Rattle.ss_tree.specs.Cells.{Attaches, Frees, IsPlace, is_fit_item, Joins, SameLinks, Seats, SetsNext};
ghost use Rattle.ss_tree.specs.Cells.{SetsPrev, cell_at, link_of, next_of, prev_of, seat_at};

use crate::entries::{Entry, Node};
use ss_record::Item;
use ss_text::{Stamp, Word};
use std::alloc::{AllocError, Global};

/// The place that stands for both ends of a row of siblings.
pub(crate) const END: usize = usize::MAX;

/// A node of the tree, or a blank place. Siblings are linked both ways, and their parent leads to the first and the last;
/// a blank place leads by `next` to the one that was left before it.
#[derive(Drop, Debug)]
pub(crate) struct Cell {
    pub(crate) parent: Option<Node>,
    pub(crate) first: usize,
    pub(crate) last: usize,
    pub(crate) prev: usize,
    pub(crate) next: usize,
    pub(crate) item: Option<Item>,
    pub(crate) time: Stamp,
}

/// Lets `next` come after `place` under `parent`, or first.
fn set_next(cells: &mut [Cell], parent: usize, place: usize, next: usize)
    requires parent { parent < length cells.old }
    requires place { IsPlace cells.old place }
    ensures { SetsNext cells.old cells.new parent place next }
{
    if place == END {
        cells[parent].first = next;
    } else {
        cells[place].next = next;
    }
}

/// Lets `prev` come before `place` under `parent`, or last.
fn set_prev(cells: &mut [Cell], parent: usize, place: usize, prev: usize)
    requires parent { parent < length cells.old }
    requires place { IsPlace cells.old place }
    ensures { SetsPrev cells.old cells.new parent place prev }
{
    if place == END {
        cells[parent].last = prev;
    } else {
        cells[place].prev = prev;
    }
}

/// Makes two places neighbours under a parent, where `END` stands for the row's ends.
pub(crate) fn join(cells: &mut [Cell], parent: usize, left: usize, right: usize)
    requires parent { parent < length cells.old }
    requires left { IsPlace cells.old left }
    requires right { IsPlace cells.old right }
    ensures { Joins cells.old cells.new parent left right }
{
    set_next(cells, parent, left, right);
    set_prev(cells, parent, right, left);
}

/// The link to a sibling, or to the end.
pub(crate) fn link_of(before: Option<Node>) -> usize
    ensures { result ≡ link_of before }
{
    match before {
        Some(node) => node.number(),
        None => END,
    }
}

/// The node that a link leads to.
pub(crate) fn of_link(link: usize) -> Option<Node>
    ensures { result ≡ (if link == END then None else Some link) }
{
    if link == END {
        None
    } else {
        Some(Node::new(link))
    }
}

pub(crate) fn first_at(cells: &[Cell], place: usize) -> usize
    ensures { result ≡ (cell_at cells.now place).first }
{
    match cells.get(place) {
        Some(cell) => cell.first,
        None => END,
    }
}

pub(crate) fn next_at(cells: &[Cell], place: usize) -> usize
    ensures { result ≡ (cell_at cells.now place).next }
{
    match cells.get(place) {
        Some(cell) => cell.next,
        None => END,
    }
}

pub(crate) fn item_at(cells: &[Cell], place: usize) -> Option<&Item>
    ensures { option_map (λ i. i.now) result ≡ (cell_at cells.now place).item }
{
    match cells.get(place) {
        Some(cell) => match &cell.item {
            Some(item) => Some(item),
            None => None,
        },
        None => None,
    }
}

pub(crate) fn parent_at(cells: &[Cell], place: usize) -> Option<Node>
    ensures { result ≡ option_and_then (λ e. e.parent) (seat_at cells.now place) }
{
    match cells.get(place) {
        Some(cell) => match &cell.item {
            Some(_) => cell.parent,
            None => None,
        },
        None => None,
    }
}

/// Takes a node out from between its neighbours, which become neighbours.
pub(crate) fn detach(cells: &mut [Cell], parent: usize, node: usize)
    requires parent { parent < length cells.old }
    requires node { node < length cells.old }
    requires inner { node ≢ END }
    requires left { IsPlace cells.old (prev_of cells.old parent node) }
    requires right { IsPlace cells.old (next_of cells.old parent node) }
    ensures { Joins cells.old cells.new parent (prev_of cells.old parent node) (next_of cells.old parent node) }
{
    let cell = &cells[node];
    let (prev, next) = (cell.prev, cell.next);
    join(cells, parent, prev, next);
}

/// Puts a node that is in no row before a place of a row, or last.
pub(crate) fn attach(cells: &mut [Cell], parent: usize, node: usize, right: usize)
    requires parent { parent < length cells.old }
    requires node { node < length cells.old }
    requires right { IsPlace cells.old right }
    requires left { IsPlace cells.old (prev_of cells.old parent right) }
    ensures { Attaches cells.old cells.new parent node right }
{
    let left = if right == END {
        cells[parent].last
    } else {
        cells[right].prev
    };
    join(cells, parent, left, node);
    join(cells, parent, node, right);
}

/// Gives a node another parent.
pub(crate) fn set_parent(cells: &mut [Cell], node: usize, parent: Node)
    requires { node < length cells.old }
    ensures links { SameLinks cells.old cells.new }
    ensures seats { (k : ℕ) → seat_at cells.new k ≡ (if k == node then option_map (under parent) (seat_at cells.old k) else seat_at cells.old k) }
{
    cells[node].parent = Some(parent);
}

/// Takes the item of a node that is in no row, whose place then leads to another blank one.
pub(crate) fn vacate(cells: &mut [Cell], node: usize, vacant: usize) -> Item
    requires node { node < length cells.old }
    requires item { IsSome (cell_at cells.old node).item }
    ensures item { (cell_at cells.old node).item ≡ Some result }
    ensures links { Frees cells.old cells.new node vacant }
    ensures seats { (k : ℕ) → seat_at cells.new k ≡ (if node == k then None else seat_at cells.old k) }
{
    let cell = &mut cells[node];
    cell.next = vacant;
    cell.item.take().unwrap()
}

/// The place for one more node: that which was left last, or a new one at the end.
pub(crate) fn place_for(cells: &[Cell], vacant: usize) -> usize
    ensures inside { result ≤ length cells.now }
    ensures blank { seat_at cells.now result ≡ None }
    ensures again { vacant < length cells.now → seat_at cells.now vacant ≡ None → result ≡ vacant }
{
    match cells.get(vacant) {
        Some(cell) => {
            if cell.item.is_none() {
                vacant
            } else {
                cells.len()
            }
        }
        None => cells.len(),
    }
}

/// Gives an entry its cell: a blank one, or one more at the end, for which there is room.
pub(crate) fn occupy(cells: &mut Vec<Cell>, entry: Entry)
    requires room { vec_len cells.old < vec_capacity cells.old }
    requires place { entry.node ≤ length cells.old.items }
    ensures { Seats cells.old.items cells.new.items entry }
{
    let node = entry.node.number();
    if node < cells.len() {
        fill(cells.as_mut_slice(), entry);
    } else {
        cells.push_reserved(Cell {
            parent: entry.parent,
            first: END,
            last: END,
            prev: END,
            next: END,
            item: Some(entry.item),
            time: entry.time,
        });
    }
}

/// Gives a node's item another content and time.
pub(crate) fn revise(cells: &mut [Cell], node: usize, content: Word, time: Stamp)
    requires node { node < length cells.old }
    requires fit { is_fit_item content (cell_at cells.old node).item ≡ true }
    ensures links { SameLinks cells.old cells.new }
    ensures seats { (k : ℕ) → seat_at cells.new k ≡ (if k == node then option_map (revised_entry content time) (seat_at cells.old k) else seat_at cells.old k) }
{
    let cell = &mut cells[node];
    cell.time = time;
    match &mut cell.item {
        Some(item) => item.set_content(content),
        None => unreachable!(),
    }
}

/// Makes a cell that of an entry; its links stay.
pub(crate) fn fill(cells: &mut [Cell], entry: Entry)
    requires { entry.node < length cells.old }
    ensures links { SameLinks cells.old cells.new }
    ensures seats { (k : ℕ) → seat_at cells.new k ≡ (if k == entry.node then Some entry else seat_at cells.old k) }
{
    let cell = &mut cells[entry.node.number()];
    cell.parent = entry.parent;
    cell.item = Some(entry.item);
    cell.time = entry.time;
}

fn copy_cell(alloc: Global, cell: &Cell) -> Result<Cell, AllocError>
    ensures { IfOk result (λ copied. copied ≡ cell.now) }
{
    let item = match &cell.item {
        Some(item) => Some(item.copy(alloc)?),
        None => None,
    };
    Ok(Cell {
        parent: cell.parent,
        first: cell.first,
        last: cell.last,
        prev: cell.prev,
        next: cell.next,
        item,
        time: cell.time,
    })
}

pub(crate) fn copy_cells(alloc: Global, cells: &[Cell]) -> Result<Vec<Cell>, AllocError>
    ensures { IfOk result (λ copied. copied.items ≡ cells.now) }
{
    let mut copied = Vec::with_capacity(alloc, cells.len())?;
    for cell in cells {
        copied.push(copy_cell(alloc, cell)?)?;
    }
    Ok(copied)
}
