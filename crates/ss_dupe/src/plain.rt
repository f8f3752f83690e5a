//! A tree that was read out, for look-ups by id.

ghost use Rattle.std.specs.Prelude.{◌≡◌, Some, None, [], true, IfOk, OnOk, All, option_map, option_and_then, bytes_eq};
ghost use Rattle.std.specs.Prelude.{if◌then◌else◌};
ghost use Rattle.ss_tree.specs.Trees.{IsValidTree};
ghost use Rattle.ss_tree.specs.Entries.{IsTree, above, entry, is_live, placed, tree};
ghost use Rattle.ss_dupe.specs.Looks.{Id as Text, is_in, look};
ghost use Rattle.ss_dupe.specs.Plains.{AreIds, look_of, placed_at};
ghost use Rattle.ss_dupe.specs.Reading.{ids_at, name_at};

use ss_record::Item;
use ss_seed::Seed;
use ss_text::{Id, Stamp};
use ss_tree::{Node, Tree};
use std::alloc::{AllocError, Global};
use std::collections::HashMap;

/// An item in its place, by ids.
#[derive(Drop)]
pub struct Seat<'a> {
    pub id: Id,
    pub item: &'a Item,
    pub parent: Option<Id>,
    pub children: Vec<Id>,
    pub time: Stamp,
}

/// A tree that was read out: each item in its place by its id, and the ids.
#[derive(Drop)]
pub struct PlainTree<'a> {
    pub seats: HashMap<Id, Seat<'a>, Seed>,
    pub ids: Vec<Id>,
}

/// The ids of some nodes.
fn ids_of(alloc: Global, source: &Tree, nodes: &[Node]) -> Result<Vec<Id>, AllocError>
    requires { All (λ k. is_live k source.now ≡ true) nodes.now }
    ensures { IfOk result (λ ids. ids.items ≡ ids_at source.now nodes.now) }
{
    let mut ids = Vec::with_capacity(alloc, nodes.len())?;
    for node in nodes {
        ids.push(source.item(*node).id().copy(alloc)?)?;
    }
    Ok(ids)
}

/// The id of the node above.
fn parent_of(alloc: Global, source: &Tree, node: Node) -> Result<Option<Id>, AllocError>
    ensures { IfOk result (λ parent. parent ≡ option_and_then (name_at source.now) (above source.now node)) }
{
    match source.parent(node) {
        Some(parent) => Ok(Some(source.item(parent).id().copy(alloc)?)),
        None => Ok(None),
    }
}

/// The item of a node, in its place.
fn seat_of<'a>(alloc: Global, source: &'a Tree, node: Node) -> Result<Seat<'a>, AllocError>
    requires live { is_live node source.now ≡ true }
    requires kept { IsTree source.now }
    ensures { IfOk result (λ s. option_map (placed source.now) (entry node source.now) ≡ Some (placed_at s)) }
{
    let item = source.item(node);
    let children = source.children(alloc, node)?;
    Ok(Seat {
        id: item.id().copy(alloc)?,
        item,
        parent: parent_of(alloc, source, node)?,
        children: ids_of(alloc, source, &children)?,
        time: source.time(node),
    })
}

impl<'a> PlainTree<'a> {
    /// Reads a tree out, in one pass over its nodes.
    pub fn read(alloc: Global, source: &'a Tree) -> Result<PlainTree<'a>, AllocError>
        ensures same { IfOk result (λ p. (x : Text) → look_of p x ≡ look (tree source.now) x) }
        ensures ids { IfOk result AreIds }
        ensures valid { OnOk result (IsValidTree (tree source.now)) }
    {
        let nodes = source.walk(alloc)?;
        let mut plain = PlainTree::empty(alloc);
        for node in &nodes {
            plain.put(alloc, seat_of(alloc, source, *node)?)?;
        }
        Ok(plain)
    }

    /// A tree of no items.
    pub fn empty(alloc: Global) -> PlainTree<'a>
        ensures none { (x : Text) → look_of result x ≡ None }
        ensures ids { result.ids.items ≡ [] }
    {
        PlainTree {
            seats: HashMap::with_hasher(alloc, Seed::random()),
            ids: Vec::new(alloc),
        }
    }

    /// Adds an item in its place, in place of an earlier one of its id.
    pub fn put(&mut self, alloc: Global, seat: Seat<'a>) -> Result<(), AllocError>
        ensures look { OnOk result ((x : Text) → look_of self.new x ≡ (if bytes_eq seat.entry.id x then Some
            (placed_at seat.entry) else look_of self.old x)) }
        ensures ids { OnOk result (AreIds self.old → AreIds self.new) }
    {
        let id = seat.id.copy(alloc)?;
        let key = seat.id.copy(alloc)?;
        if self.seats.insert(key, seat)?.is_none() {
            self.ids.push(id)?;
        }
        Ok(())
    }

    /// The item of an id, in its place.
    pub fn get(&self, id: &Id) -> Option<&Seat<'a>>
        ensures { option_map (λ s. placed_at s.now) result ≡ look_of self.now id.now }
    {
        self.seats.get(id)
    }

    #[tactic(auto, unfolding(crate::specs::Looks::is_in))]
    pub fn has(&self, id: &Id) -> bool
        ensures { result ≡ is_in (look_of self.now) id.now }
    {
        self.seats.contains_key(id)
    }
}
