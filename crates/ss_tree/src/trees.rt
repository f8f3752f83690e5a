//! Trees of items.

ghost use Rattle.ss_tree.specs.Built.{AreAtTheirNodes};
ghost use Rattle.ss_list.specs.Chain.{times};
ghost use Rattle.ss_tree.specs.Walks.{after, follower};
ghost use Rattle.std.specs.HashMap.{get};
ghost use Rattle.std.specs.Prelude.{List, bytes_eq, ◌^◌, ◌-◌, ◌≡◌, ◌==◌, ◌<◌, ◌⊎◌, ◌↔◌, ℕ, Some, None, true, false};
ghost use Rattle.std.specs.Prelude.{IfOk, OnOk, OnErr, MatchResult, IfSome, IsTrue, option_map, option_and_then};
ghost use Rattle.std.specs.Prelude.{is_some, length, if◌then◌else◌};
ghost use Rattle.std.specs.List.{All};
ghost use Rattle.ss_record.specs.Ids.{has};
ghost use Rattle.ss_tree.specs.declared.faults.TreeFault.TheVariants.{Memory};
ghost use Rattle.ss_text.specs.Names.{is_id};
ghost use Rattle.ss_record.specs.Items.{empty_folder};
ghost use Rattle.ss_tree.specs.Trees.{IsSame, IsValidTree, empty_tree};
ghost use Rattle.ss_tree.specs.Entries.{preorder, new_entries, top_entry, tree, IsBelow, IsTree, above, entry};
ghost use Rattle.ss_tree.specs.Entries.{entry_ids, first_of, insert_fault, is_below, is_fit_with, is_fixed, is_live};
ghost use Rattle.ss_tree.specs.Entries.{is_node, is_place, kids, move_fault, next_after, node_of, put_before};
ghost use Rattle.ss_tree.specs.Entries.{remove_fault, revised_entry, takes_children, under, without_node};

use crate::building::{add, blanks, place};
use crate::cells::{
    Cell, END, attach, copy_cells, detach, first_at, item_at, link_of, next_at, occupy, of_link,
    parent_at, place_for, revise, set_parent, vacate,
};
use crate::entries::{Entry, Node};
use crate::faults::{MoveFault, RemoveFault, TreeFault};
use crate::index::{enter, leave};
use ss_record::Item;
use ss_seed::Seed;
use ss_text::{Id, Stamp, Word};
use std::alloc::{AllocError, Global};
use std::collections::HashMap;
use std::marker::Model;

/// A tree of bookmark items: `places`, the four roots under it, and items below. It is valid by its type.
#[derive(Drop, Debug)]
pub struct Tree {
    cells: Vec<Cell>,
    index: HashMap<Id, Node, Seed>,
    /// The place that was left last, which leads to the others; `END` where there is none.
    vacant: usize,
}

impl Model for Tree {
    ghost use Rattle.std.specs.Prelude.{List, ℕ, ◌≡◌, bytes_eq};
    ghost use Rattle.std.specs.HashMap.{get};
    ghost use Rattle.ss_tree.specs.Entries.{node_of};
    ghost use Rattle.ss_tree.specs.declared.entries.Entry.{Entry as Seat};
    ghost use Rattle.ss_tree.specs.Cells.{Hangs, IsLinkedTree, listing};

    ghost Value = { List Seat };

    ghost view = { λ t. listing t.cells.items };

    ghost invariant = { λ t. IsLinkedTree t.cells.items × ((x : List ℕ) → get bytes_eq t.index x ≡ node_of x (listing t.cells.items)) × Hangs t.cells.items t.vacant };
}

/// The entry of an empty folder in a new tree.
fn empty(
    alloc: Global,
    number: usize,
    parent: Option<Node>,
    name: &str,
) -> Result<Entry, AllocError>
    requires { is_id name.now ≡ true }
    ensures { IfOk result (λ e. e ≡ record { node = number; parent = parent; item = empty_folder name.now; time = 0 }) }
{
    let Some(id) = Id::new(alloc, name.as_bytes())? else {
        unreachable!();
    };
    Ok(Entry {
        node: Node::new(number),
        parent,
        item: Item::empty_folder(alloc, id)?,
        time: Stamp::clamp(0),
    })
}

/// The entry of an empty root.
fn root(alloc: Global, number: usize, name: &str) -> Result<Entry, AllocError>
    requires { is_id name.now ≡ true }
    ensures { IfOk result (λ e. e ≡ record { node = number; parent = Some 0; item = empty_folder name.now; time = 0 }) }
{
    empty(alloc, number, Some(Node::new(0)), name)
}

#[tactic(auto, unfolding(ss_record::specs::Ids::places))]
fn top(alloc: Global) -> Result<Entry, AllocError>
    ensures { IfOk result (λ e. e ≡ top_entry) }
{
    empty(alloc, 0, None, "places")
}

fn new_entries(alloc: Global) -> Result<Vec<Entry>, AllocError>
    ensures entries { IfOk result (λ entries. entries.items ≡ new_entries) }
{
    let mut entries = Vec::with_capacity(alloc, 5)?;
    entries.push(top(alloc)?)?;
    entries.push(root(alloc, 1, "menu")?)?;
    entries.push(root(alloc, 2, "toolbar")?)?;
    entries.push(root(alloc, 3, "unfiled")?)?;
    entries.push(root(alloc, 4, "mobile")?)?;
    Ok(entries)
}

impl Tree {
    /// `places` and the four roots, with no content and time 0.
    pub fn new(alloc: Global) -> Result<Tree, AllocError>
        ensures { IfOk result (λ t. IsSame (tree t) empty_tree) }
    {
        let made = Tree::from_placed(alloc, new_entries(alloc)?)?;
        Ok(made)
    }

    /// The tree of these entries: each stands at its node's number, after its parent, and siblings in their order.
    pub fn from_placed(alloc: Global, entries: Vec<Entry>) -> Result<Tree, AllocError>
        requires tree { IsTree entries.items }
        requires placed { AreAtTheirNodes entries.items }
        requires room { length entries.items < 2 ^ 64 - 1 }
        ensures entries { IfOk result (λ t. (k : ℕ) → entry k t ≡ entry k entries.items) }
        ensures kids { IfOk result (λ t. (k : ℕ) → kids k t ≡ kids k entries.items) }
        ensures valid { IfOk result IsTree }
    {
        let mut cells = Vec::with_capacity(alloc, entries.len())?;
        let mut index = HashMap::with_hasher(alloc, Seed::random());
        for entry in entries {
            add(alloc, &mut cells, &mut index, entry)?;
        }
        Ok(Tree {
            cells,
            index,
            vacant: END,
        })
    }

    /// The tree of these entries, whose nodes are numbered below their count, and where siblings stand in their order.
    pub fn from_entries(alloc: Global, entries: Vec<Entry>) -> Result<Tree, AllocError>
        requires tree { IsTree entries.items }
        requires numbered { (k : ℕ) → is_live k entries.items ≡ true → k < length entries.items }
        requires room { length entries.items < 2 ^ 64 - 1 }
        ensures entries { IfOk result (λ t. (k : ℕ) → entry k t ≡ entry k entries.items) }
        ensures kids { IfOk result (λ t. (k : ℕ) → kids k t ≡ kids k entries.items) }
        ensures same { IfOk result (λ t. IsSame (tree t) (tree entries.items)) }
        ensures valid { IfOk result IsTree }
    {
        let mut cells = blanks(alloc, entries.len())?;
        let mut index = HashMap::with_hasher(alloc, Seed::random());
        for entry in entries {
            place(alloc, &mut cells, &mut index, entry)?;
        }
        Ok(Tree {
            cells,
            index,
            vacant: END,
        })
    }

    /// The item of a node.
    fn item_of(&self, node: Node) -> Option<&Item>
        ensures { option_map (λ i. i.now) result ≡ option_map (λ e. e.item) (entry node self.now) }
    {
        item_at(&self.cells, node.number())
    }

    pub fn item(&self, node: Node) -> &Item
        requires { IsTrue (is_live node self.now) }
        ensures { option_map (λ e. e.item) (entry node self.now) ≡ Some result.now }
    {
        match self.item_of(node) {
            Some(item) => item,
            None => unreachable!(),
        }
    }

    /// The time of a node's item, in hundredths of a second.
    pub fn time(&self, node: Node) -> Stamp
        requires { IsTrue (is_live node self.now) }
        ensures { option_map (λ e. e.time) (entry node self.now) ≡ Some result }
    {
        self.cells[node.number()].time
    }

    /// The node above; None for `places`.
    pub fn parent(&self, node: Node) -> Option<Node>
        ensures node { result ≡ above self.now node }
        ensures live { IfSome result (λ k. is_live k self.now ≡ true) }
    {
        parent_at(&self.cells, node.number())
    }

    /// The first of a node's children.
    pub fn first(&self, node: Node) -> Option<Node>
        ensures node { result ≡ first_of (kids node self.now) }
        ensures live { IfSome result (λ k. is_live k self.now ≡ true) }
    {
        of_link(first_at(&self.cells, node.number()))
    }

    /// The sibling after a node.
    pub fn next(&self, node: Node) -> Option<Node>
        ensures node { result ≡ option_and_then (λ p. next_after node (kids p self.now)) (above self.now node) }
        ensures live { IfSome result (λ k. is_live k self.now ≡ true) }
    {
        match self.parent(node) {
            Some(_) => of_link(next_at(&self.cells, node.number())),
            None => None,
        }
    }

    /// Whether a node is below another one; no node is below itself.
    pub fn is_under(&self, node: Node, top: Node) -> bool
        ensures test { result ≡ is_below self.now top node }
        ensures below { IsTrue result ↔ IsBelow self.now top node }
    {
        let mut at = self.parent(node);
        for _round in 0..self.cells.len() {
            let Some(reached) = at else {
                return false;
            };
            if top == reached {
                return true;
            }
            at = self.parent(reached);
        }
        false
    }

    /// The node of an id.
    pub fn find(&self, id: &Id) -> Option<Node>
        ensures node { result ≡ node_of id.now self.now }
        ensures valid { IsValidTree (tree self.now) }
        ensures kept { IsTree self.now }
        ensures live { IfSome result (λ k. is_live k self.now ≡ true) }
    {
        self.index.get(id).copied()
    }

    /// Whether a node is `places` or a root.
    #[tactic(auto, unfolding(crate::specs::Entries::is_fixed, crate::specs::Entries::above))]
    fn is_fixed(&self, node: Node) -> bool
        ensures { result ≡ is_fixed node self.now }
    {
        node.number() == 0
            || match self.parent(node) {
                Some(parent) => parent.number() == 0,
                None => false,
            }
    }

    /// Whether a node is a folder that may be given children.
    #[tactic(auto, unfolding(crate::specs::Entries::takes_children))]
    fn takes_children(&self, node: Node) -> bool
        ensures { result ≡ takes_children node self.now }
    {
        node.number() != 0
            && match self.item_of(node) {
                Some(item) => item.kind().is_folder(),
                None => false,
            }
    }

    /// Whether there is such a place among the children of a parent.
    #[tactic(auto, unfolding(crate::specs::Entries::is_place, crate::specs::Entries::above))]
    fn is_place(&self, parent: Node, before: &Option<Node>) -> bool
        ensures { result ≡ is_place parent before.now self.now }
    {
        match *before {
            None => true,
            Some(node) => match self.parent(node) {
                Some(above) => parent == above,
                None => false,
            },
        }
    }

    /// Whether an id is there.
    fn has_id(&self, id: &Id) -> bool
        ensures { result ≡ has id.now (entry_ids self.now) }
    {
        self.find(id).is_some()
    }

    /// Why an item isn't inserted.
    #[tactic(auto, unfolding(crate::specs::Entries::insert_fault))]
    fn insert_fault(&self, parent: Node, before: &Option<Node>, id: &Id) -> Option<TreeFault>
        ensures { result ≡ insert_fault self.now parent before.now id.now }
    {
        if !self.takes_children(parent) {
            return Some(TreeFault::NotFolder);
        }
        if self.has_id(id) {
            return Some(TreeFault::Twice);
        }
        if !self.is_place(parent, before) {
            return Some(TreeFault::BadPlace);
        }
        None
    }

    /// Why a node isn't moved.
    #[tactic(auto, unfolding(crate::specs::Entries::move_fault))]
    fn move_fault(&self, node: Node, parent: Node, before: &Option<Node>) -> Option<MoveFault>
        ensures { result ≡ move_fault self.now node parent before.now }
    {
        if self.is_fixed(node) {
            return Some(MoveFault::Root);
        }
        if !self.takes_children(parent) {
            return Some(MoveFault::NotFolder);
        }
        if node == parent || self.is_under(parent, node) {
            return Some(MoveFault::Under);
        }
        if !self.is_place(parent, before) || is_node(node, before) {
            return Some(MoveFault::BadPlace);
        }
        None
    }

    /// Why a node isn't removed.
    #[tactic(auto, unfolding(crate::specs::Entries::remove_fault))]
    fn remove_fault(&self, node: Node) -> Option<RemoveFault>
        ensures { result ≡ remove_fault self.now node }
    {
        if self.is_fixed(node) {
            return Some(RemoveFault::Root);
        }
        if self.first(node).is_some() {
            return Some(RemoveFault::NotEmpty);
        }
        None
    }

    /// Puts an item under a folder, before one of its children or last, and gives its node. A place that a removed node
    /// has left is used again.
    pub fn insert(
        &mut self,
        alloc: Global,
        parent: Node,
        before: Option<Node>,
        item: Item,
        time: Stamp,
    ) -> Result<Node, TreeFault>
        ensures refused { MatchResult result (λ k. insert_fault self.old parent before item.id ≡ None) (λ e. (e ≡ Memory) ⊎ (insert_fault self.old parent before item.id ≡ Some e)) }
        ensures fresh { IfOk result (λ k. is_live k self.old ≡ false) }
        ensures entries { IfOk result (λ k. (j : ℕ) → entry j self.new ≡ (if j == k then Some (record { node = k; parent = Some parent; item = item; time = time }) else entry j self.old)) }
        ensures kids { IfOk result (λ k. (j : ℕ) → kids j self.new ≡ (if j == parent then put_before before k (kids j self.old) else kids j self.old)) }
        ensures unchanged { OnErr result (self.new ≡ self.old) }
    {
        if let Some(fault) = self.insert_fault(parent, &before, item.id()) {
            return Err(fault);
        }
        if self.cells.len() >= END - 1 {
            return Err(TreeFault::Memory);
        }
        if self.cells.reserve(1).is_err() {
            return Err(TreeFault::Memory);
        }
        let place = place_for(&self.cells, self.vacant);
        let node = Node::new(place);
        let Ok(()) = enter(alloc, &mut self.index, item.id(), node) else {
            return Err(TreeFault::Memory);
        };
        self.vacant = next_at(&self.cells, place);
        occupy(
            &mut self.cells,
            Entry {
                node,
                parent: Some(parent),
                item,
                time,
            },
        );
        let cells = self.cells.as_mut_slice();
        attach(cells, parent.number(), place, link_of(before));
        Ok(node)
    }

    /// Puts a node, with all below it, under a folder, before one of its children or last. It takes no memory.
    pub fn move_to(
        &mut self,
        node: Node,
        parent: Node,
        before: Option<Node>,
    ) -> Result<(), MoveFault>
        requires { IsTrue (is_live node self.old) }
        ensures refused { MatchResult result (λ _. move_fault self.old node parent before ≡ None) (λ e. move_fault self.old node parent before ≡ Some e) }
        ensures entries { OnOk result ((j : ℕ) → entry j self.new ≡ (if j == node then option_map (under parent) (entry j self.old) else entry j self.old)) }
        ensures kids { OnOk result ((j : ℕ) → kids j self.new ≡ (if j == parent then put_before before node (without_node node (kids j self.old)) else without_node node (kids j self.old))) }
        ensures unchanged { OnErr result (self.new ≡ self.old) }
    {
        if let Some(fault) = self.move_fault(node, parent, &before) {
            return Err(fault);
        }
        let Some(above) = self.parent(node) else {
            unreachable!();
        };
        let cells = self.cells.as_mut_slice();
        detach(cells, above.number(), node.number());
        set_parent(cells, node.number(), parent);
        attach(cells, parent.number(), node.number(), link_of(before));
        Ok(())
    }

    /// Takes a node without children away, and gives its item. It takes no memory. The node names none in the tree until
    /// its place is used again.
    pub fn remove(&mut self, node: Node) -> Result<Item, RemoveFault>
        requires { IsTrue (is_live node self.old) }
        ensures refused { MatchResult result (λ _. remove_fault self.old node ≡ None) (λ e. remove_fault self.old node ≡ Some e) }
        ensures item { IfOk result (λ item. option_map (λ e. e.item) (entry node self.old) ≡ Some item) }
        ensures entries { OnOk result ((j : ℕ) → entry j self.new ≡ (if node == j then None else entry j self.old)) }
        ensures kids { OnOk result ((j : ℕ) → kids j self.new ≡ without_node node (kids j self.old)) }
        ensures unchanged { OnErr result (self.new ≡ self.old) }
    {
        if let Some(fault) = self.remove_fault(node) {
            return Err(fault);
        }
        let Some(above) = self.parent(node) else {
            unreachable!();
        };
        let place = node.number();
        let cells = self.cells.as_mut_slice();
        detach(cells, above.number(), place);
        let item = vacate(cells, place, self.vacant);
        self.vacant = place;
        leave(&mut self.index, item.id());
        Ok(item)
    }

    /// Gives a node's item another content, with which it is fit, and another time. It takes no memory.
    pub fn set_item(&mut self, node: Node, content: Word, time: Stamp)
        requires inside { (node == 0) ≡ false }
        requires fit { is_fit_with content node self.old ≡ true }
        ensures entries { (j : ℕ) → entry j self.new ≡ (if j == node then option_map (revised_entry content time) (entry j self.old) else entry j self.old) }
        ensures kids { (j : ℕ) → kids j self.new ≡ kids j self.old }
    {
        revise(self.cells.as_mut_slice(), node.number(), content, time);
    }

    /// The node that comes once a node and all below it are done, at most so many levels up.
    fn after(&self, rounds: usize, node: Node) -> Option<Node>
        ensures { result ≡ after self.now rounds node }
    {
        let mut at = node;
        for _round in 0..rounds {
            if let Some(next) = self.next(at) {
                return Some(next);
            }
            match self.parent(at) {
                Some(parent) => at = parent,
                None => return None,
            }
        }
        None
    }

    /// The node that comes after one in preorder.
    fn follower(&self, rounds: usize, node: Node) -> Option<Node>
        ensures { result ≡ follower self.now rounds node }
    {
        match self.first(node) {
            Some(first) => Some(first),
            None => self.after(rounds, node),
        }
    }

    /// All nodes in preorder: `places` first, each before its children, and these in their order. It goes by the links,
    /// and keeps no stack.
    pub fn walk(&self, alloc: Global) -> Result<Vec<Node>, AllocError>
        ensures nodes { IfOk result (λ nodes. nodes.items ≡ preorder self.now (length self.now) 0) }
        ensures once { IfOk result (λ nodes. (k : ℕ) → times k nodes.items ≡ (if is_live k self.now then 1 else 0)) }
        ensures live { IfOk result (λ nodes. All (λ k. is_live k self.now ≡ true) nodes.items) }
        ensures kept { OnOk result (IsTree self.now) }
        ensures valid { OnOk result (IsValidTree (tree self.now)) }
    {
        let rounds = self.cells.len();
        let mut nodes = Vec::new(alloc);
        let mut at = Some(Node::new(0));
        while let Some(node) = at {
            nodes.push(node)?;
            at = self.follower(rounds, node);
        }
        Ok(nodes)
    }

    /// A node's children, in their order.
    pub fn children(&self, alloc: Global, node: Node) -> Result<Vec<Node>, AllocError>
        ensures nodes { IfOk result (λ nodes. nodes.items ≡ kids node self.now) }
        ensures live { IfOk result (λ nodes. All (λ k. is_live k self.now ≡ true) nodes.items) }
    {
        let _valid = &self.cells;
        let mut nodes = Vec::new(alloc);
        let mut at = self.first(node);
        while let Some(child) = at {
            nodes.push(child)?;
            at = self.next(child);
        }
        Ok(nodes)
    }

    /// The index of the ids, made anew with the same seed.
    fn copy_index(&self, alloc: Global) -> Result<HashMap<Id, Node, Seed>, AllocError>
        ensures { IfOk result (λ index. (x : List ℕ) → get bytes_eq index x ≡ node_of x self.now) }
    {
        let mut index = HashMap::with_hasher(alloc, *self.index.hasher());
        for place in 0..self.cells.len() {
            let node = Node::new(place);
            if let Some(item) = self.item_of(node) {
                enter(alloc, &mut index, item.id(), node)?;
            }
        }
        Ok(index)
    }

    pub fn copy(&self, alloc: Global) -> Result<Tree, AllocError>
        ensures { IfOk result (λ copied. copied ≡ self.now) }
    {
        let index = self.copy_index(alloc)?;
        let cells = copy_cells(alloc, &self.cells)?;
        Ok(Tree {
            cells,
            index,
            vacant: self.vacant,
        })
    }
}

fn is_node(node: Node, other: &Option<Node>) -> bool
    ensures { result ≡ is_node node other.now }
{
    match *other {
        Some(other) => node == other,
        None => false,
    }
}
