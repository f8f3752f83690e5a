//! The chain and its calls.
ghost use Rattle.std.specs.Borrow.{sem};
ghost use Rattle.std.specs.Prelude.{ℕ, List, ◌^◌, ◌-◌, ◌≢◌, ◌==◌, ◌≡◌, ◌+◌, ◌<◌, ◌≤◌, [], ◌∷◌, ◌++◌, length, max, None};
ghost use Rattle.std.specs.Prelude.{Some, OnOk, OnErr, IsOk, IfSome, nat_eq};

use crate::at::At;
use crate::ends::Ends;
use crate::node::{self, END, Node};
use crate::steps::Steps;
use std::alloc::{AllocError, Global};
use std::marker::Model;
use std::sync::ledger::Ledger;

/// A doubly linked list in one `Vec`: nodes are linked by index, and free nodes hang on the same links.
///
/// It holds fewer than 2^32 - 1 nodes.
#[derive(Drop)]
pub struct Chain<T> {
    nodes: Vec<Node<T>>,
    ends: Ends,
    // The free node that is used first, or `END`.
    free: u32,
    // How many nodes are in the chain.
    len: u32,
    // How many nodes are free.
    spare: u32,
}

impl<T> Model for Chain<T> {
    ghost use Rattle.ss_list.specs.Chain.{Chain as Seen, chain_code};

    ghost Value = { Seen T };

    ghost coded = { chain_code T.code };

    ghost use Rattle.ss_list.specs.Links.{chain_of, IsSound};

    ghost view = { λ c. chain_of c.nodes.items c.ends c.free c.len c.spare };

    ghost invariant = { λ c. IsSound c.nodes.items c.ends c.free c.len c.spare };
}

impl<T> Chain<T> {
    ghost use Rattle.ss_list.specs.Chain.{places, value_of, IsLive, IsWhole, IsAfter, IsBefore, first_of, last_of};
    ghost use Rattle.ss_list.specs.Chain.{without, moved_back};
    ghost use Rattle.ss_list.specs.Lends.{lends_value};

    /// An empty chain, which takes no memory.
    pub fn new(alloc: Global) -> Chain<T>
        ensures empty { result.nodes ≡ [] }
        ensures no_spare { result.free ≡ [] }
    {
        Chain {
            nodes: Vec::new(alloc),
            ends: Ends {
                front: END,
                back: END,
            },
            free: END,
            len: 0,
            spare: 0,
        }
    }

    /// How many nodes are in the chain.
    pub fn len(&self) -> u32
        ensures value { result ≡ length self.now.nodes }
        ensures others_are_free { IsWhole self.now }
    {
        self.len
    }

    /// How many nodes are free, which is how many more calls of `push_back` there may be.
    pub fn spare(&self) -> u32
        ensures value { result ≡ length self.now.free }
        ensures others_are_free { IsWhole self.now }
    {
        self.spare
    }

    /// Whether no node is in the chain.
    pub fn is_empty(&self) -> bool
        ensures { result ≡ (length self.now.nodes == 0) }
    {
        self.len == 0
    }

    /// Makes free nodes, so that `spare` is at least `n`. Those that were free stay so, after the new.
    /// It alone takes memory. After an error the chain is as it was.
    pub fn reserve(&mut self, n: u32) -> Result<(), AllocError>
        requires { length self.old.nodes + n < 2 ^ 32 - 1 }
        ensures nodes { self.new.nodes ≡ self.old.nodes }
        ensures spare { OnOk result (length self.new.free ≡ max (length self.old.free) n) }
        ensures kept { (made : List ℕ) × (self.new.free ≡ made ++ self.old.free) }
        ensures err { OnErr result (self.new ≡ self.old) }
        ensures succeeds { n ≤ length self.old.free → IsOk result }
    {
        let missing = n.saturating_sub(self.spare);
        self.nodes.reserve(missing as usize)?;
        for _ in 0..missing {
            let made = self.nodes.len() as u32;
            self.nodes.push_reserved(Node {
                prev: END,
                next: self.free,
                value: None,
            });
            self.free = made;
            self.spare += 1;
        }
        Ok(())
    }

    /// Appends a node with this value. It uses the node that became free last, and takes no memory.
    pub fn push_back(&mut self, value: T) -> At
        requires { 0 < length self.old.free }
        ensures nodes { self.new.nodes ≡ self.old.nodes ++ (result, value) ∷ [] }
        ensures free { self.old.free ≡ result ∷ self.new.free }
        ensures fresh { value_of self.old result ≡ None }
        ensures value { value_of self.new result ≡ Some value }
        ensures others { (p : ℕ) → p ≢ result → value_of self.new p ≡ value_of self.old p }
    {
        let place = self.free;
        let nodes = self.nodes.as_mut_slice();
        self.free = node::occupy(nodes, place, value);
        self.ends.append(nodes, place);
        self.spare -= 1;
        self.len += 1;
        At::new(place)
    }

    /// Takes a node out of the chain and gives its value back. The node is the next that is used.
    pub fn remove(&mut self, at: At) -> T
        requires { IsLive self.old at }
        ensures value { value_of self.old at ≡ Some result }
        ensures nodes { self.new.nodes ≡ without at self.old.nodes }
        ensures free { self.new.free ≡ at ∷ self.old.free }
        ensures gone { value_of self.new at ≡ None }
        ensures others { (p : ℕ) → p ≢ at → value_of self.new p ≡ value_of self.old p }
    {
        let place = at.place();
        let nodes = self.nodes.as_mut_slice();
        self.ends.unlink(nodes, place);
        let value = node::vacate(nodes, place, self.free);
        self.free = place;
        self.len -= 1;
        self.spare += 1;
        value
    }

    /// Makes a node the last. It and every other node keep their places and values.
    pub fn move_back(&mut self, at: At)
        requires { IsLive self.old at }
        ensures nodes { self.new.nodes ≡ moved_back at self.old.nodes }
        ensures free { self.new.free ≡ self.old.free }
        ensures values { (p : ℕ) → value_of self.new p ≡ value_of self.old p }
    {
        let moved = at.place();
        let nodes = self.nodes.as_mut_slice();
        self.ends.unlink(nodes, moved);
        self.ends.append(nodes, moved);
    }

    /// The value of a node.
    pub fn get(&self, at: At) -> &T
        requires { IsLive self.now at }
        ensures { value_of self.now at ≡ Some result.now }
    {
        match &self.nodes[at.place() as usize].value {
            Some(value) => value,
            None => unreachable!(),
        }
    }

    /// The value of a node, to be changed.
    pub fn get_mut(&mut self, at: At) -> &mut T
        requires { IsLive self.old at }
        ensures* writes_back { sem 𝓛 (lends_value T.row self.entry at result) }
        ensures value { value_of self.old at ≡ Some result.now }
    {
        let place = at.place() as usize;
        self.nodes[place].value_mut()
    }

    /// The first node.
    pub fn front(&self) -> Option<At>
        ensures first { result ≡ first_of (places self.now) }
        ensures live { IfSome result (IsLive self.now) }
    {
        At::of_link(self.ends.front)
    }

    /// The last node.
    pub fn back(&self) -> Option<At>
        ensures last { result ≡ last_of (places self.now) }
        ensures live { IfSome result (IsLive self.now) }
    {
        At::of_link(self.ends.back)
    }

    /// The node after this one.
    pub fn next<L: Ledger>(&self, at: At, steps: &mut Steps<L>) -> Option<At>
        requires { IsLive self.now at }
        ensures neighbour { IsAfter (places self.now) at result }
        ensures live { IfSome result (IsLive self.now) }
        ensures one_step { steps.new ≡ steps.old + 1 }
    {
        steps.tick();
        At::of_link(self.nodes[at.place() as usize].next)
    }

    /// The node before this one.
    pub fn prev<L: Ledger>(&self, at: At, steps: &mut Steps<L>) -> Option<At>
        requires { IsLive self.now at }
        ensures neighbour { IsBefore (places self.now) at result }
        ensures live { IfSome result (IsLive self.now) }
        ensures one_step { steps.new ≡ steps.old + 1 }
    {
        steps.tick();
        At::of_link(self.nodes[at.place() as usize].prev)
    }
}
