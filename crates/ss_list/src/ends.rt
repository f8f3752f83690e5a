//! The two ends of a chain, and the links between neighbours.
ghost use Rattle.std.specs.Prelude.{◌≡◌, ◌<◌, ℕ, length, ◌≢◌, if◌then◌else◌, ◌==◌};
ghost use Rattle.ss_list.specs.Nodes.{value_at, SameElsewhere, SameBeside};
ghost use Rattle.ss_list.specs.Links.{next_of, prev_of, IsPlace, Becomes, Joins, Appends};

use crate::node::{END, Node};

/// The places of the first and the last node, or `END` twice.
#[derive(Drop)]
pub(crate) struct Ends {
    pub(crate) front: u32,
    pub(crate) back: u32,
}

impl Ends {
    /// Lets `next` come after the node at `place`, or be the first where `place` is `END`.
    fn set_next<T>(&mut self, nodes: &mut [Node<T>], place: u32, next: u32)
        requires { IsPlace nodes.old place }
        ensures next { Becomes (next_of nodes.old self.old) (next_of nodes.new self.new) place next }
        ensures prev { (p : ℕ) → prev_of nodes.new self.new p ≡ prev_of nodes.old self.old p }
        ensures value { (p : ℕ) → value_at nodes.new p ≡ value_at nodes.old p }
        ensures touched { SameElsewhere nodes.old nodes.new place }
    {
        if place == END {
            self.front = next;
        } else {
            nodes[place as usize].next = next;
        }
    }

    /// Lets `prev` come before the node at `place`, or be the last where `place` is `END`.
    fn set_prev<T>(&mut self, nodes: &mut [Node<T>], place: u32, prev: u32)
        requires { IsPlace nodes.old place }
        ensures next { (p : ℕ) → next_of nodes.new self.new p ≡ next_of nodes.old self.old p }
        ensures prev { Becomes (prev_of nodes.old self.old) (prev_of nodes.new self.new) place prev }
        ensures value { (p : ℕ) → value_at nodes.new p ≡ value_at nodes.old p }
        ensures touched { SameElsewhere nodes.old nodes.new place }
    {
        if place == END {
            self.back = prev;
        } else {
            nodes[place as usize].prev = prev;
        }
    }

    /// Makes two places neighbours, where `END` stands for the chain's ends. It touches no other node.
    pub(crate) fn join<T>(&mut self, nodes: &mut [Node<T>], left: u32, right: u32)
        requires left { IsPlace nodes.old left }
        requires right { IsPlace nodes.old right }
        ensures joined { Joins nodes.old self.old nodes.new self.new left right }
        ensures touched { SameBeside nodes.old nodes.new left right }
    {
        self.set_next(nodes, left, right);
        self.set_prev(nodes, right, left);
    }

    /// Takes the node at `place` out from between its neighbours, which become neighbours.
    pub(crate) fn unlink<T>(&mut self, nodes: &mut [Node<T>], place: u32)
        requires node { place < length nodes.old }
        requires inner { place ≢ END }
        requires left { IsPlace nodes.old (prev_of nodes.old self.old place) }
        requires right { IsPlace nodes.old (next_of nodes.old self.old place) }
        ensures joined { Joins nodes.old self.old nodes.new self.new (prev_of nodes.old self.old place) (next_of nodes.old self.old place) }
        ensures touched { SameBeside nodes.old nodes.new (prev_of nodes.old self.old place) (next_of nodes.old self.old place) }
    {
        let node = &nodes[place as usize];
        let (prev, next) = (node.prev, node.next);
        self.join(nodes, prev, next);
    }

    /// Makes the node at `place`, which is between no neighbours, the last.
    pub(crate) fn append<T>(&mut self, nodes: &mut [Node<T>], place: u32)
        requires node { IsPlace nodes.old place }
        requires last { IsPlace nodes.old self.old.back }
        ensures appended { Appends nodes.old self.old nodes.new self.new place }
        ensures touched { SameBeside nodes.old nodes.new self.old.back place }
    {
        self.join(nodes, self.back, place);
        self.join(nodes, place, END);
    }
}
