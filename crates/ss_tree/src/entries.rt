//! Nodes, and items in their places.

ghost use Rattle.std.specs.Prelude.{◌≡◌};

use ss_record::Item;
use ss_text::Stamp;
use std::marker::Model;

/// A node of a tree: it stays the same while its item is moved or changed, until it is removed.
#[derive(Clone, Copy, Debug, PartialEq, Eq)]
pub struct Node {
    number: usize,
}

impl Model for Node {
    ghost use Rattle.std.specs.Prelude.{ℕ};

    ghost Value = { ℕ };

    ghost view = { λ n. n.number };

    ghost inverse = { λ n. record { number = n } };
}

impl Node {
    /// The node of a number; `places` is that of 0.
    pub fn new(number: usize) -> Node
        ensures { result ≡ number }
    {
        Node { number }
    }

    pub fn number(self) -> usize
        ensures { result ≡ self }
    {
        self.number
    }
}

/// An item in its place: its node, its parent's, and its time in hundredths of a second. Siblings stand in a list of
/// entries in their order.
#[derive(Drop, Debug)]
pub struct Entry {
    pub node: Node,
    pub parent: Option<Node>,
    pub item: Item,
    pub time: Stamp,
}
