//! The name of a node.
ghost use Rattle.std.specs.Prelude.{◌≡◌, ◌==◌, if◌then◌else◌};

use crate::node::END;
use std::marker::Model;

/// Names a node of a chain by its place. The node keeps its place while it is in the chain.
#[derive(Clone, Copy, Debug, PartialEq, Eq, Hash)]
pub struct At {
    place: u32,
}

impl Model for At {
    ghost use Rattle.std.specs.Prelude.{ℕ};

    ghost Value = { ℕ };

    ghost view = { λ a. a.place };

    ghost inverse = { λ place. record { place = place } };
}

impl At {
    pub(crate) fn new(place: u32) -> At
        ensures { result ≡ place }
    {
        At { place }
    }

    /// The node that a link leads to, or `None` where it leads to an end.
    pub(crate) fn of_link(link: u32) -> Option<At>
        ensures { result ≡ (if link == END then None else Some link) }
    {
        if link == END {
            None
        } else {
            Some(At::new(link))
        }
    }

    pub(crate) fn place(self) -> u32
        ensures { result ≡ self }
    {
        self.place
    }
}
