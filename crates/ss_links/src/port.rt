//! Ports.

ghost use Rattle.std.specs.Prelude.{◌≡◌, OnOk, IfOk};
ghost use Rattle.ss_links.specs.Links.{IsUnusedLink};
ghost use Rattle.ss_links.specs.Ports.{Accepts, HasAccepted, IfLink};

use crate::link::Closable;

/// What a port gives.
#[derive(Drop, Debug)]
pub enum Accepted<L> {
    /// The next link.
    Link(L),
    /// The port rests: it asks for the end of a term, and goes on after it.
    Rest,
    /// The port's end.
    End,
}

/// Why a port gave no link.
#[derive(Clone, Copy, Debug, PartialEq, Eq)]
pub enum PortFault {
    /// The port failed; it counts this.
    Fault,
    /// Memory ran out.
    Memory,
}

/// Where links come from.
pub trait Port {
    type Link: Closable;

    /// How many of its calls failed, how many found its end, how many links it gave, and how often it rested.
    ghost counts: { Self → Accepts };

    /// Waits for the next link.
    fn accept(&mut self) -> Result<Accepted<Self::Link>, PortFault>
        ensures counted { HasAccepted result (counts self.old) (counts self.new) }
        ensures unused { IfOk result (λ given. IfLink given (λ link. IsUnusedLink (Self.Link.Told.told link))) };
}
