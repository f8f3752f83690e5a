//! Dials.

ghost use Rattle.std.specs.Prelude.{◌≡◌, ℕ, Option, List, IfOk};
ghost use Rattle.ss_links.specs.Links.{IsUnusedLink};
ghost use Rattle.ss_links.specs.Dials.{Address, HungLink, HasAsked, HasCause, HasHung, HangUpCounts};

use ss_outside::{Sink, Source};

/// Why no link was made.
#[derive(Clone, Copy, Debug, PartialEq, Eq)]
pub enum DialFault {
    /// The dial failed; it counts this.
    Fault,
    /// Memory ran out.
    Memory,
}

/// Makes links to hosts, and takes them back.
pub trait Dial {
    type Link: Source + Sink;

    /// How many of its calls failed, or took a link back of which a read or write had failed.
    ghost dial_faults: { Self → ℕ };

    /// The hosts and ports that it was asked for, in order, where it is told.
    ghost asked: { Self → Option (List Address) };

    /// What was taken from each link that was hung up, was left in it and was written to it, in order, where it is told.
    ghost hung: { Self → Option (List HungLink) };

    /// Makes a link to this port of this host: no byte of it was taken or written.
    fn dial(&mut self, host: &str, port: u16) -> Result<Self::Link, DialFault>
        ensures unused { IfOk result (λ link. IsUnusedLink (Self.Link.Told.told link)) }
        ensures asked { HasAsked (record { host = host.now; port = port }) result (asked self.old) (asked self.new) }
        ensures hung { hung self.new ≡ hung self.old }
        ensures cause { HasCause result (dial_faults self.old) (dial_faults self.new) };

    /// Ends a link.
    fn hang_up(&mut self, link: Self::Link)
        ensures asked { asked self.new ≡ asked self.old }
        ensures hung { HasHung (Self.Link.Told.told link) (hung self.old) (hung self.new) }
        ensures counted { HangUpCounts (Self.Link.Told.told link) (dial_faults self.old) (dial_faults self.new) };
}
