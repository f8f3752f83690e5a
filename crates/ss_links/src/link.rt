//! Links.

ghost use Rattle.std.specs.Prelude.{◌≡◌, Bool, IsTrue};

use ss_outside::{Sink, Source};

/// A link: bytes come from it and go to it, until it is closed.
pub trait Closable: Source + Sink {
    /// Whether it was closed.
    ghost closed: { Self → Bool };

    /// Ends the link. What it tells stays, and so do its counts.
    fn close(&mut self)
        ensures told { Self.Told.told self.new ≡ Self.Told.told self.old }
        ensures closed { IsTrue (closed self.new) };

    /// Whether rules of waiting ended it, and not its client: for what people are told. Nothing is promised of it.
    fn is_dismissed(&self) -> bool;
}
