//! The two sides of a merge.

ghost use Rattle.std.specs.Prelude.{◌≡◌};
ghost use Rattle.ss_dupe.specs.Sides.{other};

/// A side of a merge.
#[derive(Clone, Copy, PartialEq, Eq, Debug)]
pub enum Side {
    Local,
    Remote,
}

impl Side {
    /// The other side.
    pub fn other(self) -> Side
        ensures { result ≡ other self }
    {
        match self {
            Side::Local => Side::Remote,
            Side::Remote => Side::Local,
        }
    }
}
