//! The kinds of collections, and what becomes of a row.

/// A collection without a tree.
#[derive(Clone, Copy, Debug, PartialEq, Eq)]
pub enum FlatKind {
    /// Pages that were visited: each has an address, a title and visits.
    History,

    /// What was entered in forms: each has a name and a value.
    Forms,
}

/// What became of a row.
#[derive(Clone, Copy, Debug, PartialEq, Eq)]
pub enum Sight {
    /// It counts.
    Taken,

    /// Its payload is nothing that is understood, and only its id is kept.
    Skipped,
}
