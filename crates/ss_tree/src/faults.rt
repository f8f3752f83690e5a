//! Why a call on a tree is refused. Of several causes the first in the order Root, NotFolder, Under, Twice, BadPlace,
//! NotEmpty is given.

ghost use Rattle.std.specs.Prelude.{◌≡◌};
ghost use Rattle.ss_tree.specs.declared.faults.TreeFault.TheVariants.{Memory};

use std::alloc::AllocFailed;

/// Why an item isn't inserted.
#[derive(Clone, Copy, Debug, PartialEq, Eq)]
pub enum TreeFault {
    /// The parent is no folder, or is `places`.
    NotFolder,
    /// The id is there already.
    Twice,
    /// The item would stand before a node that is no child of the parent.
    BadPlace,
    /// No memory.
    Memory,
}

impl<T: Drop> From<AllocFailed<T>> for TreeFault {
    ghost from_gives = { λ _ e. e ≡ Memory };

    fn from(_: AllocFailed<T>) -> TreeFault {
        TreeFault::Memory
    }
}

/// Why an item isn't moved.
#[derive(Clone, Copy, Debug, PartialEq, Eq)]
pub enum MoveFault {
    /// It is `places` or a root.
    Root,
    /// The parent is no folder, or is `places`.
    NotFolder,
    /// The parent is the item itself, or below it.
    Under,
    /// The item would stand before a node that is no child of the parent, or before itself.
    BadPlace,
}

/// Why an item isn't removed.
#[derive(Clone, Copy, Debug, PartialEq, Eq)]
pub enum RemoveFault {
    /// It is `places` or a root.
    Root,
    /// It has children.
    NotEmpty,
}
