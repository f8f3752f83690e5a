//! Why an edit is refused.

ghost use Rattle.std.specs.Prelude.{◌≡◌};
ghost use Rattle.ss_device.specs.declared.faults.EditFault.TheVariants.{Memory};

use std::alloc::AllocError;

/// Why an edit is refused; of several causes the first in this order is given.
#[derive(Clone, Copy, Debug, PartialEq, Eq)]
pub enum EditFault {
    /// An item, or a parent, that the edit names isn't there.
    NoItem,
    /// It would rename, move or delete `places` or a root.
    Root,
    /// The parent is no folder, or is `places`.
    NotFolder,
    /// The parent is the item itself, or below it.
    Under,
    /// The id is there already.
    Twice,
    /// No memory.
    Memory,
}

impl From<AllocError> for EditFault {
    ghost from_gives = { λ _ e. e ≡ Memory };

    fn from(_: AllocError) -> EditFault {
        EditFault::Memory
    }
}
