//! Why a device's file is refused.

ghost use Rattle.std.specs.Prelude.{◌≡◌};
ghost use Rattle.ss_device_file.specs.declared.faults.DeviceFault.TheVariants.{Memory};
ghost use Rattle.ss_device_file.specs.declared.faults.LinesFault.TheVariants.{Memory as NoRoom};

use ss_text::Id;
use std::alloc::AllocError;

/// Why a device's file is refused.
#[derive(Drop, Debug)]
pub enum DeviceFault {
    /// This line, from 1, isn't the next line of a file; where the lines end too early it is the one behind the last.
    BadLine { number: u64 },
    /// No line is bad; the first item that hasn't its place, the last one where some are missing, or the first of the
    /// mirror that is neither in the tree nor among the deleted.
    BadTree { id: Id },
    /// No memory.
    Memory,
}

impl From<AllocError> for DeviceFault {
    ghost from_gives = { λ _ e. e ≡ Memory };

    fn from(_: AllocError) -> DeviceFault {
        DeviceFault::Memory
    }
}

/// Why a text doesn't begin with the lines of a device's file.
#[derive(Clone, Copy, Debug, PartialEq, Eq)]
pub enum LinesFault {
    /// This line, from 1, isn't the next line of a file.
    Refused { number: u64 },
    /// The lines end before the end's; this is the number of the one behind the last.
    Cut { number: u64 },
    /// No memory.
    Memory,
}

impl From<AllocError> for LinesFault {
    ghost from_gives = { λ _ e. e ≡ NoRoom };

    fn from(_: AllocError) -> LinesFault {
        LinesFault::Memory
    }
}
