//! Why an event is refused.

ghost use Rattle.std.specs.Prelude.{◌≡◌};
ghost use Rattle.ss_world.specs.declared.faults.WorldFault.TheVariants.{Memory};

use ss_device::EditFault;
use std::alloc::AllocError;

/// Why an event is refused. Devices are numbered from 0.
#[derive(Drop, Debug)]
pub enum WorldFault {
    /// There is no device of this number.
    NoDevice { n: u32 },
    /// The device has no request under way.
    Idle { n: u32 },
    /// The device has a request under way.
    Busy { n: u32 },
    /// The request of others may change the bookmarks.
    Touches,
    /// The edit is refused.
    Edit(EditFault),
    /// No memory.
    Memory,
}

impl From<AllocError> for WorldFault {
    ghost from_gives = { λ _ e. e ≡ Memory };

    fn from(_: AllocError) -> WorldFault {
        WorldFault::Memory
    }
}
