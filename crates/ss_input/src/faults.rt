//! Why an input is not read whole.

ghost use Rattle.std.specs.Prelude.{◌≡◌};

use std::alloc::AllocError;

/// Why an input is not read whole.
#[derive(Clone, Copy, Debug, PartialEq, Eq)]
pub enum InputFault {
    /// A read failed.
    Failed,

    /// There are more than 268,435,456 bytes.
    TooLong,

    /// No memory.
    Memory,
}

impl From<AllocError> for InputFault {
    ghost use Rattle.ss_input.specs.declared.faults.InputFault.TheVariants.{Memory};

    ghost from_gives = { λ _ fault. fault ≡ Memory };

    fn from(_: AllocError) -> InputFault {
        InputFault::Memory
    }
}
