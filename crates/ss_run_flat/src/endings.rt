//! How a run ends.

ghost use Rattle.std.specs.Prelude.{◌≡◌};
ghost use Rattle.ss_run_flat.specs.Endings.{ending_of, status_of};
ghost use Rattle.ss_run_flat.specs.declared.endings.Ending.TheVariants.{Memory};

use ss_input::InputFault;
use std::alloc::AllocError;
use std::fmt::{self, Display, Formatter, Write};

/// What people are told where no memory is found to tell them more.
pub(crate) const NO_MEMORY: &str = "syncstore: no memory was found\n";

/// How a run of `flat` ended. Lines are counted from 1.
#[derive(Clone, Copy, Debug, PartialEq, Eq)]
pub enum Ending {
    /// All was written: status 0.
    Done,

    /// The words ask for no kind of rows, and nothing was read or written: status 1.
    OtherWords,

    /// A read of the input failed: status 2.
    Input,

    /// A write of the output failed: status 3.
    Output,

    /// The input ended where this line was awaited: status 4.
    Cut { line: u64 },

    /// This line is no row, nor the end; or it stands behind the end. Status 5.
    BadLine { line: u64 },

    /// The input has more than 268,435,456 bytes: status 6.
    TooLong,

    /// No memory: status 8.
    Memory,
}

impl Ending {
    /// The status of a run that ended so.
    pub fn status(self) -> u8
        ensures { result ≡ status_of self }
    {
        match self {
            Ending::Done => 0,
            Ending::OtherWords => 1,
            Ending::Input => 2,
            Ending::Output => 3,
            Ending::Cut { .. } => 4,
            Ending::BadLine { .. } => 5,
            Ending::TooLong => 6,
            Ending::Memory => 8,
        }
    }
}

impl From<AllocError> for Ending {
    ghost from_gives = { λ _ ending. ending ≡ Memory };

    fn from(_: AllocError) -> Ending {
        Ending::Memory
    }
}

impl From<InputFault> for Ending {
    ghost from_gives = { λ fault ending. ending ≡ ending_of fault };

    fn from(fault: InputFault) -> Ending {
        match fault {
            InputFault::Failed => Ending::Input,
            InputFault::TooLong => Ending::TooLong,
            InputFault::Memory => Ending::Memory,
        }
    }
}

impl Display for Ending {
    fn fmt<W: Write>(&self, f: &mut Formatter<W>) -> fmt::Result {
        match self {
            Ending::Done => f.write_str("done"),
            Ending::OtherWords => f.write_str("the words ask for no kind of rows"),
            Ending::Input => f.write_str("the input can't be read"),
            Ending::Output => f.write_str("the output can't be written"),
            Ending::Cut { line } => write!(f, "the input ends before line {line} is whole"),
            Ending::BadLine { line } => write!(
                f,
                "line {line} is no row, as [\"row\",\"10.00\",\"h1\",\"{{}}\"], nor the end behind all rows"
            ),
            Ending::TooLong => f.write_str("the input has more than 268435456 bytes"),
            Ending::Memory => f.write_str("no memory"),
        }
    }
}
