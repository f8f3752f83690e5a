//! How a run ends.

ghost use Rattle.std.specs.Prelude.{◌≡◌};
ghost use Rattle.ss_run_edit.specs.Endings.{ending_of, status_of};
ghost use Rattle.ss_run_edit.specs.declared.endings.Ending.TheVariants.{Memory};

use ss_device::EditFault;
use ss_input::InputFault;
use ss_text::Id;
use std::alloc::AllocError;
use std::fmt::{self, Display, Formatter, Write};

/// How a run of `edit` or `merge` ended. Lines are counted from 1, over the whole input.
#[derive(Drop, Debug)]
pub enum Ending {
    /// All was written: status 0.
    Done,

    /// The words ask for another command, or for nothing, and nothing was read or written: status 1.
    OtherWords,

    /// The item that the words would add isn't fit: its record would not read back as it. Status 1.
    Unfit,

    /// A read of the input failed: status 2.
    Input,

    /// A write of the output failed: status 3.
    Output,

    /// The input ended where this line was awaited: status 4.
    Cut { line: u64 },

    /// This line isn't the next line of the input's form: status 5.
    BadLine { line: u64 },

    /// No line of the device's file is bad, and this item has not its place in it: status 5.
    BadTree { id: Id },

    /// The device refuses the edit: status 5.
    Refused { fault: EditFault },

    /// The input has more than 268,435,456 bytes: status 6.
    TooLong,

    /// No memory: status 8.
    Memory,
}

impl Ending {
    /// The status of a run that ended so.
    pub fn status(&self) -> u8
        ensures { result ≡ status_of self.now }
    {
        match self {
            Ending::Done => 0,
            Ending::OtherWords | Ending::Unfit => 1,
            Ending::Input => 2,
            Ending::Output => 3,
            Ending::Cut { .. } => 4,
            Ending::BadLine { .. } | Ending::BadTree { .. } | Ending::Refused { .. } => 5,
            Ending::TooLong => 6,
            Ending::Memory => 8,
        }
    }
}

impl From<AllocError> for Ending {
    ghost from_gives = { λ _ e. e ≡ Memory };

    fn from(_: AllocError) -> Ending {
        Ending::Memory
    }
}

impl From<InputFault> for Ending {
    ghost from_gives = { λ fault e. e ≡ ending_of fault };

    fn from(fault: InputFault) -> Ending {
        match fault {
            InputFault::Failed => Ending::Input,
            InputFault::TooLong => Ending::TooLong,
            InputFault::Memory => Ending::Memory,
        }
    }
}

/// Why an edit is refused, in words.
fn reason(fault: EditFault) -> &'static str {
    match fault {
        EditFault::NoItem => "an item that the edit names isn't there",
        EditFault::Root => "a root can't be renamed, moved or deleted",
        EditFault::NotFolder => "the parent is no folder that takes items",
        EditFault::Under => "the parent is the item itself, or below it",
        EditFault::Twice => "the id is there already",
        EditFault::Memory => "no memory was found",
    }
}

impl Display for Ending {
    fn fmt<W: Write>(&self, f: &mut Formatter<W>) -> fmt::Result {
        match self {
            Ending::Done => f.write_str("done"),
            Ending::OtherWords => f.write_str("the words ask for something else"),
            Ending::Unfit => f.write_str("no item can have this id"),
            Ending::Input => f.write_str("the input can't be read"),
            Ending::Output => f.write_str("the output can't be written"),
            Ending::Cut { line } => write!(f, "the input ends before line {line} is whole"),
            Ending::BadLine { line } => write!(
                f,
                "line {line} isn't the next line of a device's file"
            ),
            Ending::BadTree { id } => {
                write!(f, "the item `{}` isn't where it belongs", id.as_str())
            }
            Ending::Refused { fault } => f.write_str(reason(*fault)),
            Ending::TooLong => f.write_str("the input has more than 268435456 bytes"),
            Ending::Memory => f.write_str("no memory was found"),
        }
    }
}
