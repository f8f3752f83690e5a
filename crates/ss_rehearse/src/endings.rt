//! How a run ends.

ghost use Rattle.std.specs.Prelude.{◌≡◌};
ghost use Rattle.ss_rehearse.specs.Endings.{Wrote, status_of};

use ss_outside::{Sink, write_all};
use std::fmt::{self, Display, Formatter, Write};

/// How a run of `rehearse` ended.
#[derive(Clone, Copy, Debug)]
pub enum Ending {
    /// All was written: status 0.
    Done,

    /// The words ask for another command, or for nothing, and nothing was written: status 1.
    OtherWords,

    /// A write of the output failed: status 3.
    Output,

    /// No memory: status 8.
    Memory,
}

impl Ending {
    /// The status of a run that ended so.
    pub fn status(self) -> u8
        ensures { result ≡ status_of self }
    {
        match self {
            Ending::Done => 0,
            Ending::OtherWords => 1,
            Ending::Output => 3,
            Ending::Memory => 8,
        }
    }
}

impl Display for Ending {
    fn fmt<W: Write>(&self, f: &mut Formatter<W>) -> fmt::Result {
        match self {
            Ending::Done => f.write_str("done"),
            Ending::OtherWords => f.write_str("the words ask for something else"),
            Ending::Output => f.write_str("the output can't be written"),
            Ending::Memory => f.write_str("no memory was found"),
        }
    }
}

/// Writes a text.
pub(crate) fn write_out<T: Sink>(text: &[u8], output: &mut T) -> Ending
    ensures { Wrote text.now result (T.Told.told output.old) (T.Told.told output.new) }
{
    match write_all(output, text) {
        Ok(()) => Ending::Done,
        Err(_) => Ending::Output,
    }
}
