//! How a sync ended, as it is told.

ghost use Rattle.std.specs.Prelude.{◌≡◌};
ghost use Rattle.ss_run_sync.specs.Endings.{ending_told, line_told, Prints};

use crate::endings::{Ending, Trouble};
use ss_outside::{Sink, write_all};

/// An end that is to be told, with its line; that of a trouble takes no memory.
#[derive(Drop)]
pub(crate) enum Report {
    Line { ending: Ending, line: Vec<u8> },
    Short(Trouble),
}

impl Report {
    /// The end that is told.
    fn ending(self) -> Ending
        ensures { result ≡ ending_told self }
    {
        match self {
            Report::Line { ending, .. } => ending,
            Report::Short(trouble) => Ending::Failed(trouble),
        }
    }

    fn line(&self) -> &[u8]
        ensures { result.now ≡ line_told self.now }
    {
        match self {
            Report::Line { line, .. } => line.as_slice(),
            Report::Short(trouble) => trouble.line(),
        }
    }

    /// Prints the line, and answers how the run ends that does.
    pub(crate) fn print<T: Sink>(self, output: &mut T) -> Ending
        ensures { Prints (ending_told self) (line_told self) result (T.Told.told output.old)
            (T.Told.told output.new) }
    {
        let printed = write_all(output, self.line());
        match printed {
            Ok(()) => self.ending(),
            Err(_) => Ending::Unprinted,
        }
    }
}
