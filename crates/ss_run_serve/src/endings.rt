//! How a run of `serve` ends.

ghost use Rattle.std.specs.Prelude.{◌≡◌};
ghost use Rattle.ss_run_serve.specs.Statuses.{status_of};

use crate::stop::Stop;

/// How a run of `serve` ended.
#[derive(Clone, Copy, Debug, PartialEq, Eq)]
pub enum Ending {
    /// The words ask for a server, and this is why it stopped: status 0, 2, 3, 4, 7 or 8, as `Stop` says.
    Stopped(Stop),

    /// The words ask for another command, or for nothing, and nothing was done: status 1.
    OtherWords,

    /// No memory was found to read the words, and nothing was done: status 8.
    Memory,
}

impl Ending {
    /// The status of a run that ended so.
    pub fn status(self) -> u8
        ensures { result ≡ status_of self }
    {
        match self {
            Ending::Stopped(stop) => stop.status(),
            Ending::OtherWords => 1,
            Ending::Memory => 8,
        }
    }
}
