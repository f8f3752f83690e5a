//! How a run ends.

ghost use Rattle.std.specs.Prelude.{◌≡◌};
ghost use Rattle.ss_run_audit.specs.Endings.{refused_end, status_of, told_end, unread_end};
ghost use Rattle.ss_run_audit.specs.declared.endings.Ending.TheVariants.{Memory};

use ss_audit::Verdict;
use ss_input::InputFault;
use ss_logs::LogFault;
use std::alloc::AllocError;
use std::fmt::{self, Display, Formatter, Write};

/// What people are told where no memory is found to tell them more.
pub(crate) const NO_MEMORY: &str = "syncstore: no memory was found\n";

/// How a run of `audit` ended. Lines are counted from 1.
#[derive(Clone, Copy, Debug, PartialEq, Eq)]
pub enum Ending {
    /// The logs are sound, and that was written: status 0.
    Sound,

    /// The words ask for no audit, and nothing was read or written: status 1.
    OtherWords,

    /// A read of the input failed: status 2.
    Input,

    /// A write of the output failed: status 3.
    Output,

    /// This line is not the next one of a log; where the input ends too early, it is the one behind the last. Status 5.
    BadLine { line: u64 },

    /// The input has more than 268,435,456 bytes: status 6.
    TooLong,

    /// The logs aren't sound, and where and why was written: status 7.
    Unsound,

    /// No memory: status 8.
    Memory,
}

impl Ending {
    /// The status of a run that ended so.
    pub fn status(self) -> u8
        ensures { result ≡ status_of self }
    {
        match self {
            Ending::Sound => 0,
            Ending::OtherWords => 1,
            Ending::Input => 2,
            Ending::Output => 3,
            Ending::BadLine { .. } => 5,
            Ending::TooLong => 6,
            Ending::Unsound => 7,
            Ending::Memory => 8,
        }
    }

    /// How a run ends that has told this verdict.
    pub(crate) fn of_verdict(verdict: &Verdict) -> Ending
        ensures { result ≡ told_end verdict.now }
    {
        match verdict {
            Verdict::Yes { .. } => Ending::Sound,
            Verdict::No { .. } => Ending::Unsound,
        }
    }
}

impl From<AllocError> for Ending {
    ghost from_gives = { λ _ ending. ending ≡ Memory };

    fn from(_: AllocError) -> Ending {
        Ending::Memory
    }
}

impl From<InputFault> for Ending {
    ghost from_gives = { λ fault ending. ending ≡ unread_end fault };

    fn from(fault: InputFault) -> Ending {
        match fault {
            InputFault::Failed => Ending::Input,
            InputFault::TooLong => Ending::TooLong,
            InputFault::Memory => Ending::Memory,
        }
    }
}

impl From<LogFault> for Ending {
    ghost from_gives = { λ fault ending. ending ≡ refused_end fault };

    fn from(fault: LogFault) -> Ending {
        match fault {
            LogFault::BadLine { n } => Ending::BadLine { line: n },
            LogFault::Memory => Ending::Memory,
        }
    }
}

impl Display for Ending {
    fn fmt<W: Write>(&self, f: &mut Formatter<W>) -> fmt::Result {
        match self {
            Ending::Sound => f.write_str("the logs are sound"),
            Ending::OtherWords => f.write_str("the words ask for no audit"),
            Ending::Input => f.write_str("the input can't be read"),
            Ending::Output => f.write_str("the output can't be written"),
            Ending::BadLine { line } => write!(f, "line {line} is not the next line of a log"),
            Ending::TooLong => f.write_str("the input has more than 268435456 bytes"),
            Ending::Unsound => f.write_str("the logs are not sound"),
            Ending::Memory => f.write_str("no memory"),
        }
    }
}
