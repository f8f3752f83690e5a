//! Why a text isn't one of logs.

ghost use Rattle.std.specs.Prelude.{◌≡◌};
ghost use Rattle.ss_logs.specs.declared.faults.LogFault.TheVariants.{Memory};

use std::alloc::{AllocError, AllocFailed};
use thiserror::Error;

/// Why a text isn't one of logs, one behind the other.
#[derive(Clone, Copy, Debug, PartialEq, Eq, Error)]
pub enum LogFault {
    /// This line, from 1, is the first that isn't the next line of logs; where the lines end too early it is the one behind
    /// the last.
    #[error("line {n} is not the next line of a log")]
    BadLine { n: u64 },

    #[error("out of memory")]
    Memory,
}

impl From<AllocError> for LogFault {
    ghost from_gives = { λ _ fault. fault ≡ Memory };

    fn from(_error: AllocError) -> LogFault {
        LogFault::Memory
    }
}

impl<T: Drop> From<AllocFailed<T>> for LogFault {
    ghost from_gives = { λ _ fault. fault ≡ Memory };

    fn from(_error: AllocFailed<T>) -> LogFault {
        LogFault::Memory
    }
}
