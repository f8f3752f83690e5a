//! Why a batch is refused.

ghost use Rattle.std.specs.Prelude.{◌≡◌};
ghost use Rattle.ss_batch.specs.declared.faults.StageFault.TheVariants.{Memory};

use std::alloc::AllocError;
use thiserror::Error;

/// Why a call on the batches of an account is refused. A number is the total that was refused.
#[derive(Clone, Copy, Debug, PartialEq, Eq, Error)]
pub enum StageFault {
    /// No live batch has this number.
    #[error("no live batch has this number")]
    NotLive,

    /// The live batch of this number is of another collection.
    #[error("the batch is of another collection")]
    OtherCollection,

    /// A batch would have more than 20,000 records.
    #[error("{n} records in one batch, and at most 20000 are allowed")]
    TooManyRecords { n: u64 },

    /// A batch would have more than 16,777,216 payload bytes.
    #[error("{n} payload bytes in one batch, and at most 16777216 are allowed")]
    TooManyBytes { n: u64 },

    /// Four batches are live, or no number is left.
    #[error("no further batch may begin")]
    TooManyBatches,

    #[error("out of memory")]
    Memory,
}

impl From<AllocError> for StageFault {
    ghost from_gives = { λ _ fault. fault ≡ Memory };

    fn from(_error: AllocError) -> StageFault {
        StageFault::Memory
    }
}
