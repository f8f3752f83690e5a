//! Why an account isn't opened.

ghost use Rattle.std.specs.Prelude.{◌≡◌};
ghost use Rattle.ss_account.specs.declared.faults.OpenFault.TheVariants.{Memory};

use std::alloc::AllocError;
use thiserror::Error;

/// Why an account isn't opened.
#[derive(Clone, Copy, Debug, PartialEq, Eq, Error)]
pub enum OpenFault {
    /// What the keeper keeps on refused the call; the keeper counts it.
    #[error("the keeper refused")]
    Keeper,

    /// The collection of this number, counted from 1, is the first that is doubled, is later than the store's time or
    /// comes after 200,000 others.
    #[error("collection {n} is doubled, too late or one too many")]
    BadCollection { n: u64 },

    /// The row of this number, counted from 1, is the first that is doubled, has no collection, is later than its
    /// collection, or is the one with which the rows pass 134,217,728 payload bytes, or rows and collections 200,000.
    #[error("row {n} is doubled, without a collection, too late or one too many")]
    BadRow { n: u64 },

    /// The batch of this number, counted from 1, is the first that is the fifth or later, has the number of one before
    /// it, the number 0 or one that wasn't given out, or more than 20,000 records or 16,777,216 payload bytes.
    #[error("batch {n} is one too many, doubled, of no number that was given out, or too large")]
    BadBatch { n: u64 },

    #[error("out of memory")]
    Memory,
}

impl From<AllocError> for OpenFault {
    ghost from_gives = { λ _ fault. fault ≡ Memory };

    fn from(_error: AllocError) -> OpenFault {
        OpenFault::Memory
    }
}
