//! Why a dump is refused, and why a keeper isn't filled.

ghost use Rattle.std.specs.Prelude.{◌≡◌};
ghost use Rattle.ss_dump.specs.declared.faults.DumpFault.TheVariants.{Memory};
ghost use Rattle.ss_dump.specs.declared.faults.LineFault.TheVariants.{Memory as NoMemory};
ghost use Rattle.ss_dump.specs.Undumped.{of_line};
ghost use Rattle.ss_dump.specs.declared.faults.RefillFault.TheVariants.{Memory as NoRoom};

use ss_text::Word;
use std::alloc::AllocError;
use thiserror::Error;

/// Why a text is no dump; the first cause that there is, in this order.
#[derive(Drop, Debug, Error)]
pub enum DumpFault {
    /// This line, from 1, is the first that isn't the next line of a dump; where the lines end too early it is the one
    /// behind the last.
    #[error("line {n} is not the next line of a dump")]
    BadLine { n: u64 },

    /// The digest that the text states isn't that of its lines.
    #[error("the digest of what stands before it is not the one that is stated")]
    BadDigest { stated: Word, found: Word },

    /// No account can be opened from what is told, for its collection of this number, from 1.
    #[error("collection {n} is doubled, too late or one too many")]
    BadCollection { n: u64 },

    /// The same for its row of this number.
    #[error("row {n} is doubled, without a collection, too late or one too many")]
    BadRow { n: u64 },

    /// The same for its batch of this number.
    #[error("batch {n} is one too many, doubled, of no number that was given out, or too large")]
    BadBatch { n: u64 },

    #[error("out of memory")]
    Memory,
}

impl From<AllocError> for DumpFault {
    ghost from_gives = { λ _ fault. fault ≡ Memory };

    fn from(_error: AllocError) -> DumpFault {
        DumpFault::Memory
    }
}

/// Why no dump stands at the front of a text.
#[derive(Clone, Copy, Debug, PartialEq, Eq, Error)]
pub enum LineFault {
    /// This line, from 1, is the first that isn't the next line of a dump; where the lines end too early it is the one
    /// behind the last.
    #[error("line {n} is not the next line of a dump")]
    BadLine { n: u64 },

    #[error("out of memory")]
    Memory,
}

impl From<LineFault> for DumpFault {
    ghost from_gives = { λ fault dump. dump ≡ of_line fault };

    fn from(fault: LineFault) -> DumpFault {
        match fault {
            LineFault::BadLine { n } => DumpFault::BadLine { n },
            LineFault::Memory => DumpFault::Memory,
        }
    }
}

impl From<AllocError> for LineFault {
    ghost from_gives = { λ _ fault. fault ≡ NoMemory };

    fn from(_error: AllocError) -> LineFault {
        LineFault::Memory
    }
}

/// Why a keeper isn't filled.
#[derive(Clone, Copy, Debug, PartialEq, Eq, Error)]
pub enum RefillFault {
    /// It has a row, a collection, a batch or a number other than 0.
    #[error("the account is not a fresh one")]
    NotFresh,

    /// What it keeps on refused a call; the keeper counts it.
    #[error("the keeper refused")]
    Keeper,

    #[error("out of memory")]
    Memory,
}

impl From<AllocError> for RefillFault {
    ghost from_gives = { λ _ fault. fault ≡ NoRoom };

    fn from(_error: AllocError) -> RefillFault {
        RefillFault::Memory
    }
}
