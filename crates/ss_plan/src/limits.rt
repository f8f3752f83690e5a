//! The limits of an upload, and what passes them.

ghost use Rattle.std.specs.Prelude.{◌≡◌};
ghost use Rattle.ss_plan.specs.declared.limits.PlanFault.TheVariants.{Memory};

use ss_text::Id;
use std::alloc::AllocError;

/// What a server takes at most (the members of its configuration, SyncStorage API 1.5).
#[derive(Clone, Copy, Debug)]
pub struct Limits {
    /// The bytes of a body.
    pub max_request_bytes: u64,
    /// The records of one POST.
    pub max_post_records: u64,
    /// The payload bytes of one POST.
    pub max_post_bytes: u64,
    /// The records of a batch.
    pub max_total_records: u64,
    /// The payload bytes of a batch.
    pub max_total_bytes: u64,
    /// The payload bytes of one record.
    pub max_record_payload_bytes: u64,
}

/// Why a plan isn't sent; of several causes the first in this order is given.
#[derive(Drop, Debug, PartialEq, Eq)]
pub enum PlanFault {
    /// This part is the first whose payload has too many bytes, n of them.
    RecordTooLarge { id: Id, n: u64 },
    /// This part is the first that makes too large a body alone, of n bytes.
    BodyTooLarge { id: Id, n: u64 },
    /// There are too many parts, n of them.
    TooManyRecords { n: u64 },
    /// The parts have too many payload bytes, n of them (counted up to the greatest u64).
    TooManyBytes { n: u64 },
    /// No memory.
    Memory,
}

impl From<AllocError> for PlanFault {
    ghost from_gives = { λ _ e. e ≡ Memory };

    fn from(_: AllocError) -> PlanFault {
        PlanFault::Memory
    }
}
