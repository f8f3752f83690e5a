//! Why a keeper refused.

ghost use Rattle.std.specs.Prelude.{◌≡◌};
ghost use Rattle.ss_keeper.specs.declared.faults.KeepFault.TheVariants.{Memory};

use std::alloc::AllocError;
use thiserror::Error;

/// Why a keeper refused a call.
#[derive(Clone, Copy, Debug, PartialEq, Eq, Error)]
pub enum KeepFault {
    /// What it keeps on refused the call; the keeper counts it.
    #[error("the keeper refused")]
    Fault,

    #[error("out of memory")]
    Memory,
}

impl From<AllocError> for KeepFault {
    ghost from_gives = { λ _ fault. fault ≡ Memory };

    fn from(_error: AllocError) -> KeepFault {
        KeepFault::Memory
    }
}
