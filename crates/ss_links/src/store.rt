//! Stores of named files.

ghost use Rattle.std.specs.Prelude.{◌≡◌, ℕ, Option, List, IfOk, OnOk, OnErr, option_map, string_bytes};
ghost use Rattle.ss_links.specs.Stores.{Files, IsEntry, HasSaved, HasCause};
ghost use Rattle.ss_links.specs.declared.store.StoreFault.TheVariants.{Memory};

use std::alloc::{AllocError, Global};

/// Why a store refused.
#[derive(Clone, Copy, Debug, PartialEq, Eq)]
pub enum StoreFault {
    /// The store failed; it counts this.
    Fault,
    /// Memory ran out.
    Memory,
}

impl From<AllocError> for StoreFault {
    ghost from_gives = { λ _ fault. fault ≡ Memory };

    fn from(_error: AllocError) -> StoreFault {
        StoreFault::Memory
    }
}

/// Files by their names.
pub trait Store {
    /// The files, where they are told.
    ghost held: { Self → Option Files };

    /// How many of its calls failed.
    ghost store_faults: { Self → ℕ };

    /// The bytes of the file with this name; None where there is none.
    fn load(&mut self, alloc: Global, name: &str) -> Result<Option<Vec<u8>>, StoreFault>
        ensures entry { IfOk result (λ file. IsEntry name.now file (held self.old)) }
        ensures left { held self.new ≡ held self.old }
        ensures cause { HasCause result (store_faults self.old) (store_faults self.new) };

    /// Makes these bytes the file with this name, and leaves all others. After an Err all files are as before.
    fn save(&mut self, alloc: Global, name: &str, bytes: &[u8]) -> Result<(), StoreFault>
        ensures saved { OnOk result (HasSaved name.now bytes.now (held self.old) (held self.new)) }
        ensures refused { OnErr result (held self.new ≡ held self.old) }
        ensures cause { HasCause result (store_faults self.old) (store_faults self.new) };
}
