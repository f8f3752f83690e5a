//! Whether rows have distinct ids.

ghost use Rattle.std.specs.Prelude.{◌≡◌, ◌↔◌, List, IfOk, IsTrue, map};
ghost use Rattle.ss_record.specs.Ids.{Apart};

use crate::places::word_of;
use indexmap::IndexSet;
use ss_record::Sheet;
use ss_seed::Seed;
use std::alloc::{AllocError, Global};

/// Whether no two rows have the same id, as `build` asks.
pub fn are_distinct(alloc: Global, sheets: &[Sheet]) -> Result<bool, AllocError>
    ensures { IfOk result (λ distinct. IsTrue distinct ↔ Apart (map (λ s. s.id) sheets.now)) }
{
    let mut ids = IndexSet::with_capacity_and_hasher(alloc, sheets.len(), Seed::random())?;
    for sheet in sheets {
        if !ids.insert(word_of(alloc, sheet.id.as_str())?)? {
            return Ok(false);
        }
    }
    Ok(true)
}
