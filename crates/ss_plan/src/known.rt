//! What was read of the rows, by id.

ghost use Rattle.std.specs.Prelude.{◌≡◌, ℕ, List, IfOk, bytes_eq, option_map};
ghost use Rattle.std.specs.HashMap.{get};
ghost use Rattle.ss_plan.specs.Plan.{reading_at};

use ss_record::Reading;
use ss_seed::Seed;
use ss_text::Id;
use std::alloc::{AllocError, Global};
use std::collections::HashMap;

/// What the rows say of their ids; of several rows of an id the first counts.
pub(crate) fn known<'a>(
    alloc: Global,
    readings: &'a [(Id, Reading)],
) -> Result<HashMap<Id, &'a Reading, Seed>, AllocError>
    ensures { IfOk result (λ known. (x : List ℕ) → option_map (λ r. r.now) (get bytes_eq known x)
        ≡ reading_at x readings.now) }
{
    let mut known = HashMap::with_hasher(alloc, Seed::random());
    let mut at = readings.len();
    while at > 0 {
        at -= 1;
        let (id, reading) = &readings[at];
        known.insert(id.copy(alloc)?, reading)?;
    }
    Ok(known)
}
