//! Ids in order.

ghost use Rattle.std.specs.Prelude.{◌≡◌, IfOk};
ghost use Rattle.ss_record.specs.Ids.{by_id};

use ss_text::{Id, Ids};
use std::alloc::AllocError;

/// The ids upwards by their bytes.
pub(crate) fn by_id(mut ids: Vec<Id>) -> Result<Ids, AllocError>
    ensures { IfOk result (λ ordered. ordered ≡ by_id ids.items) }
{
    ids.sort()?;
    Ok(Ids::new(ids))
}
