//! Ids among the deleted.

ghost use Rattle.std.specs.Prelude.{◌≡◌, ℕ, List, Some, None, IfOk, OnOk, if◌then◌else◌};
ghost use Rattle.std.specs.BTreeMap.{IsOrdered, get};
ghost use Rattle.ss_text.specs.Texts.{text_cmp};
ghost use Rattle.ss_record.specs.Ids.{has};
ghost use Rattle.ss_build.specs.Built.{or_else};

use ss_text::{Id, Stamp};
use std::alloc::{AllocError, Global};
use std::collections::BTreeMap;

/// These ids, each with this time.
fn graves(alloc: Global, ids: &[Id], time: Stamp) -> Result<BTreeMap<Id, Stamp>, AllocError>
    ensures told { IfOk result (λ m. (y : List ℕ) → get text_cmp m y ≡ (if has y ids.now then Some time else None)) }
    ensures ordered { IfOk result (λ m. IsOrdered text_cmp m) }
{
    let mut graves = BTreeMap::new(alloc);
    for id in ids {
        graves.insert(id.copy(alloc)?, time)?;
    }
    Ok(graves)
}

/// Those that are there, and the older ones whose ids aren't.
fn with_older(
    alloc: Global,
    graves: BTreeMap<Id, Stamp>,
    older: &BTreeMap<Id, Stamp>,
) -> Result<BTreeMap<Id, Stamp>, AllocError>
    requires { IsOrdered text_cmp graves }
    ensures told { IfOk result (λ m. (y : List ℕ) → get text_cmp m y ≡ or_else (get text_cmp graves y)
        (get text_cmp older.now y)) }
    ensures ordered { IfOk result (λ m. IsOrdered text_cmp m) }
{
    let mut graves = graves;
    for (id, time) in older.iter() {
        if !graves.contains_key(id) {
            graves.insert(id.copy(alloc)?, *time)?;
        }
    }
    Ok(graves)
}

/// The deleted ids with some more, which have this time.
pub(crate) fn buried(
    alloc: Global,
    ids: &[Id],
    time: Stamp,
    older: &BTreeMap<Id, Stamp>,
) -> Result<BTreeMap<Id, Stamp>, AllocError>
    ensures told { IfOk result (λ m. (y : List ℕ) → get text_cmp m y ≡
        (if has y ids.now then Some time else get text_cmp older.now y)) }
    ensures ordered { IfOk result (λ m. IsOrdered text_cmp m) }
{
    let graves = graves(alloc, ids, time)?;
    with_older(alloc, graves, older)
}
