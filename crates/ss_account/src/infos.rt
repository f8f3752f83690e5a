//! What is told of an account as a whole.

ghost use Rattle.std.specs.Prelude.{◌≡◌, map, IfOk};
ghost use Rattle.ss_query.specs.Told.{by_name};
ghost use Rattle.ss_bso.specs.Limits.{rows_of};
ghost use Rattle.ss_index.specs.Shelved.{rows_in};
ghost use Rattle.ss_account.specs.Steps.{counted_rows};

use ss_index::Shelf;
use ss_text::{Name, Stamp};
use std::alloc::{AllocError, Global};

/// What is counted of a collection.
#[derive(Clone, Copy)]
pub(crate) enum Measure {
    Records,
    Bytes,
}

impl Measure {
    fn of(self, shelf: &Shelf, collection: &Name) -> u64
        ensures { result ≡ counted_rows self (rows_of collection.now (rows_in shelf.now)) }
    {
        match self {
            Measure::Records => shelf.count_of(collection),
            Measure::Bytes => shelf.bytes_of(collection),
        }
    }
}

pub(crate) fn copies(
    alloc: Global,
    times: &[(Name, Stamp)],
) -> Result<Vec<(Name, Stamp)>, AllocError>
    ensures { IfOk result (λ copied. copied.items ≡ times.now) }
{
    let mut copied = Vec::with_capacity(alloc, times.len())?;
    for entry in times {
        copied.push((entry.0.copy(alloc)?, entry.1))?;
    }
    Ok(copied)
}

/// The collections, upwards by name.
pub(crate) fn by_name(
    alloc: Global,
    times: &[(Name, Stamp)],
) -> Result<Vec<(Name, Stamp)>, AllocError>
    ensures { IfOk result (λ ordered. ordered.items ≡ by_name times.now) }
{
    let mut ordered = copies(alloc, times)?;
    ordered.sort_by(|entry, other| entry.0.cmp(&other.0))?;
    Ok(ordered)
}

/// Each collection, upwards by name, with what its rows count, each up to the greatest u64.
pub(crate) fn per_collection(
    alloc: Global,
    shelf: &Shelf,
    times: &[(Name, Stamp)],
    measure: Measure,
) -> Result<Vec<(Name, u64)>, AllocError>
    ensures { IfOk result (λ numbers. numbers.items ≡ map (λ entry. (
      entry.0,
      counted_rows measure
          (rows_of entry.0 (rows_in shelf.now)),
    )) (by_name times.now)) }
{
    let ordered = by_name(alloc, times)?;
    let mut numbers = Vec::with_capacity(alloc, ordered.len())?;
    for entry in ordered.as_slice() {
        let number = measure.of(shelf, &entry.0);
        numbers.push((entry.0.copy(alloc)?, number))?;
    }
    Ok(numbers)
}
