//! Whether a write would take an account past its limits.

ghost use Rattle.std.specs.Prelude.{◌≡◌, ◌++◌, ℕ, List, length, not, filter, bytes_eq};
ghost use Rattle.ss_bso.specs.declared.rows.Row.{Row as RowValue};
ghost use Rattle.ss_bso.specs.Limits.{is_too_much};
ghost use Rattle.ss_bso.specs.Write.{rows_without, account_after_write, times_without};
ghost use Rattle.ss_query.specs.Effect.{is_over};
ghost use Rattle.ss_writes.specs.Parts.{IsSize};

use crate::rows::is_named;
use ss_bso::{Plain, Row};
use ss_text::{Id, Name};
use ss_writes::{Size, count_others};

/// The size of rows without those of these ids in a collection.
fn size_without(rows: &[Row], collection: &Name, ids: &[Id]) -> Size
    ensures { IsSize (rows_without collection.now ids.now rows.now) result }
{
    let mut size = Size::none();
    for row in rows {
        if !is_named(row, collection, ids) {
            size = size.with(row);
        }
    }
    size
}

/// A size with more rows.
fn size_with(mut size: Size, rows: &[Row]) -> Size
    ensures { (old : List RowValue) → IsSize old size → IsSize (old ++ rows.now) result }
{
    for row in rows {
        size = size.with(row);
    }
    size
}

/// The size of the rows of other collections.
fn size_elsewhere(rows: &[Row], collection: &Name) -> Size
    ensures { IsSize (filter (λ row. not (bytes_eq row.collection collection.now)) rows.now) result }
{
    let mut size = Size::none();
    for row in rows {
        if row.collection != *collection {
            size = size.with(row);
        }
    }
    size
}

/// Whether the account would pass its limits once rows take the place of those of these ids in a collection.
pub(crate) fn would_be_over(account: &Plain, collection: &Name, ids: &[Id], made: &[Row]) -> bool
    ensures { (time : ℕ) → result ≡ is_over (account_after_write account.now collection.now time
        (rows_without collection.now ids.now account.now.rows ++ made.now)) }
{
    let left = size_without(account.rows.as_slice(), collection, ids);
    let collections = count_others(account.collections.as_slice(), collection) + 1;
    size_with(left, made).is_full(collections)
}

/// Whether the account passes its limits without a collection.
pub(crate) fn would_stay_over(account: &Plain, collection: &Name) -> bool
    ensures { result ≡ is_too_much (filter (λ row. not (bytes_eq row.collection collection.now)) account.now.rows)
        (length (times_without collection.now account.now.collections)) }
{
    let left = size_elsewhere(account.rows.as_slice(), collection);
    left.is_full(count_others(account.collections.as_slice(), collection))
}
