//! What the parts of a request make of the rows that they name.

ghost use Rattle.std.specs.Prelude.{◌≡◌, ◌++◌, ◌∷◌, [], if◌then◌else◌, IfOk, OnOk, bytes_eq, filter_map, fold};
ghost use Rattle.std.specs.List.{list_any};
ghost use Rattle.indexmap.specs.IndexMap.{values};
ghost use Rattle.ss_bso.specs.Account.{row_at};
ghost use Rattle.ss_bso.specs.Write.{ids_of, parts_of, put_all};
ghost use Rattle.ss_query.specs.Told.{first_failures};
ghost use Rattle.ss_index.specs.Shelved.{rows_in};
ghost use Rattle.ss_writes.specs.Parts.{with_row};

use indexmap::IndexMap;
use ss_bso::{Part, Reason, Row, put};
use ss_index::Shelf;
use ss_text::{Id, Name, Stamp};
use std::alloc::{AllocError, Global};

fn has_failed(failed: &[(Id, Reason)], id: &Id) -> bool
    ensures { result ≡ list_any (λ failure. bytes_eq failure.0 id.now) failed.now }
{
    failed.iter().any(|failure| failure.0 == *id)
}

fn add_failure(
    alloc: Global,
    first: &mut Vec<(Id, Reason)>,
    failure: &(Id, Reason),
) -> Result<(), AllocError>
    ensures { OnOk result (first.new.items ≡ (if list_any (λ other. bytes_eq other.0 failure.now.0) first.old.items then
        first.old.items else first.old.items ++ failure.now ∷ [])) }
{
    if !has_failed(first.as_slice(), &failure.0) {
        first.push((failure.0.copy(alloc)?, failure.1))?;
    }
    Ok(())
}

/// The records that failed, each id once, with its first reason.
pub fn first_failures(
    alloc: Global,
    failed: &[(Id, Reason)],
) -> Result<Vec<(Id, Reason)>, AllocError>
    ensures { IfOk result (λ first. first.items ≡ first_failures failed.now) }
{
    let mut first = Vec::new(alloc);
    for failure in failed {
        add_failure(alloc, &mut first, failure)?;
    }
    Ok(first)
}

/// Puts a part over the row that was made of its id, or else over the old row.
fn put_part(
    alloc: Global,
    made: &mut IndexMap<Id, Row>,
    shelf: &Shelf,
    collection: &Name,
    part: &Part,
    stamp: Stamp,
) -> Result<(), AllocError>
    ensures { OnOk result (made.new.entries ≡ with_row collection.now (λ id. row_at collection.now id
        (rows_in shelf.now)) stamp made.old.entries part.now) }
{
    let old = match made.get(&part.id) {
        Some(row) => Some(row),
        None => shelf.get(collection, &part.id),
    };
    let row = put(alloc, old, collection, part, stamp)?;
    made.insert(part.id.copy(alloc)?, row)?;
    Ok(())
}

fn put_parts(
    alloc: Global,
    made: &mut IndexMap<Id, Row>,
    shelf: &Shelf,
    collection: &Name,
    parts: &[Part],
    stamp: Stamp,
) -> Result<(), AllocError>
    ensures { OnOk result (made.new.entries ≡ fold (with_row collection.now
        (λ id. row_at collection.now id (rows_in shelf.now)) stamp) made.old.entries parts.now) }
{
    for part in parts {
        put_part(alloc, made, shelf, collection, part, stamp)?;
    }
    Ok(())
}

/// The rows that were made, in the order of their ids.
fn into_rows(alloc: Global, made: IndexMap<Id, Row>) -> Result<Vec<Row>, AllocError>
    ensures { IfOk result (λ rows. rows.items ≡ values made) }
{
    made.into_values().collect(alloc)
}

/// The rows that parts and then further parts make of those of a shelf, one for each id, in the order of the ids: one
/// pass over the parts.
pub fn made_rows(
    alloc: Global,
    shelf: &Shelf,
    collection: &Name,
    first: &[Part],
    more: &[Part],
    stamp: Stamp,
) -> Result<Vec<Row>, AllocError>
    ensures { IfOk result (λ made. made.items ≡ filter_map (λ id. put_all collection.now
        (parts_of id (first.now ++ more.now)) stamp (row_at collection.now id (rows_in shelf.now)))
        (ids_of (first.now ++ more.now))) }
{
    let mut made = IndexMap::new(alloc);
    put_parts(alloc, &mut made, shelf, collection, first, stamp)?;
    put_parts(alloc, &mut made, shelf, collection, more, stamp)?;
    into_rows(alloc, made)
}
