//! Whether an account is valid.

ghost use Rattle.std.specs.Prelude.{◌≡◌, ◌↔◌, ◌&&◌, ◌||◌, ◌==◌, ℕ, List, not, is_none, Some, IfOk, OnOk, IfSome};
ghost use Rattle.std.specs.Prelude.{IsSome, IsTrue, bytes_eq, if◌then◌else◌};
ghost use Rattle.std.specs.HashMap.{get};
ghost use Rattle.std.specs.List.{list_any};
ghost use Rattle.ss_bso.specs.Account.{time_of};
ghost use Rattle.ss_bso.specs.Lists.{Apart, Each, Pairs};
ghost use Rattle.ss_bso.specs.Validity.{IsValid, IsValidBatch, IsWithinLimits};
ghost use Rattle.ss_writes.specs.Parts.{or_else};
ghost use Rattle.ss_audit.specs.Validity.{HasValidBatches, HasValidParts, HasValidTimes, IsItem, NamedApart};
ghost use Rattle.ss_audit.specs.Validity.{NumberedApart, is_placed};

use ss_bso::limits::MOST_LIVE_BATCHES;
use ss_bso::{Plain, Row, Staged};
use ss_text::{Id, Name, Stamp};
use ss_writes::{Size, is_fit};
use std::alloc::{AllocError, Global};
use std::collections::{HashMap, HashSet};

/// Where a row is: its collection and its id.
#[derive(Clone, Copy, PartialEq, Eq, Hash)]
pub(crate) struct Place<'a> {
    pub(crate) collection: &'a Name,
    pub(crate) id: &'a Id,
}

fn place_of(row: &Row) -> Place<'_>
    ensures collection { result.collection.now ≡ row.now.collection }
    ensures id { result.id.now ≡ row.now.id }
{
    Place {
        collection: &row.collection,
        id: &row.id,
    }
}

/// Notes the place of a row, and tells whether it is the first there.
fn add_place<'a>(places: &mut HashSet<Place<'a>>, row: &'a Row) -> Result<bool, AllocError>
    ensures first { IfOk result (λ is_first. is_first ≡ not (is_placed places.old.keys row.now.collection row.now.id)) }
    ensures places { OnOk result ((collection id : List ℕ) → is_placed places.new.keys collection id
        ≡ ((bytes_eq collection row.now.collection && bytes_eq id row.now.id) || is_placed places.old.keys collection
        id)) }
{
    let is_first = places.insert(place_of(row))?;
    Ok(is_first)
}

/// Whether no two rows are at one place.
fn are_apart(alloc: Global, rows: &[Row]) -> Result<bool, AllocError>
    ensures { IfOk result (λ apart. IsTrue apart ↔ Pairs Apart rows.now) }
{
    let mut places = HashSet::new(alloc);
    for row in rows {
        let is_first = add_place(&mut places, row)?;
        if !is_first {
            return Ok(false);
        }
    }
    Ok(true)
}

/// Notes the time of a collection, and tells whether it is the first of its name.
fn add_time(
    alloc: Global,
    times: &mut HashMap<Name, Stamp>,
    entry: &(Name, Stamp),
) -> Result<bool, AllocError>
    ensures first { IfOk result (λ is_first. is_first ≡ is_none (get bytes_eq times.old entry.now.0)) }
    ensures times { OnOk result ((name : List ℕ) → get bytes_eq times.new name
        ≡ (if bytes_eq entry.now.0 name then or_else (get bytes_eq times.old name) (Some entry.now.1) else get bytes_eq
        times.old name)) }
{
    if times.contains_key(&entry.0) {
        return Ok(false);
    }
    times.insert(entry.0.copy(alloc)?, entry.1)?;
    Ok(true)
}

/// The times of collections by name, where no two have one name.
fn times_by_name(
    alloc: Global,
    collections: &[(Name, Stamp)],
) -> Result<Option<HashMap<Name, Stamp>>, AllocError>
    ensures apart { IfOk result (λ found. IsSome found ↔ Pairs NamedApart collections.now) }
    ensures times { IfOk result (λ found. IfSome found (λ times. (name : List ℕ) → get bytes_eq times name
        ≡ time_of name collections.now)) }
{
    let mut times = HashMap::new(alloc);
    for entry in collections {
        let is_first = add_time(alloc, &mut times, entry)?;
        if !is_first {
            return Ok(None);
        }
    }
    Ok(Some(times))
}

/// Whether a row's collection is there and isn't older than the row, by the collections' times.
fn is_item(row: &Row, collections: &[(Name, Stamp)], times: &HashMap<Name, Stamp>) -> bool
    requires { (name : List ℕ) → get bytes_eq times.now name ≡ time_of name collections.now }
    ensures { IsTrue result ↔ IsItem collections.now row.now }
{
    match times.get(&row.collection) {
        Some(time) => row.modified.get() <= time.get(),
        None => false,
    }
}

/// Whether the collection of each row is there and isn't older than the row.
fn are_items(account: &Plain, times: &HashMap<Name, Stamp>) -> bool
    requires { (name : List ℕ) → get bytes_eq times.now name ≡ time_of name account.now.collections }
    ensures { IsTrue result ↔ Each (IsItem account.now.collections) account.now.rows }
{
    let collections = account.collections.as_slice();
    for row in account.rows.as_slice() {
        if !is_item(row, collections, times) {
            return false;
        }
    }
    true
}

/// Whether no collection is later than the store's last write, and this not later than the account's moment.
fn has_valid_times(account: &Plain) -> bool
    ensures { IsTrue result ↔ HasValidTimes account.now }
{
    for entry in account.collections.as_slice() {
        if entry.1.get() > account.store.get() {
            return false;
        }
    }
    account.store.get() <= account.moment.get()
}

/// Whether an account is within the limits on its rows and collections.
fn is_within_limits(account: &Plain) -> bool
    ensures { IsTrue result ↔ IsWithinLimits account.now }
{
    let mut size = Size::none();
    for row in account.rows.as_slice() {
        size = size.with(row);
    }
    !size.is_full(account.collections.as_slice().len())
}

/// Whether one of the batches has this number.
fn is_numbered(batches: &[Staged], number: u64) -> bool
    ensures { result ≡ list_any (λ other. other.number == number) batches.now }
{
    batches.iter().any(|other| other.number == number)
}

/// Whether no two batches have one number.
fn are_numbered_apart(batches: &[Staged]) -> bool
    ensures { IsTrue result ↔ Pairs NumberedApart batches.now }
{
    for (place, staged) in batches.iter().enumerate() {
        if is_numbered(&batches[..place], staged.number) {
            return false;
        }
    }
    true
}

/// Whether a batch's number was given out, and it began by now and is within the limits of a batch.
fn is_valid_batch(account: &Plain, staged: &Staged) -> bool
    ensures { IsTrue result ↔ IsValidBatch account.now staged.now }
{
    1 <= staged.number
        && staged.number <= account.counter
        && staged.begun.get() <= account.moment.get()
        && is_fit(staged.parts.as_slice())
}

/// Whether there are few batches, no two of one number, and each is valid.
fn has_valid_batches(account: &Plain) -> bool
    ensures { IsTrue result ↔ HasValidBatches account.now }
{
    let batches = account.batches.as_slice();
    if batches.len() > MOST_LIVE_BATCHES || !are_numbered_apart(batches) {
        return false;
    }
    for staged in batches {
        if !is_valid_batch(account, staged) {
            return false;
        }
    }
    true
}

/// Whether an account's times, its size and its batches are as a valid account's.
fn has_valid_parts(account: &Plain) -> bool
    ensures { IsTrue result ↔ HasValidParts account.now }
{
    has_valid_times(account) && is_within_limits(account) && has_valid_batches(account)
}

/// Whether an account is valid.
pub(crate) fn is_valid(alloc: Global, account: &Plain) -> Result<bool, AllocError>
    ensures { IfOk result (λ valid. IsTrue valid ↔ IsValid account.now) }
{
    if !has_valid_parts(account) {
        return Ok(false);
    }
    let apart = are_apart(alloc, account.rows.as_slice())?;
    if !apart {
        return Ok(false);
    }
    match times_by_name(alloc, account.collections.as_slice())? {
        Some(times) => Ok(are_items(account, &times)),
        None => Ok(false),
    }
}
