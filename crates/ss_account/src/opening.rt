//! Whether an account can be opened from what a keeper holds.

ghost use Rattle.std.specs.Prelude.{◌≡◌, ◌≤◌, ◌&&◌, ◌||◌, ◌==◌, ℕ, List, not, is_none, None, Some, Err, IfOk, OnOk};
ghost use Rattle.std.specs.Prelude.{IfErr, IfSome, bytes_eq, length, take, nat_le, nat_lt, false, if◌then◌else◌};
ghost use Rattle.std.specs.HashMap.{get};
ghost use Rattle.std.specs.List.{list_any};
ghost use Rattle.std.specs.Option.{option_map_or};
ghost use Rattle.ss_bso.specs.Batches.{fit};
ghost use Rattle.ss_outside.specs.Causes.{Rose};
ghost use Rattle.ss_bso.specs.declared.rows.Row.{Row as RowValue};
ghost use Rattle.ss_bso.specs.Account.{time_of};
ghost use Rattle.ss_bso.specs.Changes.{latest};
ghost use Rattle.ss_bso.specs.Limits.{is_too_much, most_live_batches, most_rows_and_collections};
ghost use Rattle.ss_keeper.specs.Calls.{with_load};
ghost use Rattle.ss_keeper.specs.Keeping.{TellsKept};
ghost use Rattle.ss_account.specs.declared.faults.OpenFault.TheVariants.{Keeper as OpenKeeper};
ghost use Rattle.ss_account.specs.Opening.{IsBatchesFault, IsFaultOf, IsGood, IsRowsFault, IsTimesFault, first_bad};
ghost use Rattle.ss_account.specs.Opening.{is_bad_batch, is_bad_collection, is_bad_row};
ghost use Rattle.ss_account.specs.Places.{is_placed};
ghost use Rattle.ss_writes.specs.Parts.{IsSize, or_else};

use crate::faults::OpenFault;
use crate::places::Place;
use ss_bso::limits::{MOST_LIVE_BATCHES, MOST_ROWS_AND_COLLECTIONS};
use ss_bso::{Kept, Row, Staged};
use ss_keeper::{KeepFault, Keeper};
use ss_text::{Name, Stamp};
use ss_writes::{Size, is_fit};
use std::alloc::{AllocError, Global};
use std::collections::{HashMap, HashSet};

/// Notes the time of a collection, and tells whether it is the first of its name.
fn add_time(
    alloc: Global,
    times: &mut HashMap<Name, Stamp>,
    entry: &(Name, Stamp),
) -> Result<bool, AllocError>
    ensures first { IfOk result (λ is_first. is_first ≡ is_none (get bytes_eq times.old entry.now.0)) }
    ensures times { OnOk result ((name : List ℕ) → get bytes_eq times.new name
        ≡ (if bytes_eq entry.now.0 name then or_else (get bytes_eq times.old name) (Some entry.now.1) else get bytes_eq
        times.old name)) }
{
    if times.contains_key(&entry.0) {
        return Ok(false);
    }
    times.insert(entry.0.copy(alloc)?, entry.1)?;
    Ok(true)
}

/// Whether the collection of this number, counted from 1, is bad.
fn is_bad_time(is_first: bool, n: u64, time: Stamp, last: u64) -> bool
    ensures { result ≡ (not is_first || (nat_lt last time || nat_lt most_rows_and_collections n)) }
{
    !is_first || time.get() > last || n > MOST_ROWS_AND_COLLECTIONS
}

/// The times of the collections by name, where none of them is bad.
fn times_of(
    alloc: Global,
    collections: &[(Name, Stamp)],
    store: Stamp,
) -> Result<HashMap<Name, Stamp>, OpenFault>
    ensures times { IfOk result (λ times. (name : List ℕ) → get bytes_eq times name ≡ time_of name collections.now) }
    ensures good { OnOk result (first_bad (is_bad_collection store) collections.now ≡ None) }
    ensures store { OnOk result (store ≤ 999999999999) }
    ensures bad { IfErr result (λ fault. IsTimesFault store collections.now fault) }
{
    let mut times = HashMap::new(alloc);
    let last = store.get();
    let mut n: u64 = 0;
    for entry in collections {
        n += 1;
        let is_first = add_time(alloc, &mut times, entry)?;
        if is_bad_time(is_first, n, entry.1, last) {
            return Err(OpenFault::BadCollection { n });
        }
    }
    Ok(times)
}

/// Whether a row's collection isn't there, or has an earlier time than the row.
fn is_astray(times: &HashMap<Name, Stamp>, row: &Row) -> bool
    ensures { result ≡ not (option_map_or (λ time. nat_le row.now.modified time)
        (get bytes_eq times.now row.now.collection) false) }
{
    match times.get(&row.collection) {
        Some(time) => row.modified.get() > time.get(),
        None => true,
    }
}

fn place_of(row: &Row) -> Place<'_>
    ensures collection { result.collection.now ≡ row.now.collection }
    ensures id { result.id.now ≡ row.now.id }
{
    Place {
        collection: &row.collection,
        id: &row.id,
    }
}

/// Notes the place of a row, and tells whether it is the first there.
fn add_place<'a>(places: &mut HashSet<Place<'a>>, row: &'a Row) -> Result<bool, AllocError>
    ensures first { IfOk result (λ is_first. is_first ≡ not (is_placed places.old.keys row.now.collection row.now.id)) }
    ensures places { OnOk result ((collection id : List ℕ) → is_placed places.new.keys collection id
        ≡ ((bytes_eq collection row.now.collection && bytes_eq id row.now.id) || is_placed places.old.keys collection
        id)) }
{
    let is_first = places.insert(place_of(row))?;
    Ok(is_first)
}

/// Whether a row is bad, where the rows up to it have this size.
fn is_bad(
    is_first: bool,
    times: &HashMap<Name, Stamp>,
    row: &Row,
    size: Size,
    collections: usize,
) -> bool
    ensures { (rows : List RowValue) → IsSize rows size
        → result ≡ (not is_first || (not (option_map_or (λ time. nat_le row.now.modified time)
        (get bytes_eq times.now row.now.collection) false) || is_too_much rows collections)) }
{
    !is_first || is_astray(times, row) || size.is_full(collections)
}

/// Whether none of the rows is bad, under collections whose times are noted by name.
fn check_rows(
    alloc: Global,
    rows: &[Row],
    collections: &[(Name, Stamp)],
    times: &HashMap<Name, Stamp>,
) -> Result<(), OpenFault>
    requires { (name : List ℕ) → get bytes_eq times.now name ≡ time_of name collections.now }
    ensures good { OnOk result (first_bad (is_bad_row collections.now) rows.now ≡ None) }
    ensures bad { IfErr result (λ fault. IsRowsFault collections.now rows.now fault) }
{
    let mut places = HashSet::new(alloc);
    let mut size = Size::none();
    let mut n: u64 = 0;
    for row in rows {
        n += 1;
        size = size.with(row);
        let is_first = add_place(&mut places, row)?;
        if is_bad(is_first, times, row, size, collections.len()) {
            return Err(OpenFault::BadRow { n });
        }
    }
    Ok(())
}

/// Whether a batch has this number.
fn has_number(staged: &Staged, number: u64) -> bool
    ensures { result ≡ (staged.now.number == number) }
{
    staged.number == number
}

/// Whether one of the batches has this number.
fn is_numbered(batches: &[Staged], number: u64) -> bool
    ensures { result ≡ list_any (λ other. other.number == number) batches.now }
{
    batches.iter().any(|other| has_number(other, number))
}

/// Whether a batch of this number is one too many behind those before it, or has the number of one of them.
fn is_crowded(before: &[Staged], number: u64) -> bool
    ensures { result ≡ (nat_le most_live_batches (length before.now) || list_any (λ other. other.number == number)
        before.now) }
{
    before.len() >= MOST_LIVE_BATCHES || is_numbered(before, number)
}

/// Whether a batch has a number that wasn't given out, or is larger than a batch may be.
fn is_amiss(staged: &Staged, counter: u64) -> bool
    ensures { result ≡ ((staged.now.number == 0 || nat_lt counter staged.now.number) || not (fit staged.now.parts)) }
{
    (staged.number == 0 || counter < staged.number) || !is_fit(staged.parts.as_slice())
}

/// Whether a batch is bad behind so many before it.
fn is_bad_batch(batches: &[Staged], place: usize, staged: &Staged, counter: u64) -> bool
    requires { place ≤ length batches.now }
    ensures { result ≡ is_bad_batch counter (take place batches.now) staged.now }
{
    is_crowded(&batches[..place], staged.number) || is_amiss(staged, counter)
}

/// Whether none of the batches is bad, where so many were begun.
fn check_batches(batches: &[Staged], counter: u64) -> Result<(), OpenFault>
    ensures good { OnOk result (first_bad (is_bad_batch counter) batches.now ≡ None) }
    ensures bad { IfErr result (λ fault. IsBatchesFault counter batches.now fault) }
{
    let mut place = 0;
    for staged in batches {
        if is_bad_batch(batches, place, staged, counter) {
            let n = place as u64 + 1;
            return Err(OpenFault::BadBatch { n });
        }
        place += 1;
    }
    Ok(())
}

/// The latest of a time and of the begins of batches.
pub(crate) fn latest(time: Stamp, batches: &[Staged]) -> Stamp
    ensures { result ≡ latest time batches.now }
{
    let mut moment = time;
    for staged in batches {
        moment = moment.max(staged.begun);
    }
    moment
}

/// Whether an account can be opened from what is kept.
fn check(alloc: Global, kept: &Kept) -> Result<(), OpenFault>
    ensures good { OnOk result (IsGood kept.now) }
    ensures store { OnOk result (kept.now.store ≤ 999999999999) }
    ensures bad { IfErr result (λ fault. IsFaultOf kept.now fault) }
    ensures own { result ≡ Err OpenKeeper → ⊥ }
{
    let collections = kept.collections.as_slice();
    let times = times_of(alloc, collections, kept.store)?;
    check_rows(alloc, kept.rows.as_slice(), collections, &times)?;
    check_batches(kept.batches.as_slice(), kept.counter)
}

/// What a keeper holds, where an account can be opened from it.
pub(crate) fn load<K: Keeper>(alloc: Global, keeper: &mut K) -> Result<Kept, OpenFault>
    ensures told { IfOk result (λ kept. TellsKept kept (K.told keeper.old)) }
    ensures good { IfOk result (λ kept. IsGood kept) }
    ensures store { IfOk result (λ kept. kept.store ≤ 999999999999) }
    ensures bad { IfErr result (λ fault. IfSome (K.told keeper.old) (λ kept. IsFaultOf kept fault)) }
    ensures left { K.told keeper.new ≡ K.told keeper.old }
    ensures cause { result ≡ Err OpenKeeper → Rose (K.keep_faults keeper.old) (K.keep_faults keeper.new) }
    ensures quiet { (result ≡ Err OpenKeeper → ⊥) → K.keep_faults keeper.new ≡ K.keep_faults keeper.old }
    ensures faults { K.keep_faults keeper.old ≤ K.keep_faults keeper.new }
    ensures called { K.calls keeper.new ≡ with_load (K.calls keeper.old) }
{
    let kept = match keeper.load(alloc) {
        Ok(kept) => kept,
        Err(KeepFault::Fault) => return Err(OpenFault::Keeper),
        Err(KeepFault::Memory) => return Err(OpenFault::Memory),
    };
    check(alloc, &kept)?;
    Ok(kept)
}
