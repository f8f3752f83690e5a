//! Writes of rows.

ghost use Rattle.std.specs.Prelude.{◌≡◌, ◌<◌, ◌≤◌, ◌++◌, ◌∷◌, [], ℕ, not, true, false, filter, bytes_eq, IfOk};
ghost use Rattle.ss_bso.specs.Batches.{batches_elsewhere, batches_without};
ghost use Rattle.ss_bso.specs.Write.{ids_of, rows_without, account_after_write, times_with, times_without, write};
ghost use Rattle.ss_query.specs.Effect.{effect, is_empty, is_write, stamp_in};
ghost use Rattle.ss_query.specs.Refused.{staged_parts};
ghost use Rattle.ss_plain.specs.Steps.{within};

use crate::batches::end;
use crate::finding::{is_listed, staged_parts};
use crate::rows::{made_rows, rows_without};
use crate::sizes::{would_be_over, would_stay_over};
use ss_bso::{Batches, Fields, Part, Parts, Plain, Records, Row, Rows, Staged, Times};
use ss_query::{Mode, Request};
use ss_text::{Id, Name, Stamp};
use ss_writes::{Targets, copy_parts};
use std::alloc::{AllocError, Global};

/// Whether there is no part among parts and further parts.
fn are_none(first: &[Part], more: &[Part]) -> bool
    ensures { result ≡ is_empty (first.now ++ more.now) }
{
    first.is_empty() && more.is_empty()
}

/// Whether a request is a write.
pub(crate) fn is_write(account: &Plain, request: &Request) -> bool
    ensures { result ≡ is_write account.now request.now }
{
    match request {
        Request::Info { .. } | Request::List { .. } | Request::Get { .. } => false,
        Request::Post {
            collection,
            records,
            mode,
            ..
        } => match mode {
            Mode::Plain => !records.parts.as_slice().is_empty(),
            Mode::Begin | Mode::Append { .. } => false,
            Mode::Commit { batch } => !are_none(
                staged_parts(account, collection, *batch),
                records.parts.as_slice(),
            ),
        },
        Request::DeleteIds { collection, .. } => is_listed(account, collection),
        Request::DeleteAll { .. }
        | Request::DeleteCollection { .. }
        | Request::Put { .. }
        | Request::Delete { .. } => true,
    }
}

/// The stamp of a write: the moment, or just after the time of the last write. The clock hasn't ended.
fn next_stamp(account: &Plain) -> Stamp
    requires { account.now.store < 999999999999 }
    ensures { result ≡ stamp_in account.now }
{
    account.moment.max(Stamp::clamp(account.store.get() + 1))
}

/// The times of the other collections.
fn other_times(mut times: Vec<(Name, Stamp)>, collection: &Name) -> Vec<(Name, Stamp)>
    ensures { result.items ≡ times_without collection.now times.items }
{
    times.retain(|entry| !(entry.0 == *collection));
    times
}

/// The times with that of a collection.
fn set_time(
    alloc: Global,
    times: Vec<(Name, Stamp)>,
    collection: &Name,
    time: Stamp,
) -> Result<Vec<(Name, Stamp)>, AllocError>
    ensures { IfOk result (λ left. left.items ≡ times_with collection.now time times.items) }
{
    let mut left = other_times(times, collection);
    left.push((collection.copy(alloc)?, time))?;
    Ok(left)
}

/// The account after a write: the rows of these ids go from a collection, and those that were made come.
fn replace(
    alloc: Global,
    account: Plain,
    collection: &Name,
    ids: &[Id],
    mut made: Vec<Row>,
    stamp: Stamp,
) -> Result<Plain, AllocError>
    ensures { IfOk result (λ after. after ≡ account_after_write account collection.now stamp
        (rows_without collection.now ids.now account.rows ++ made.items)) }
{
    let mut rows = rows_without(account.rows.into_vec(), collection, ids);
    rows.append(&mut made)?;
    let collections = set_time(alloc, account.collections.into_vec(), collection, stamp)?;
    Ok(Plain {
        rows: Rows::new(rows),
        collections: Times::new(collections),
        store: stamp,
        last_delete: account.last_delete,
        moment: stamp,
        counter: account.counter,
        batches: account.batches,
    })
}

/// The ids that parts name, each once.
fn ids_of(alloc: Global, parts: &[Part]) -> Result<Vec<Id>, AllocError>
    ensures { IfOk result (λ ids. ids.items ≡ ids_of parts.now) }
{
    Targets::of_parts(alloc, parts, &[])?.into_vec(alloc)
}

/// Puts parts, where the account keeps its limits.
fn put_parts(
    alloc: Global,
    account: Plain,
    collection: &Name,
    parts: &[Part],
) -> Result<Plain, AllocError>
    requires { account.store < 999999999999 }
    ensures { IfOk result (λ after. after ≡ within account (write account collection.now parts.now
        (stamp_in account))) }
{
    let stamp = next_stamp(&account);
    let ids = ids_of(alloc, parts)?;
    let rows = account.rows.as_slice();
    let made = made_rows(alloc, rows, collection, ids.as_slice(), parts, stamp)?;
    if would_be_over(&account, collection, ids.as_slice(), made.as_slice()) {
        return Ok(account);
    }
    replace(alloc, account, collection, ids.as_slice(), made, stamp)
}

fn put(
    alloc: Global,
    account: Plain,
    collection: &Name,
    id: &Id,
    fields: &Fields,
) -> Result<Plain, AllocError>
    requires { account.store < 999999999999 }
    ensures { IfOk result (λ after. after ≡ within account (write account collection.now
        (record { id = id.now; fields = fields.now } ∷ []) (stamp_in account))) }
{
    let part = Part {
        id: id.copy(alloc)?,
        fields: fields.copy(alloc)?,
    };
    let parts = vec![in alloc; part]?;
    put_parts(alloc, account, collection, parts.as_slice())
}

/// The parts of a batch, and then further parts.
fn all_parts(
    alloc: Global,
    account: &Plain,
    collection: &Name,
    number: u64,
    more: &Parts,
) -> Result<Vec<Part>, AllocError>
    ensures { IfOk result (λ parts. parts.items ≡ staged_parts account.now collection.now number ++ more.now) }
{
    let mut parts = copy_parts(alloc, staged_parts(account, collection, number))?;
    let mut more = copy_parts(alloc, more.as_slice())?;
    parts.append(&mut more)?;
    Ok(parts)
}

/// Puts the parts of a batch and then further parts, and ends the batch, where the account keeps its limits.
fn commit(
    alloc: Global,
    account: Plain,
    collection: &Name,
    number: u64,
    records: &Records,
) -> Result<Plain, AllocError>
    requires { account.store < 999999999999 }
    ensures { IfOk result (λ after. after ≡ within account (record (write account collection.now
        (staged_parts account collection.now number ++ records.now.parts) (stamp_in account)) {
          batches = batches_without number account.batches;
        })) }
{
    let parts = all_parts(alloc, &account, collection, number, &records.parts)?;
    let stamp = next_stamp(&account);
    let ids = ids_of(alloc, parts.as_slice())?;
    let rows = account.rows.as_slice();
    let made = made_rows(
        alloc,
        rows,
        collection,
        ids.as_slice(),
        parts.as_slice(),
        stamp,
    )?;
    if would_be_over(&account, collection, ids.as_slice(), made.as_slice()) {
        return Ok(account);
    }
    let account = replace(alloc, account, collection, ids.as_slice(), made, stamp)?;
    Ok(end(account, number))
}

/// Takes the rows of these ids out of a collection, where the account keeps its limits.
fn delete(alloc: Global, account: Plain, collection: &Name, ids: &[Id]) -> Result<Plain, AllocError>
    requires { account.store < 999999999999 }
    ensures { IfOk result (λ after. after ≡ within account (account_after_write account collection.now (stamp_in account)
        (rows_without collection.now ids.now account.rows))) }
{
    if would_be_over(&account, collection, ids, &[]) {
        return Ok(account);
    }
    let stamp = next_stamp(&account);
    replace(alloc, account, collection, ids, Vec::new(alloc), stamp)
}

fn rows_elsewhere(mut rows: Vec<Row>, collection: &Name) -> Vec<Row>
    ensures { result.items ≡ filter (λ row. not (bytes_eq row.collection collection.now)) rows.items }
{
    rows.retain(|row| !(row.collection == *collection));
    rows
}

fn batches_elsewhere(mut batches: Vec<Staged>, collection: &Name) -> Vec<Staged>
    ensures { result.items ≡ batches_elsewhere collection.now batches.items }
{
    batches.retain(|staged| !(staged.collection == *collection));
    batches
}

/// Drops a collection with its rows and batches, where the account keeps its limits.
fn drop_collection(account: Plain, collection: &Name) -> Plain
    requires { account.store < 999999999999 }
    ensures { result ≡ within account (record account {
      rows = filter (λ row. not (bytes_eq row.collection collection.now)) account.rows;
      collections = times_without collection.now account.collections;
      batches = batches_elsewhere collection.now account.batches;
      store = stamp_in account;
      last_delete = stamp_in account;
      moment = stamp_in account;
    }) }
{
    if would_stay_over(&account, collection) {
        return account;
    }
    let stamp = next_stamp(&account);
    Plain {
        rows: Rows::new(rows_elsewhere(account.rows.into_vec(), collection)),
        collections: Times::new(other_times(account.collections.into_vec(), collection)),
        store: stamp,
        last_delete: stamp,
        moment: stamp,
        counter: account.counter,
        batches: Batches::new(batches_elsewhere(account.batches.into_vec(), collection)),
    }
}

/// Drops all rows, collections and batches.
fn drop_all(alloc: Global, account: Plain) -> Plain
    requires { account.store < 999999999999 }
    ensures { result ≡ record account {
      rows = [];
      collections = [];
      batches = [];
      store = stamp_in account;
      last_delete = stamp_in account;
      moment = stamp_in account;
    } }
{
    let stamp = next_stamp(&account);
    Plain {
        rows: Rows::new(Vec::new(alloc)),
        collections: Times::new(Vec::new(alloc)),
        store: stamp,
        last_delete: stamp,
        moment: stamp,
        counter: account.counter,
        batches: Batches::new(Vec::new(alloc)),
    }
}

/// The account after a write for which there is a stamp, or before it where the account would pass its limits.
pub(crate) fn write(alloc: Global, account: Plain, request: &Request) -> Result<Plain, AllocError>
    requires write { is_write account request.now ≡ true }
    requires clock { account.store < 999999999999 }
    ensures { IfOk result (λ after. after ≡ within account (effect account request.now)) }
{
    match request {
        Request::DeleteAll { .. } => Ok(drop_all(alloc, account)),
        Request::DeleteCollection { collection, .. } => Ok(drop_collection(account, collection)),
        Request::DeleteIds {
            collection,
            ids,
            ..
        } => delete(alloc, account, collection, ids.as_slice()),
        Request::Delete { collection, id, .. } => {
            let ids = vec![in alloc; id.copy(alloc)?]?;
            delete(alloc, account, collection, ids.as_slice())
        }
        Request::Put {
            collection,
            id,
            fields,
            ..
        } => put(alloc, account, collection, id, fields),
        Request::Post {
            collection,
            records,
            mode,
            ..
        } => match mode {
            Mode::Plain => put_parts(alloc, account, collection, records.parts.as_slice()),
            Mode::Commit { batch } => { commit(alloc, account, collection, *batch, records) }
            Mode::Begin | Mode::Append { .. } => unreachable!(),
        },
        Request::Info { .. } | Request::List { .. } | Request::Get { .. } => unreachable!(),
    }
}
