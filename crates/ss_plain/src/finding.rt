//! What an account has, found in its lists.

ghost use Rattle.std.specs.Prelude.{◌≡◌, ◌==◌, ◌&&◌, bytes_eq, option_copied, option_map};
ghost use Rattle.ss_bso.specs.Batches.{batch_in};
ghost use Rattle.ss_query.specs.Refused.{condition_of, has_item, is_listed, is_there, collection_time, item_time};
ghost use Rattle.ss_query.specs.Refused.{staged_parts, target_time};

use crate::rows::find_row;
use ss_bso::{Part, Plain, Staged};
use ss_query::{Cond, Request};
use ss_text::{Id, Name, Stamp};
use ss_writes::find_time;

fn has_item(account: &Plain, collection: &Name, id: &Id) -> bool
    ensures { result ≡ has_item account.now collection.now id.now }
{
    find_row(account.rows.as_slice(), collection, id).is_some()
}

fn item_time(account: &Plain, collection: &Name, id: &Id) -> Stamp
    ensures { result ≡ item_time account.now collection.now id.now }
{
    match find_row(account.rows.as_slice(), collection, id) {
        Some(row) => row.modified,
        None => Stamp::clamp(0),
    }
}

/// Whether a collection is listed.
pub(crate) fn is_listed(account: &Plain, collection: &Name) -> bool
    ensures { result ≡ is_listed account.now collection.now }
{
    find_time(account.collections.as_slice(), collection).is_some()
}

fn collection_time(account: &Plain, collection: &Name) -> Stamp
    ensures { result ≡ collection_time account.now collection.now }
{
    match find_time(account.collections.as_slice(), collection) {
        Some(time) => time,
        None => account.last_delete,
    }
}

/// The time of a request's target.
pub(crate) fn target_time(account: &Plain, request: &Request) -> Stamp
    ensures { result ≡ target_time account.now request.now }
{
    match request {
        Request::Info { .. } | Request::DeleteAll { .. } => account.store,
        Request::List { collection, .. } => collection_time(account, collection),
        Request::Post { collection, .. } => collection_time(account, collection),
        Request::DeleteCollection { collection, .. } => collection_time(account, collection),
        Request::DeleteIds { collection, .. } => collection_time(account, collection),
        Request::Get { collection, id, .. } => item_time(account, collection, id),
        Request::Put { collection, id, .. } => item_time(account, collection, id),
        Request::Delete { collection, id, .. } => item_time(account, collection, id),
    }
}

/// Whether a request's target is there.
pub(crate) fn is_there(account: &Plain, request: &Request) -> bool
    ensures { result ≡ is_there account.now request.now }
{
    match request {
        Request::Info { .. } | Request::DeleteAll { .. } => 0 < account.store.get(),
        Request::List { collection, .. } => is_listed(account, collection),
        Request::Post { collection, .. } => is_listed(account, collection),
        Request::DeleteCollection { collection, .. } => is_listed(account, collection),
        Request::DeleteIds { collection, .. } => is_listed(account, collection),
        Request::Get { collection, id, .. } => has_item(account, collection, id),
        Request::Put { collection, id, .. } => has_item(account, collection, id),
        Request::Delete { collection, id, .. } => has_item(account, collection, id),
    }
}

/// The condition of a request.
pub(crate) fn condition_of(request: &Request) -> Cond
    ensures { result ≡ condition_of request.now }
{
    match request {
        Request::Info { cond, .. } => *cond,
        Request::DeleteAll { cond } => *cond,
        Request::List { cond, .. } => *cond,
        Request::Post { cond, .. } => *cond,
        Request::DeleteCollection { cond, .. } => *cond,
        Request::DeleteIds { cond, .. } => *cond,
        Request::Get { cond, .. } => *cond,
        Request::Put { cond, .. } => *cond,
        Request::Delete { cond, .. } => *cond,
    }
}

fn is_batch(staged: &Staged, collection: &Name, number: u64) -> bool
    ensures { result ≡ (staged.now.number == number && bytes_eq staged.now.collection collection.now) }
{
    staged.number == number && staged.collection == *collection
}

/// The batch of a number and collection, where it is there.
pub(crate) fn find_batch<'a>(
    batches: &'a [Staged],
    collection: &Name,
    number: u64,
) -> Option<&'a Staged>
    ensures { option_copied result ≡ batch_in collection.now number batches.now }
{
    batches
        .iter()
        .find(|staged| is_batch(staged, collection, number))
}

/// The parts of the batch of a number and collection, or none.
pub(crate) fn staged_parts<'a>(account: &'a Plain, collection: &Name, number: u64) -> &'a [Part]
    ensures { result.now ≡ staged_parts account.now collection.now number }
{
    match find_batch(account.batches.as_slice(), collection, number) {
        Some(staged) => staged.parts.as_slice(),
        None => &[],
    }
}
