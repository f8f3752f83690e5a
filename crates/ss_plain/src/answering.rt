//! The account after a request.

ghost use Rattle.std.specs.Prelude.{◌≡◌, nat_le, true, false, if◌then◌else◌, IfOk};
ghost use Rattle.ss_laws.specs.Journals.{account_after, marked_outcome};
ghost use Rattle.ss_query.specs.Api.{outcome, refusal};
ghost use Rattle.ss_query.specs.Effect.{effect, is_write};
ghost use Rattle.ss_text.specs.Time.{last_stamp};
ghost use Rattle.ss_plain.specs.Steps.{is_stopped, within};

use crate::batches::stage;
use crate::clock::tick;
use crate::refusing::is_stopped;
use crate::writing::{is_write, write};
use ss_bso::Plain;
use ss_laws::Entry;
use ss_query::{Mark, Request};
use ss_text::LAST;
use std::alloc::{AllocError, Global};

/// The account after a request that isn't refused and is no write.
fn staged(alloc: Global, account: Plain, request: &Request) -> Result<Plain, AllocError>
    requires quiet { is_write account request.now ≡ false }
    requires passes { is_stopped account request.now ≡ false }
    ensures { IfOk result (λ after. after ≡ effect account request.now) }
{
    match request {
        Request::Post {
            collection,
            records,
            mode,
            ..
        } => stage(alloc, account, collection, &records.parts, *mode),
        Request::Info { .. }
        | Request::List { .. }
        | Request::Get { .. }
        | Request::DeleteIds { .. } => Ok(account),
        Request::DeleteAll { .. }
        | Request::DeleteCollection { .. }
        | Request::Put { .. }
        | Request::Delete { .. } => unreachable!(),
    }
}

/// The account after a write: before it where the clock has ended, or where the account would pass its limits.
fn write_in_time(alloc: Global, account: Plain, request: &Request) -> Result<Plain, AllocError>
    requires { is_write account request.now ≡ true }
    ensures { IfOk result (λ after. after ≡ (if nat_le last_stamp account.store then account else within account
        (effect account request.now))) }
{
    if account.store.get() == LAST {
        return Ok(account);
    }
    write(alloc, account, request)
}

/// The account after a request once the clock was read.
fn answered(alloc: Global, account: Plain, request: &Request) -> Result<Plain, AllocError>
    ensures { IfOk result (λ after. after ≡ (outcome account request.now (refusal account request.now)).account) }
{
    if is_stopped(&account, request) {
        return Ok(account);
    }
    if is_write(&account, request) {
        return write_in_time(alloc, account, request);
    }
    staged(alloc, account, request)
}

/// The account after a request at a reading of the clock, by the mark with which it was entered in a journal: what the
/// one-account API makes of it where it was done, and the clock's tick alone where memory ran out or the keeper failed.
/// Its time grows with the account.
pub fn next(
    alloc: Global,
    account: Plain,
    now: u64,
    request: &Request,
    mark: Mark,
) -> Result<Plain, AllocError>
    ensures { IfOk result (λ after. after ≡ (marked_outcome account now request.now mark).account) }
{
    let account = tick(account, now);
    match mark {
        Mark::Done => answered(alloc, account, request),
        Mark::Keeper | Mark::Memory => Ok(account),
    }
}

/// The account that entries leave, one after the other.
pub fn closing(alloc: Global, opening: Plain, entries: &[Entry]) -> Result<Plain, AllocError>
    ensures { IfOk result (λ after. after ≡ account_after opening entries.now) }
{
    let mut account = opening;
    for entry in entries {
        account = next(alloc, account, entry.now, &entry.request, entry.mark)?;
    }
    Ok(account)
}
