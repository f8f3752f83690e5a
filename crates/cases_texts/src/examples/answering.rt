//! An account in memory that answers requests.

ghost use Rattle.std.specs.Prelude.{IfOk};
ghost use Rattle.ss_query.specs.Fit.{IsFitRequest};

use anyhow::bail;
use ss_account::Account;
use ss_bso::{Field, Fields, Kept};
use ss_keeper::SureKeeper;
use ss_query::{Body, Reply, Request};
use ss_text::{Cond, Id, Name, Stamp, Word};
use std::alloc::Global;

/// A new account, kept in memory.
pub fn fresh(alloc: Global) -> anyhow::Result<Account<SureKeeper>> {
    match Account::open(alloc, SureKeeper::new(Kept::fresh(alloc))) {
        Ok(account) => Ok(account),
        Err(_) => bail!("no memory"),
    }
}

/// A request that puts a payload under an id of a collection. It is one that an account may be asked.
pub fn put(alloc: Global, collection: Name, id: Id, payload: &str) -> anyhow::Result<Request>
    ensures { IfOk result IsFitRequest }
{
    let fields = Fields {
        payload: Field::Set(Word::new(String::from_str(alloc, payload)?)),
        sortindex: Field::Keep,
        ttl: Field::Keep,
    };
    Ok(Request::Put {
        collection,
        id,
        fields,
        cond: Cond::Free,
    })
}

/// The name of a collection.
pub fn name(alloc: Global, text: &str) -> anyhow::Result<Name> {
    match Name::new(alloc, text.as_bytes())? {
        Some(name) => Ok(name),
        None => bail!("a name isn't in form"),
    }
}

/// An id.
pub fn id(alloc: Global, text: &str) -> anyhow::Result<Id> {
    match Id::new(alloc, text.as_bytes())? {
        Some(id) => Ok(id),
        None => bail!("an id isn't in form"),
    }
}

/// A reply as a line: its status, the account's time, and the record that it has.
fn reply_line(alloc: Global, reply: &Reply) -> anyhow::Result<String> {
    let payload = match &reply.body {
        Body::One(row) => row.payload.as_str(),
        _ => "no record",
    };
    Ok(format!(in alloc; "{} at {}: {payload}", reply.status, reply.moment.get())?)
}

/// Puts a record.
fn put_line(alloc: Global, account: &mut Account<SureKeeper>) -> anyhow::Result<String> {
    let put = put(alloc, name(alloc, "notes")?, id(alloc, "a")?, "hello")?;
    reply_line(alloc, &account.step(alloc, 1_000, &put))
}

/// Gets the record under a condition.
fn get_line(
    alloc: Global,
    account: &mut Account<SureKeeper>,
    cond: Cond,
) -> anyhow::Result<String> {
    let get = Request::Get {
        collection: name(alloc, "notes")?,
        id: id(alloc, "a")?,
        cond,
    };
    reply_line(alloc, &account.step(alloc, 2_000, &get))
}

/// Puts a record, gets it, and gets it once more under the condition that it has changed since.
fn reply_lines(alloc: Global, account: &mut Account<SureKeeper>) -> anyhow::Result<Vec<String>> {
    let mut lines = Vec::new(alloc);
    lines.push(put_line(alloc, account)?)?;
    for cond in [Cond::Free, Cond::IfModified(Stamp::clamp(1_000))] {
        lines.push(get_line(alloc, account, cond)?)?;
    }
    Ok(lines)
}

/// What a new account replies to these requests.
pub fn answered(alloc: Global) -> anyhow::Result<Vec<String>> {
    let mut account = fresh(alloc)?;
    reply_lines(alloc, &mut account)
}
