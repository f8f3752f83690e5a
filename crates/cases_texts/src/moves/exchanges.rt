//! What an account answers that a dump has moved.

ghost use Rattle.std.specs.Prelude.{IfOk};
ghost use Rattle.ss_query.specs.Fit.{IsFitRequest};

use anyhow::{Result, bail};
use ss_account::Account;
use ss_bso::{Failures, Parts, Records};
use ss_keeper::SureKeeper;
use ss_query::{Body, Mode, Query, Reply, Request, Sort};
use ss_text::{Cond, Name};
use std::alloc::Global;

/// The commit of a batch.
#[derive(Drop)]
pub struct Commit {
    collection: Name,
    batch: u64,

    /// In hundredths of a second.
    now: u64,
}

/// The name of a collection.
fn name(alloc: Global, text: &str) -> Result<Name> {
    match Name::new(alloc, text.as_bytes())? {
        Some(name) => Ok(name),
        None => bail!("not the name of a collection: {text}"),
    }
}

impl Commit {
    /// The commit that a line `>COLLECTION BATCH TIME` asks for, where one of the lines does.
    pub fn of(alloc: Global, lines: &[String]) -> Result<Option<Commit>> {
        for line in lines {
            let Some(words) = line.as_str().strip_prefix(">") else {
                continue;
            };
            let words = words.split(' ').collect::<Vec<&str>>(alloc)?;
            let [collection, batch, now] = words.as_slice() else {
                bail!("not a commit: {line}");
            };
            return Ok(Some(Commit {
                collection: name(alloc, collection)?,
                batch: batch.parse()?,
                now: now.parse()?,
            }));
        }
        Ok(None)
    }

    /// The request, which adds no record.
    fn request(&self, alloc: Global) -> Result<Request>
        ensures { IfOk result IsFitRequest }
    {
        Ok(Request::Post {
            collection: self.collection.copy(alloc)?,
            records: Records {
                parts: Parts::new(Vec::new(alloc)),
                failed: Failures::new(Vec::new(alloc)),
            },
            mode: Mode::Commit { batch: self.batch },
            cond: Cond::Free,
        })
    }
}

/// Asks for the ids of a collection, the newest first.
fn ids_of(collection: Name) -> Request
    ensures { IsFitRequest result }
{
    Request::List {
        collection,
        query: Query {
            ids: None,
            newer: None,
            older: None,
            limit: None,
            offset: 0,
            sort: Sort::Newest,
            full: false,
        },
        cond: Cond::Free,
    }
}

/// The ids that a reply lists.
fn ids_in(alloc: Global, reply: &Reply) -> Result<String> {
    let Body::Ids(ids) = &reply.body else {
        bail!("a list was answered otherwise");
    };
    let mut told = String::new(alloc);
    for id in ids.as_slice() {
        told.push(' ')?;
        told.push_str(id.as_str())?;
    }
    Ok(told)
}

/// The status and the time of an account's reply to a commit.
fn committed(
    alloc: Global,
    account: &mut Account<SureKeeper>,
    commit: &Commit,
) -> Result<(u16, u64)> {
    let request = commit.request(alloc)?;
    let reply = account.step(alloc, commit.now, &request);
    Ok((reply.status, reply.moment.get()))
}

/// The ids that an account has in the collection of a commit.
fn listed(alloc: Global, account: &mut Account<SureKeeper>, commit: Commit) -> Result<String> {
    let list = account.step(alloc, commit.now, &ids_of(commit.collection));
    ids_in(alloc, &list)
}

/// What an account answers to a commit, and which ids its collection has then.
fn asked(alloc: Global, account: &mut Account<SureKeeper>, commit: Commit) -> Result<String> {
    let (status, moment) = committed(alloc, account, &commit)?;
    let ids = listed(alloc, account, commit)?;
    Ok(format!(in alloc; "{status} at {moment}, then{ids}")?)
}

/// What the account that a keeper holds answers to a commit, and which ids its collection has then.
pub fn answered(alloc: Global, keeper: SureKeeper, commit: Commit) -> Result<String> {
    match Account::open(alloc, keeper) {
        Ok(mut account) => asked(alloc, &mut account, commit),
        Err(_) => bail!("an account that was moved isn't opened"),
    }
}
