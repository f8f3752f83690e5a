//! Playing an exchange over a keeper: what is answered, and what is then kept.

ghost use Rattle.ss_query.specs.Fit.{IsFitRequest};
ghost use Rattle.ss_route.specs.Routing.{AsksFit};

use crate::exchanges::exchange::{Exchange, Timed};
use crate::exchanges::wire::response_line;
use crate::held::lines;
use anyhow::bail;
use sqlite::{Connection, MemStore};
use ss_account::{Account, OpenFault};
use ss_keep_sql::SqlKeeper;
use ss_keeper::{Keeper, MemKeeper};
use ss_query::Request;
use ss_route::{Local, Routed, not_listed, render, render_local, route};
use ss_text::Stamp;
use std::alloc::Global;

/// What came of a message: its answer, a line, and what is then kept, as lines in the order of their texts.
#[derive(Drop)]
struct Played {
    answer: String,
    kept: Vec<String>,
}

impl Played {
    /// Whether both were answered and kept the same.
    fn is_same(&self, other: &Played) -> bool {
        self.answer == other.answer && self.kept == other.kept
    }
}

/// The bytes of an account's reply to a request.
fn reply<K: Keeper>(
    alloc: Global,
    account: &mut Account<K>,
    now: u64,
    request: &Request,
    newlines: bool,
) -> anyhow::Result<Vec<u8>>
    requires fit { IsFitRequest request.now }
{
    let reply = account.step(alloc, now, request);
    Ok(render(alloc, &reply, newlines, false)?)
}

/// The bytes of a response that no account makes.
fn local(alloc: Global, local: &Local, now: u64) -> anyhow::Result<Vec<u8>> {
    Ok(render_local(alloc, local, Stamp::clamp(now), false)?)
}

/// The bytes of the response to what a message asks.
fn response_to<K: Keeper>(
    alloc: Global,
    account: &mut Account<K>,
    timed: &Timed,
    routed: &Routed,
) -> anyhow::Result<Vec<u8>>
    requires fit { AsksFit routed.now }
{
    match routed {
        Routed::Memory => bail!("no memory"),
        Routed::Local(told) => local(alloc, told, timed.now),
        Routed::Ask {
            uid,
            request,
            newlines,
        } if *uid == 7 => reply(alloc, account, timed.now, request, *newlines),
        Routed::Ask { .. } => local(alloc, &not_listed(), timed.now),
    }
}

/// The bytes of the response to a message.
fn response<K: Keeper>(
    alloc: Global,
    account: &mut Account<K>,
    timed: &Timed,
) -> anyhow::Result<Vec<u8>> {
    let routed = route(alloc, timed.manner, &timed.message);
    let response = response_to(alloc, account, timed, &routed);
    drop(routed);
    response
}

/// The answer to a message as a line.
fn answered<K: Keeper>(
    alloc: Global,
    account: &mut Account<K>,
    timed: &Timed,
) -> anyhow::Result<String> {
    let response = response(alloc, account, timed)?;
    let told = response_line(alloc, response.as_slice(), timed.is_quiet)?;
    Ok(format!(in alloc; "{} {told}", timed.now)?)
}

/// The account of a keeper that held one before.
fn again<K: Keeper + Drop>(alloc: Global, account: Account<K>) -> anyhow::Result<Account<K>> {
    match Account::open(alloc, account.into_keeper()) {
        Ok(account) => Ok(account),
        Err((keeper, _)) => {
            drop(keeper);
            bail!("an account that is not opened again")
        }
    }
}

/// Answers a message, and tells what is then kept.
fn play<K: Keeper>(
    alloc: Global,
    account: &mut Account<K>,
    timed: &Timed,
) -> anyhow::Result<Played> {
    let answer = answered(alloc, account, timed)?;
    match account.told(alloc) {
        Ok(kept) => Ok(Played {
            answer,
            kept: lines(alloc, &kept)?,
        }),
        Err(_) => bail!("nothing is told of what is kept"),
    }
}

/// Whether an account answers a message and then keeps as another one did.
fn is_alike<K: Keeper>(
    alloc: Global,
    account: &mut Account<K>,
    timed: &Timed,
    played: &Played,
) -> anyhow::Result<bool> {
    let other = play(alloc, account, timed)?;
    Ok(played.is_same(&other))
}

/// An account that answers all messages, and one of the same kind that is opened anew before each.
#[derive(Drop)]
struct Both<K: Keeper + Drop> {
    whole: Account<K>,
    anew: Option<Account<K>>,
}

impl<K: Keeper + Drop> Both<K> {
    /// The accounts of two keepers that hold the same.
    fn open(alloc: Global, first: K, second: K) -> anyhow::Result<Both<K>> {
        Ok(Both {
            whole: opened(alloc, first)?,
            anew: Some(opened(alloc, second)?),
        })
    }

    /// Opens the other one anew.
    fn open_again(&mut self, alloc: Global) -> anyhow::Result<()> {
        let Some(account) = self.anew.take() else {
            bail!("no account to open anew");
        };
        self.anew = Some(again(alloc, account)?);
        Ok(())
    }

    /// Whether the other one, opened anew, answers and keeps as the first did.
    fn is_alike_anew(
        &mut self,
        alloc: Global,
        timed: &Timed,
        played: &Played,
    ) -> anyhow::Result<bool> {
        self.open_again(alloc)?;
        match &mut self.anew {
            Some(account) => is_alike(alloc, account, timed, played),
            None => bail!("no account that was opened anew"),
        }
    }

    /// What the first answers, and whether the other one answers and keeps the same.
    fn play(&mut self, alloc: Global, timed: &Timed) -> anyhow::Result<(Played, bool)> {
        let played = play(alloc, &mut self.whole, timed)?;
        let is_same = self.is_alike_anew(alloc, timed, &played)?;
        Ok((played, is_same))
    }
}

/// The account of a keeper, which can be opened.
fn opened<K: Keeper + Drop>(alloc: Global, keeper: K) -> anyhow::Result<Account<K>> {
    match Account::open(alloc, keeper) {
        Ok(account) => Ok(account),
        Err((keeper, _)) => {
            drop(keeper);
            bail!("an account that is not opened")
        }
    }
}

/// A keeper in memory, one call of which may fail.
fn keeper(alloc: Global, exchange: &Exchange) -> anyhow::Result<MemKeeper> {
    let mut failing = Vec::new(alloc);
    if let Some(number) = exchange.failing {
        failing.push(number)?;
    }
    Ok(MemKeeper::new(exchange.kept.copy(alloc)?, failing))
}

/// Two accounts over keepers in memory.
fn in_memory(alloc: Global, exchange: &Exchange) -> anyhow::Result<Both<MemKeeper>> {
    Both::open(alloc, keeper(alloc, exchange)?, keeper(alloc, exchange)?)
}

/// A keeper in a database in memory, which is empty at first.
fn fresh(alloc: Global) -> anyhow::Result<SqlKeeper<MemStore>> {
    match SqlKeeper::adopt(alloc, Connection::open_in_memory(alloc)?) {
        Ok(keeper) => Ok(keeper),
        Err((connection, fault)) => {
            drop(connection);
            Err(fault.into())
        }
    }
}

/// Two accounts over keepers in databases in memory.
fn over_sqlite(alloc: Global) -> anyhow::Result<Both<SqlKeeper<MemStore>>> {
    Both::open(alloc, fresh(alloc)?, fresh(alloc)?)
}

/// Four accounts that hold the same: two over keepers in memory, and two over databases.
#[derive(Drop)]
pub struct Sides {
    in_memory: Both<MemKeeper>,
    stored: Both<SqlKeeper<MemStore>>,
}

impl Sides {
    pub fn open(alloc: Global, exchange: &Exchange) -> anyhow::Result<Sides> {
        Ok(Sides {
            in_memory: in_memory(alloc, exchange)?,
            stored: over_sqlite(alloc)?,
        })
    }

    /// What all are asked is answered with this line; and whether they answered alike and then hold the same.
    pub fn play(&mut self, alloc: Global, timed: &Timed) -> anyhow::Result<(String, bool)> {
        let (played, is_same_anew) = self.in_memory.play(alloc, timed)?;
        let (other, is_same_stored) = self.stored.play(alloc, timed)?;
        let is_same = is_same_anew && is_same_stored && played.is_same(&other);
        Ok((played.answer, is_same))
    }
}

/// What an account answers to all messages.
fn answers<K: Keeper>(
    alloc: Global,
    account: &mut Account<K>,
    exchange: &Exchange,
) -> anyhow::Result<Vec<String>> {
    let mut answers = Vec::new(alloc);
    for timed in exchange.messages.iter() {
        answers.push(answered(alloc, account, timed)?)?;
    }
    Ok(answers)
}

/// What is told of an account that isn't opened.
fn refused(alloc: Global, fault: OpenFault) -> anyhow::Result<Vec<String>> {
    let mut answers = Vec::new(alloc);
    answers.push(format!(in alloc; "not opened: {fault:?}")?)?;
    Ok(answers)
}

/// The answers to all messages over one keeper in memory, or why the account isn't opened.
pub fn once(alloc: Global, exchange: &Exchange) -> anyhow::Result<Vec<String>> {
    match Account::open(alloc, keeper(alloc, exchange)?) {
        Ok(mut account) => answers(alloc, &mut account, exchange),
        Err((keeper, fault)) => {
            drop(keeper);
            refused(alloc, fault)
        }
    }
}
