//! Calls by two passes at a desk of an account with its journal, one of them in a thread.

ghost use Rattle.std.specs.Prelude.{◌≡◌, ◌≤◌, [], IfOk};
ghost use Rattle.std.specs.Thread.{IsSync};
ghost use Rattle.ss_desk.specs.Views.{CoversAll, CoversNoLess, numbers};
ghost use Rattle.ss_desk.specs.Desks.{view, IsPassOf};
ghost use Rattle.ss_query.specs.Fit.{IsFitRequest};
ghost use Rattle.ss_booked.specs.Booked.{journal_of};

use crate::accounts::booked;
use anyhow::bail;
use ss_booked::{Answered, Asked, Booked, Full, MOST_ENTRIES};
use ss_bso::{Field, Fields, Kept};
use ss_desk::{Desk, Pass};
use ss_keeper::{Keeper, SureKeeper};
use ss_query::{Cond, Request};
use ss_text::{Id, Name, Stamp, Word};
use std::alloc::{AllocError, Global};
use std::sync::Wait;
use std::thread::{Threads, join};

/// What a call is told: its ticket, the status and the time of the write or the target, or that the journal is full.
pub type Told = Result<(u64, u16, Option<Stamp>), Full>;

/// The fields of a record with four payload bytes.
fn fields(alloc: Global) -> Result<Fields, AllocError> {
    Ok(Fields {
        payload: Field::Set(Word::new(String::from_str(alloc, "text")?)),
        sortindex: Field::Keep,
        ttl: Field::Keep,
    })
}

/// A PUT of four payload bytes.
pub fn put(alloc: Global, now: u64, id: &str) -> anyhow::Result<Asked>
    ensures { IfOk result (λ ask. IsFitRequest ask.request) }
{
    let Some(collection) = Name::new(alloc, b"forms")? else {
        bail!("no name");
    };
    let Some(id) = Id::new(alloc, id.as_bytes())? else {
        bail!("no id");
    };
    let request = Request::Put {
        collection,
        id,
        fields: fields(alloc)?,
        cond: Cond::Free,
    };
    Ok(Asked { now, request })
}

/// Account 7, fresh, with an empty journal, which has room for so many entries.
fn fresh(alloc: Global, most: u32) -> anyhow::Result<Booked<SureKeeper>>
    ensures bare { IfOk result (λ b. (journal_of b).entries ≡ []) }
{
    booked(alloc, 7, SureKeeper::new(Kept::fresh(alloc)), most)
}

/// A desk of it, and the pass with all numbers.
fn desk<K: Keeper + Drop>(
    alloc: Global,
    booked: Booked<K>,
) -> anyhow::Result<(Desk<Booked<K>>, Pass<Booked<K>>)>
    requires { (journal_of booked).entries ≡ [] }
    ensures pass { IfOk result (λ r. IsPassOf r.0 r.1) }
    ensures many { IfOk result (λ r. 2 ≤ numbers (view r.1)) }
    ensures all { IfOk result (λ r. CoversAll (view r.1)) }
{
    match Desk::open(alloc, booked) {
        Ok(both) => Ok(both),
        Err((booked, _)) => {
            drop(booked);
            bail!("no desk")
        }
    }
}

/// One call.
pub fn call<R: Wait, K: Keeper + Drop>(
    rt: &R,
    desk: &Desk<Booked<K>>,
    mut pass: Pass<Booked<K>>,
    ask: Asked,
) -> (Pass<Booked<K>>, Told)
    requires pass { IsPassOf desk.now pass }
    requires fits { IsFitRequest ask.request }
    ensures pass { IsPassOf desk.now result.0 }
    ensures covers { CoversNoLess (view pass) (view result.0) }
{
    let told = match desk.call(rt, &mut pass, ask) {
        Ok((ticket, answered)) => {
            let Answered {
                reply,
                half_full: _,
            } = answered;
            Ok((ticket, reply.status, reply.modified))
        }
        Err(full) => Err(full),
    };
    (pass, told)
}

/// Calls by two passes side by side, each with half of the pass's numbers.
pub fn call_both<R: Threads + Wait + Sync>(
    rt: &R,
    desk: &Desk<Booked<SureKeeper>>,
    mut pass: Pass<Booked<SureKeeper>>,
    ask: Asked,
    other_ask: Asked,
) -> (Pass<Booked<SureKeeper>>, Told, Told)
    requires pass { IsPassOf desk.now pass }
    requires many { 2 ≤ numbers (view pass) }
    requires fits { IsFitRequest ask.request }
    requires other_fits { IsFitRequest other_ask.request }
    requires shared { IsSync R.row }
    ensures pass { IsPassOf desk.now result.0 }
    ensures covers { CoversNoLess (view pass) (view result.0) }
{
    let other = pass.split(desk);
    let ((mut pass, told), (other, other_told)) = join(
        rt,
        || -> (Pass<Booked<SureKeeper>>, Told)
            requires { IsPassOf desk.now pass × IsFitRequest ask.request }
            ensures pass { IsPassOf desk.entry.now result.0 }
            ensures covers { CoversNoLess (view pass) (view result.0) }
        { call(rt, desk, pass, ask) },
        || -> (Pass<Booked<SureKeeper>>, Told)
            requires { IsPassOf desk.now other × IsFitRequest other_ask.request }
            ensures pass { IsPassOf desk.entry.now result.0 }
            ensures covers { CoversNoLess (view other) (view result.0) }
        { call(rt, desk, other, other_ask) },
    );
    desk.back(&mut pass, other);
    (pass, told, other_told)
}

/// What two calls are told, by their tickets.
fn by_ticket(one: Told, other: Told) -> (Told, Told) {
    let is_later = match (&one, &other) {
        (Ok(one), Ok(other)) => other.0 < one.0,
        _ => false,
    };
    if is_later { (other, one) } else { (one, other) }
}

/// The status of a call, once the journal is begun again.
fn call_folded<K: Keeper>(booked: &mut Booked<K>, ask: Asked) -> Result<Option<u16>, AllocError>
    requires { IsFitRequest ask.request }
{
    booked.fold()?;
    let Asked { now, request } = ask;
    Ok(
        booked
            .call(4, 0, now, request)
            .ok()
            .map(|reply| reply.status),
    )
}

/// What each of four calls is told, the first two of them side by side and in the order of their tickets.
fn call_all<R: Threads + Wait + Sync>(
    rt: &R,
    desk: &Desk<Booked<SureKeeper>>,
    pass: Pass<Booked<SureKeeper>>,
    asks: (Asked, Asked),
    others: (Asked, Asked),
) -> (Pass<Booked<SureKeeper>>, [Told; 4])
    requires pass { IsPassOf desk.now pass }
    requires many { 2 ≤ numbers (view pass) }
    requires fit { IsFitRequest asks.0.request × IsFitRequest asks.1.request }
    requires others { IsFitRequest others.0.request × IsFitRequest others.1.request }
    requires shared { IsSync R.row }
    ensures pass { IsPassOf desk.now result.0 }
    ensures covers { CoversNoLess (view pass) (view result.0) }
{
    let (pass, one, other) = call_both(rt, desk, pass, asks.0, asks.1);
    let (pass, third) = call(rt, desk, pass, others.0);
    let (pass, fourth) = call(rt, desk, pass, others.1);
    let (first, second) = by_ticket(one, other);
    (pass, [first, second, third, fourth])
}

/// PUTs of two records.
fn puts(alloc: Global, now: u64, one: &str, other: &str) -> anyhow::Result<(Asked, Asked)>
    ensures { IfOk result (λ asks. IsFitRequest asks.0.request × IsFitRequest asks.1.request) }
{
    let one = put(alloc, now, one)?;
    let other = put(alloc, now, other)?;
    Ok((one, other))
}

/// A desk of a fresh account with room for so many entries, and the pass with all numbers.
pub fn fresh_desk(
    alloc: Global,
    most: u32,
) -> anyhow::Result<(Desk<Booked<SureKeeper>>, Pass<Booked<SureKeeper>>)>
    ensures pass { IfOk result (λ r. IsPassOf r.0 r.1) }
    ensures many { IfOk result (λ r. 2 ≤ numbers (view r.1)) }
    ensures all { IfOk result (λ r. CoversAll (view r.1)) }
{
    desk(alloc, fresh(alloc, most)?)
}

/// PUTs of four records, two by two.
fn four_puts(alloc: Global, now: u64) -> anyhow::Result<((Asked, Asked), (Asked, Asked))>
    ensures first { IfOk result (λ asks. IsFitRequest asks.0.0.request × IsFitRequest asks.0.1.request) }
    ensures others { IfOk result (λ asks. IsFitRequest asks.1.0.request × IsFitRequest asks.1.1.request) }
{
    let asks = puts(alloc, now, "a", "b")?;
    let others = puts(alloc, now, "c", "d")?;
    Ok((asks, others))
}

/// What each of four calls is told; nothing if there was no memory for them.
fn call_puts<R: Threads + Wait + Sync>(
    rt: &R,
    alloc: Global,
    desk: &Desk<Booked<SureKeeper>>,
    pass: Pass<Booked<SureKeeper>>,
    now: u64,
) -> (Pass<Booked<SureKeeper>>, Option<[Told; 4]>)
    requires pass { IsPassOf desk.now pass }
    requires many { 2 ≤ numbers (view pass) }
    requires shared { IsSync R.row }
    ensures pass { IsPassOf desk.now result.0 }
    ensures covers { CoversNoLess (view pass) (view result.0) }
{
    match four_puts(alloc, now) {
        Ok((asks, others)) => {
            let (pass, told) = call_all(rt, desk, pass, asks, others);
            (pass, Some(told))
        }
        Err(error) => {
            drop(error);
            (pass, None)
        }
    }
}

/// The account after four calls, and what each is told.
fn called_four<R: Threads + Wait + Sync>(
    rt: &R,
    alloc: Global,
    most: u32,
    now: u64,
) -> anyhow::Result<(Booked<SureKeeper>, Option<[Told; 4]>)>
    requires shared { IsSync R.row }
{
    let (desk, pass) = fresh_desk(alloc, most)?;
    let (pass, told) = call_puts(rt, alloc, &desk, pass, now);
    let booked = desk.close(pass);
    Ok((booked, told))
}

/// A line on what a call is told.
fn line(alloc: Global, told: &Told) -> Result<String, AllocError> {
    match told {
        Ok((ticket, _, Some(time))) => format!(in alloc;
            "\n  ticket {ticket}, time {}",
            time.get()
        ),
        Ok((ticket, _, None)) => format!(in alloc; "\n  ticket {ticket}, no time"),
        Err(full) => format!(in alloc; "\n  {full:?}"),
    }
}

/// A line on each of four calls.
fn lines(alloc: Global, told: &[Told]) -> Result<String, AllocError> {
    let mut text = String::new(alloc);
    for told in told {
        text.push_str(line(alloc, told)?.as_str())?;
    }
    Ok(text)
}

/// The status of a call that is made after the journal was begun again.
fn folded_status(
    alloc: Global,
    booked: &mut Booked<SureKeeper>,
    now: u64,
) -> anyhow::Result<Option<u16>> {
    let ask = put(alloc, now, "e")?;
    Ok(call_folded(booked, ask)?)
}

/// A line on such a call.
fn folded_line(alloc: Global, mut booked: Booked<SureKeeper>, now: u64) -> anyhow::Result<String> {
    let status = folded_status(alloc, &mut booked, now);
    drop(booked);
    Ok(format!(in alloc; "\n  after a fold {:?}", status?)?)
}

/// What is told of calls at an account with room for so many entries, at a reading of the clock (hundredths of a
/// second).
fn tell<R: Threads + Wait + Sync>(
    rt: &R,
    alloc: Global,
    most: u32,
    now: u64,
) -> anyhow::Result<String>
    requires shared { IsSync R.row }
{
    if most == 0 || most > MOST_ENTRIES {
        bail!("no such room");
    }
    let (booked, told) = called_four(rt, alloc, most, now)?;
    let folded = folded_line(alloc, booked, now)?;
    let Some(told) = told else {
        bail!("no requests");
    };
    let lines = lines(alloc, &told)?;
    Ok(format!(in alloc; "two passes, then one{lines}{folded}")?)
}

/// What is told of calls at an account: room for how many entries, and the reading of the clock.
pub fn called<R: Threads + Wait + Sync>(
    rt: &R,
    alloc: Global,
    numbers: &[u32],
) -> anyhow::Result<String>
    requires shared { IsSync R.row }
{
    let [most, now] = numbers else {
        bail!("room and reading?");
    };
    tell(rt, alloc, *most, u64::from(*now))
}
