//! A PUT and a GET of one record by two passes, one of them in a thread: the GET is told what its place in the journal says. And
//! calls of one pass, past the journal's room.

ghost use Rattle.std.specs.Prelude.{IfOk};
ghost use Rattle.std.specs.Thread.{IsSync};
ghost use Rattle.ss_query.specs.Fit.{IsFitRequest};

use crate::turns::account::{Told, call, call_both, fresh_desk, put};
use anyhow::bail;
use ss_booked::{Asked, MOST_ENTRIES};
use ss_laws::Journal;
use ss_query::{Cond, Request};
use ss_text::{Id, Name};
use std::alloc::{AllocError, Global};
use std::sync::Wait;
use std::thread::Threads;

/// A GET of a record.
fn get(alloc: Global, now: u64, id: &str) -> anyhow::Result<Asked>
    ensures { IfOk result (λ ask. IsFitRequest ask.request) }
{
    let Some(collection) = Name::new(alloc, b"forms")? else {
        bail!("no name");
    };
    let Some(id) = Id::new(alloc, id.as_bytes())? else {
        bail!("no id");
    };
    let request = Request::Get {
        collection,
        id,
        cond: Cond::Free,
    };
    Ok(Asked { now, request })
}

/// The tickets of the journal's entries after two calls by two passes side by side, and what each is told.
fn called_both<R: Threads + Wait + Sync>(
    rt: &R,
    alloc: Global,
    most: u32,
    ask: Asked,
    other: Asked,
) -> anyhow::Result<(String, Told, Told)>
    requires fits { IsFitRequest ask.request }
    requires other_fits { IsFitRequest other.request }
    requires shared { IsSync R.row }
{
    let (desk, pass) = fresh_desk(alloc, most)?;
    let (pass, told, other_told) = call_both(rt, &desk, pass, ask, other);
    let booked = desk.close(pass);
    let tickets = tickets(alloc, booked.journal());
    drop(booked);
    Ok((tickets?, told, other_told))
}

/// What each of two calls by one pass is told, one after the other.
fn called_twice<R: Wait>(
    rt: &R,
    alloc: Global,
    most: u32,
    ask: Asked,
    other: Asked,
) -> anyhow::Result<(Told, Told)>
    requires fits { IsFitRequest ask.request }
    requires other_fits { IsFitRequest other.request }
{
    let (desk, pass) = fresh_desk(alloc, most)?;
    let (pass, told) = call(rt, &desk, pass, ask);
    let (pass, other_told) = call(rt, &desk, pass, other);
    let booked = desk.close(pass);
    drop(booked);
    Ok((told, other_told))
}

/// The tickets of a journal's entries, each behind a blank.
fn tickets(alloc: Global, journal: &Journal) -> Result<String, AllocError> {
    let mut text = String::new(alloc);
    for entry in journal.entries() {
        text.push_str(format!(in alloc; " {}", entry.ticket)?.as_str())?;
    }
    Ok(text)
}

/// The status that a call is told; none where the journal was full.
fn status(told: &Told) -> Option<u16> {
    match told {
        Ok((_, status, _)) => Some(*status),
        Err(_) => None,
    }
}

/// The ticket that a call is told; none where the journal was full.
fn ticket(told: &Told) -> Option<u64> {
    match told {
        Ok((ticket, _, _)) => Some(*ticket),
        Err(_) => None,
    }
}

/// Whether a GET is told 200 behind the PUT of its record, and 404 in front of it.
fn is_by_place(put: &Told, get: &Told) -> bool {
    match (ticket(put), ticket(get)) {
        (Some(put), Some(at)) => status(get) == Some(if put < at { 200 } else { 404 }),
        _ => false,
    }
}

/// Whether there is such a room.
fn is_room(most: u32) -> bool {
    most != 0 && most <= MOST_ENTRIES
}

/// What is told of a PUT and a GET side by side at an account: room for how many entries, and the reading of the clock (hundredths of
/// a second).
pub fn pair_line<R: Threads + Wait + Sync>(
    rt: &R,
    alloc: Global,
    numbers: &[u32],
) -> anyhow::Result<String>
    requires shared { IsSync R.row }
{
    let [most, now] = numbers else {
        bail!("room and reading?");
    };
    if !is_room(*most) {
        bail!("no such room");
    }
    let now = u64::from(*now);
    let (ask, other) = (put(alloc, now, "a")?, get(alloc, now, "a")?);
    let (tickets, put, get) = called_both(rt, alloc, *most, ask, other)?;
    Ok(format!(in alloc;
        "two passes, tickets{tickets}\n  the PUT {:?}\n  the GET by its place {}",
        status(&put),
        is_by_place(&put, &get)
    )?)
}

/// What is told of two GETs one after the other: room for how many entries, and the reading of the clock.
pub fn past_room<R: Wait>(rt: &R, alloc: Global, numbers: &[u32]) -> anyhow::Result<String> {
    let [most, now] = numbers else {
        bail!("room and reading?");
    };
    if !is_room(*most) {
        bail!("no such room");
    }
    let now = u64::from(*now);
    let (ask, other) = (get(alloc, now, "a")?, get(alloc, now, "a")?);
    let (first, second) = called_twice(rt, alloc, *most, ask, other)?;
    Ok(format!(in alloc; "one pass twice\n  {:?}\n  {second:?}", status(&first))?)
}
