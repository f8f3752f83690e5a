//! The answer of a query over the rows of one collection.

ghost use Rattle.std.specs.Prelude.{◌≡◌, IfOk, true, nat_lt, map, filter, drop};
ghost use Rattle.std.specs.Option.{option_map_or};
ghost use Rattle.ss_bso.specs.Write.{is_among};
ghost use Rattle.ss_text.specs.Texts.{sorted};
ghost use Rattle.ss_query.specs.Answer.{is_asked, row_cmp, comes_before, limited_list, next_offset, answer_of, answer};
ghost use Rattle.ss_query.specs.Answer.{picked_ids};

use crate::replies::{Picked, PickedIds};
use crate::requests::{Query, Sort};
use ss_bso::{Row, Rows};
use ss_text::{Id, Ids, Stamp};
use std::alloc::{AllocError, Global};
use std::cmp::Ordering;

fn is_named(ids: &Ids, id: &Id) -> bool
    ensures { result ≡ is_among ids.now id.now }
{
    ids.as_slice().iter().any(|other| other == id)
}

fn is_later(time: Stamp, newer: Option<Stamp>) -> bool
    ensures { result ≡ option_map_or (λ since. nat_lt since time) newer true }
{
    match newer {
        Some(since) => since.get() < time.get(),
        None => true,
    }
}

fn is_earlier(time: Stamp, older: Option<Stamp>) -> bool
    ensures { result ≡ option_map_or (λ until. nat_lt time until) older true }
{
    match older {
        Some(until) => time.get() < until.get(),
        None => true,
    }
}

/// Whether a query asks for a row.
pub fn asks_for(query: &Query, row: &Row) -> bool
    ensures { result ≡ is_asked query.now row.now }
{
    let named = match &query.ids {
        Some(ids) => is_named(ids, &row.id),
        None => true,
    };
    named && is_later(row.modified, query.newer) && is_earlier(row.modified, query.older)
}

/// The rows that a query asks for, lent.
fn rows_asked<'a>(alloc: Global, rows: &'a [Row], query: &Query) -> Result<Vec<&'a Row>, AllocError>
    ensures { IfOk result (λ found. map (λ row. row.now) found.items ≡ filter (is_asked query.now) rows.now) }
{
    rows.iter()
        .filter(|row| asks_for(query, row))
        .collect(alloc)
}

fn compare(sort: Sort, row: &Row, other: &Row) -> Ordering
    ensures { result ≡ row_cmp sort row.now other.now }
{
    let order = match sort {
        Sort::Newest => other.modified.get().cmp(&row.modified.get()),
        Sort::Oldest => row.modified.get().cmp(&other.modified.get()),
        Sort::Index => other
            .sortindex
            .unwrap_or(0)
            .cmp(&row.sortindex.unwrap_or(0)),
    };
    order.then(row.id.cmp(&other.id))
}

/// The rows in the order that is asked for.
fn in_order(mut found: Vec<&Row>, sort: Sort) -> Result<Vec<&Row>, AllocError>
    ensures { IfOk result (λ ordered. map (λ row. row.now) ordered.items
        ≡ sorted (comes_before sort) (map (λ row. row.now) found.entry.items)) }
{
    found.sort_by(|row, other| compare(sort, row, other))?;
    Ok(found)
}

/// What is left after the offset, up to the limit.
fn page<'a, 'b>(ordered: &'b [&'a Row], offset: u32, limit: Option<u32>) -> &'b [&'a Row]
    ensures { result.now ≡ limited_list limit (drop offset ordered.now) }
{
    let begin = ordered.len().min(offset as usize);
    let rest = &ordered[begin..];
    match limit {
        Some(limit) => &rest[..rest.len().min(limit as usize)],
        None => rest,
    }
}

/// Where the next page begins, if rows are left.
fn next_page(limit: Option<u32>, offset: u32, count: usize) -> Option<u64>
    ensures { result ≡ next_offset limit offset count }
{
    let end = u64::from(offset) + u64::from(limit?);
    if end < count as u64 { Some(end) } else { None }
}

fn copies(alloc: Global, rows: &[&Row]) -> Result<Rows, AllocError>
    ensures { IfOk result (λ copied. copied ≡ map (λ row. row.now) rows.now) }
{
    let mut copied = Vec::with_capacity(alloc, rows.len())?;
    for row in rows {
        copied.push(row.copy(alloc)?)?;
    }
    Ok(Rows::new(copied))
}

fn copied_ids(alloc: Global, rows: &[&Row]) -> Result<Ids, AllocError>
    ensures { IfOk result (λ ids. ids ≡ map (λ row. row.id) (map (λ row. row.now) rows.now)) }
{
    let mut ids = Vec::with_capacity(alloc, rows.len())?;
    for row in rows {
        ids.push(row.id.copy(alloc)?)?;
    }
    Ok(Ids::new(ids))
}

/// The answer of a query over the rows that it asks for, lent in whatever order. Only the rows of the page are copied.
pub fn answer_found(alloc: Global, found: Vec<&Row>, query: &Query) -> Result<Picked, AllocError>
    ensures { IfOk result (λ picked. picked ≡ answer_of (map (λ row. row.now) found.entry.items) query.now) }
{
    let ordered = in_order(found, query.sort)?;
    let page = page(ordered.as_slice(), query.offset, query.limit);
    Ok(Picked {
        rows: copies(alloc, page)?,
        next: next_page(query.limit, query.offset, ordered.len()),
    })
}

/// The ids alone of that answer. No payload is copied.
pub fn ids_found(alloc: Global, found: Vec<&Row>, query: &Query) -> Result<PickedIds, AllocError>
    ensures { IfOk result (λ picked. picked ≡ picked_ids (answer_of (map (λ row. row.now) found.entry.items)
        query.now)) }
{
    let ordered = in_order(found, query.sort)?;
    let page = page(ordered.as_slice(), query.offset, query.limit);
    Ok(PickedIds {
        ids: copied_ids(alloc, page)?,
        next: next_page(query.limit, query.offset, ordered.len()),
    })
}

/// The answer of a query over the rows of one collection: those that it asks for, in its order with ties by id, from
/// its offset on and up to its limit (SyncStorage API 1.5).
pub fn answer_query(alloc: Global, rows: &[Row], query: &Query) -> Result<Picked, AllocError>
    ensures { IfOk result (λ picked. picked ≡ answer rows.now query.now) }
{
    answer_found(alloc, rows_asked(alloc, rows, query)?, query)
}
