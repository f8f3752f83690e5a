//! Walks over rows in the order of time, from either end.
ghost use Rattle.std.specs.Prelude.{◌≡◌, ◌+◌, ◌≤◌, ◌++◌, ◌&&◌, [], ◌∷◌, filter, map, nat_lt, reverse, count_by, None};
ghost use Rattle.std.specs.Prelude.{OnOk, IfOk};
ghost use Rattle.std.specs.Map.{values_of};
ghost use Rattle.ss_query.specs.Answer.{answer, answer_of, is_asked};
ghost use Rattle.ss_bso.specs.Lists.{OtherId, Pairs};
ghost use Rattle.ss_index.specs.Layout.{NoLater};
ghost use Rattle.ss_index.specs.Walk.{is_above, is_past, page_end, Earlier, Enough, Later};

use ss_bso::Row;
use ss_list::{Chain, Steps};
use ss_query::{Query, Sort, asks_for};
use ss_text::Stamp;
use std::alloc::{AllocError, Global};
use std::sync::ledger::Ledger;

/// Whether a row's time is above `newer`, or there is no such bound.
fn is_above(newer: Option<Stamp>, row: &Row) -> bool
    ensures { result ≡ is_above newer row.now }
{
    match newer {
        Some(since) => since.get() < row.modified.get(),
        None => true,
    }
}

/// Notes a row, lent, where a query asks for it.
pub(crate) fn note<'a>(
    found: &mut Vec<&'a Row>,
    row: &'a Row,
    query: &Query,
) -> Result<(), AllocError>
    ensures { OnOk result (map (λ row. row.now) found.new.items ≡ map (λ row. row.now) found.old.items
        ++ filter (is_asked query.now) (row.now ∷ [])) }
{
    if asks_for(query, row) {
        found.push(row)?;
    }
    Ok(())
}

/// Whether so many rows are more than come before a page's end, and the next row is of another time: this one is
/// earlier than the other.
fn is_past(end: Option<u64>, found: usize, earlier: Stamp, later: Stamp) -> bool
    ensures { result ≡ (nat_lt earlier later && is_past end found) }
{
    match end {
        Some(end) => earlier.get() < later.get() && end < found as u64,
        None => false,
    }
}

/// The rows that a query asks for, lent, from the last to the first: all, or enough for a page that ends so. It follows
/// no link before the last row that is not above the query's `newer`.
pub(crate) fn walk<'a, L: Ledger>(
    alloc: Global,
    rows: &'a Chain<Row>,
    query: &Query,
    end: Option<u64>,
    steps: &mut Steps<L>,
) -> Result<Vec<&'a Row>, AllocError>
    requires { Pairs NoLater (values_of rows.now.nodes) }
    ensures rows { IfOk result (λ found. Enough Later end (filter (is_asked query.now)
        (reverse (values_of rows.now.nodes))) (map (λ row. row.now) found.items)) }
    ensures steps { steps.new ≤ steps.old + count_by (is_above query.now.newer) (values_of rows.now.nodes) }
{
    let mut found = Vec::new(alloc);
    let mut at = rows.back();
    let mut time = Stamp::clamp(0);
    for _ in 0..rows.len() {
        let Some(here) = at else {
            return Ok(found);
        };
        let row = rows.get(here);
        if !is_above(query.newer, row) {
            return Ok(found);
        }
        if is_past(end, found.len(), row.modified, time) {
            return Ok(found);
        }
        note(&mut found, row, query)?;
        time = row.modified;
        at = rows.prev(here, steps);
    }
    Ok(found)
}

/// The rows that a query asks for, lent, from the first to the last: all, or enough for a page that ends so.
pub(crate) fn walk_ahead<'a, L: Ledger>(
    alloc: Global,
    rows: &'a Chain<Row>,
    query: &Query,
    end: Option<u64>,
    steps: &mut Steps<L>,
) -> Result<Vec<&'a Row>, AllocError>
    requires times { Pairs NoLater (values_of rows.now.nodes) }
    requires newer { query.now.newer ≡ None }
    ensures rows { IfOk result (λ found. Enough Earlier end (filter (is_asked query.now) (values_of rows.now.nodes))
        (map (λ row. row.now) found.items)) }
    ensures steps { steps.new ≤ steps.old + count_by (is_above query.now.newer) (values_of rows.now.nodes) }
{
    let mut found = Vec::new(alloc);
    let mut at = rows.front();
    let mut time = Stamp::clamp(0);
    for _ in 0..rows.len() {
        let Some(here) = at else {
            return Ok(found);
        };
        let row = rows.get(here);
        if is_past(end, found.len(), time, row.modified) {
            return Ok(found);
        }
        note(&mut found, row, query)?;
        time = row.modified;
        at = rows.next(here, steps);
    }
    Ok(found)
}

/// How many rows come before a page's end, where there is a limit.
fn page_end(query: &Query) -> Option<u64>
    ensures { result ≡ page_end query.now }
{
    match query.limit {
        Some(limit) => Some(u64::from(query.offset) + u64::from(limit)),
        None => None,
    }
}

/// Rows that a query asks for, lent, over which its answer is the answer over all rows: a page in the order of time
/// takes the rows up to its end. It follows at most one link for each row above the query's `newer`.
pub(crate) fn walked<'a, L: Ledger>(
    alloc: Global,
    rows: &'a Chain<Row>,
    query: &Query,
    steps: &mut Steps<L>,
) -> Result<Vec<&'a Row>, AllocError>
    requires times { Pairs NoLater (values_of rows.now.nodes) }
    requires apart { Pairs OtherId (values_of rows.now.nodes) }
    ensures answer { IfOk result (λ found. answer_of (map (λ row. row.now) found.items) query.now
        ≡ answer (values_of rows.now.nodes) query.now) }
    ensures steps { steps.new ≤ steps.old + count_by (is_above query.now.newer) (values_of rows.now.nodes) }
{
    match query.sort {
        Sort::Newest => walk(alloc, rows, query, page_end(query), steps),
        Sort::Oldest => match query.newer {
            None => walk_ahead(alloc, rows, query, page_end(query), steps),
            Some(_) => walk(alloc, rows, query, None, steps),
        },
        Sort::Index => walk(alloc, rows, query, None, steps),
    }
}
