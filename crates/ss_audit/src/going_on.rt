//! Whether an opening goes on from the closing before it.

ghost use Rattle.std.specs.Prelude.{◌≡◌, ◌≤◌, ◌↔◌, IfOk, IfSome, IsTrue, filter, map};
ghost use Rattle.ss_bso.specs.Account.{is_alive, is_open};
ghost use Rattle.ss_bso.specs.Validity.{IsValid};
ghost use Rattle.ss_text.specs.Texts.{IsReordering, sorted};
ghost use Rattle.ss_dump.specs.Dumps.{comes_before, name_cmp, number_cmp, place_cmp};
ghost use Rattle.ss_audit.specs.Sound.{GoesOn};
ghost use Rattle.ss_audit.specs.Verdicts.{GoesOnFrom};

use crate::equal::are_lent_equal;
use ss_bso::limits::BATCH_LIFE;
use ss_bso::{Plain, Row, Staged};
use ss_text::{Name, Stamp};
use std::alloc::{AllocError, Global};
use std::cmp::Ordering;

/// The collections, lent, upwards by name.
fn by_name(alloc: Global, times: &[(Name, Stamp)]) -> Result<Vec<&(Name, Stamp)>, AllocError>
    ensures { IfOk result (λ ordered. map (λ entry. entry.now) ordered.items ≡ sorted (comes_before name_cmp) times.now) }
{
    let mut ordered = Vec::with_capacity(alloc, times.len())?;
    for entry in times {
        ordered.push(entry)?;
    }
    ordered.sort_by(|entry, other| entry.0.cmp(&other.0))?;
    Ok(ordered)
}

/// The rows that are alive at a moment, lent.
fn alive(alloc: Global, rows: &[Row], moment: Stamp) -> Result<Vec<&Row>, AllocError>
    ensures { IfOk result (λ lent. map (λ row. row.now) lent.items ≡ filter (is_alive moment) rows.now) }
{
    let mut lent = Vec::new(alloc);
    for row in rows {
        if row.is_alive(moment) {
            lent.push(row)?;
        }
    }
    Ok(lent)
}

/// Where a row stands among others.
fn place_order(row: &Row, other: &Row) -> Ordering
    ensures { result ≡ place_cmp row.now other.now }
{
    row.collection
        .cmp(&other.collection)
        .then(row.id.cmp(&other.id))
}

/// The rows that are alive at a moment, lent, upwards by collection and then by id.
fn by_place(alloc: Global, rows: &[Row], moment: Stamp) -> Result<Vec<&Row>, AllocError>
    ensures { IfOk result (λ ordered. map (λ row. row.now) ordered.items
        ≡ sorted (comes_before place_cmp) (filter (is_alive moment) rows.now)) }
{
    let mut ordered = alive(alloc, rows, moment)?;
    ordered.sort_by(|row, other| place_order(row, other))?;
    Ok(ordered)
}

fn is_open(staged: &Staged, moment: Stamp) -> bool
    ensures { result ≡ is_open moment staged.now }
{
    moment.get() < staged.begun.get() + BATCH_LIFE
}

/// The batches whose life hasn't ended at a moment, lent.
fn open_ones(alloc: Global, batches: &[Staged], moment: Stamp) -> Result<Vec<&Staged>, AllocError>
    ensures { IfOk result (λ lent. map (λ batch. batch.now) lent.items ≡ filter (is_open moment) batches.now) }
{
    let mut lent = Vec::new(alloc);
    for staged in batches {
        if is_open(staged, moment) {
            lent.push(staged)?;
        }
    }
    Ok(lent)
}

/// The batches whose life hasn't ended at a moment, lent, upwards by number.
fn by_number(alloc: Global, batches: &[Staged], moment: Stamp) -> Result<Vec<&Staged>, AllocError>
    ensures { IfOk result (λ ordered. map (λ batch. batch.now) ordered.items
        ≡ sorted (comes_before number_cmp) (filter (is_open moment) batches.now)) }
{
    let mut ordered = open_ones(alloc, batches, moment)?;
    ordered.sort_by(|batch, other| batch.number.cmp(&other.number))?;
    Ok(ordered)
}

/// Whether two accounts have the same collections, whatever their order.
fn same_collections(alloc: Global, account: &Plain, other: &Plain) -> Result<bool, AllocError>
    requires { IsValid account.now }
    ensures { IfOk result (λ same. IsTrue same ↔ IsReordering account.now.collections other.now.collections) }
{
    let one = by_name(alloc, account.collections.as_slice())?;
    let two = by_name(alloc, other.collections.as_slice())?;
    Ok(are_lent_equal(one.as_slice(), two.as_slice()))
}

/// Whether the rows that are alive in two accounts at a moment are the same, whatever their order.
fn same_rows(
    alloc: Global,
    account: &Plain,
    other: &Plain,
    moment: Stamp,
) -> Result<bool, AllocError>
    requires { IsValid account.now }
    ensures { IfOk result (λ same. IsTrue same ↔ IsReordering (filter (is_alive moment) account.now.rows)
        (filter (is_alive moment) other.now.rows)) }
{
    let one = by_place(alloc, account.rows.as_slice(), moment)?;
    let two = by_place(alloc, other.rows.as_slice(), moment)?;
    Ok(are_lent_equal(one.as_slice(), two.as_slice()))
}

/// Whether the batches that are open in two accounts at a moment are the same, whatever their order.
fn same_batches(
    alloc: Global,
    account: &Plain,
    other: &Plain,
    moment: Stamp,
) -> Result<bool, AllocError>
    requires { IsValid account.now }
    ensures { IfOk result (λ same. IsTrue same ↔ IsReordering (filter (is_open moment) account.now.batches)
        (filter (is_open moment) other.now.batches)) }
{
    let one = by_number(alloc, account.batches.as_slice(), moment)?;
    let two = by_number(alloc, other.batches.as_slice(), moment)?;
    Ok(are_lent_equal(one.as_slice(), two.as_slice()))
}

/// Whether an opening has a closing's times and counter, and isn't later.
fn has_times(closing: &Plain, opening: &Plain) -> bool
    ensures { IsTrue result ↔ ((opening.now.moment ≤ closing.now.moment) × (closing.now.store ≡ opening.now.store)
        × (closing.now.last_delete ≡ opening.now.last_delete) × (closing.now.counter ≡ opening.now.counter)) }
{
    opening.moment.get() <= closing.moment.get()
        && closing.store == opening.store
        && closing.last_delete == opening.last_delete
        && closing.counter == opening.counter
}

/// Whether an opening goes on from a valid closing.
fn goes_on(alloc: Global, closing: &Plain, opening: &Plain) -> Result<bool, AllocError>
    requires { IsValid closing.now }
    ensures { IfOk result (λ goes_on. IsTrue goes_on ↔ GoesOn closing.now opening.now) }
{
    if !has_times(closing, opening) {
        return Ok(false);
    }
    let moment = closing.moment;
    Ok(
        same_collections(alloc, closing, opening)?
            && same_batches(alloc, closing, opening, moment)?
            && same_rows(alloc, closing, opening, moment)?,
    )
}

/// Whether an opening goes on from a valid closing, where there is one.
pub(crate) fn goes_on_from(
    alloc: Global,
    closing: &Option<Plain>,
    opening: &Plain,
) -> Result<bool, AllocError>
    requires { IfSome closing.now IsValid }
    ensures { IfOk result (λ goes_on. IsTrue goes_on ↔ GoesOnFrom closing.now opening.now) }
{
    match closing {
        Some(closing) => goes_on(alloc, closing, opening),
        None => Ok(true),
    }
}
