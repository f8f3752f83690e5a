//! An account's dump.

ghost use Rattle.std.specs.Prelude.{◌≡◌, ◌≤◌, ◌++◌, IfOk, OnOk, drop, length, map};
ghost use Rattle.std.specs.List.{flat_map};
ghost use Rattle.ss_text.specs.Texts.{sorted};
ghost use Rattle.ss_lines.specs.declared.lines.Line.TheVariants.{Row as RowLine};
ghost use Rattle.ss_bso.specs.Changes.{kept_of};
ghost use Rattle.ss_dump.specs.Dumps.{batch_lines, body_text, closed_by, collection_line, comes_before, digest_of};
ghost use Rattle.ss_dump.specs.Dumps.{dump_text, list_lines, name_cmp, number_cmp, place_cmp, text_of};

use crate::hashing::digest_of;
use ss_bso::{Kept, Plain, Row, Staged};
use ss_lines::{
    push_account, push_batch, push_collection, push_digest, push_end, push_part, push_row,
    push_times,
};
use ss_text::{Name, Stamp};
use std::alloc::{AllocError, Global};
use std::cmp::Ordering;

/// The collections, lent, upwards by name.
fn by_name(alloc: Global, collections: &[(Name, Stamp)]) -> Result<Vec<&(Name, Stamp)>, AllocError>
    ensures { IfOk result (λ ordered. map (λ entry. entry.now) ordered.items ≡ sorted (comes_before name_cmp) collections.now) }
{
    let mut ordered = lent(alloc, collections)?;
    ordered.sort_by(|entry, other| entry.0.cmp(&other.0))?;
    Ok(ordered)
}

/// Where a row stands among others.
pub(crate) fn place_order(row: &Row, other: &Row) -> Ordering
    ensures { result ≡ place_cmp row.now other.now }
{
    row.collection
        .cmp(&other.collection)
        .then(row.id.cmp(&other.id))
}

/// The rows, lent, upwards by collection and then by id.
fn by_place(alloc: Global, rows: &[Row]) -> Result<Vec<&Row>, AllocError>
    ensures { IfOk result (λ ordered. map (λ row. row.now) ordered.items ≡ sorted (comes_before place_cmp) rows.now) }
{
    let mut ordered = lent(alloc, rows)?;
    ordered.sort_by(|row, other| place_order(row, other))?;
    Ok(ordered)
}

/// The batches, lent, upwards by number.
fn by_number(alloc: Global, batches: &[Staged]) -> Result<Vec<&Staged>, AllocError>
    ensures { IfOk result (λ ordered. map (λ batch. batch.now) ordered.items ≡ sorted (comes_before number_cmp) batches.now) }
{
    let mut ordered = lent(alloc, batches)?;
    ordered.sort_by(|batch, other| batch.number.cmp(&other.number))?;
    Ok(ordered)
}

/// The elements of a slice, lent.
fn lent<T>(alloc: Global, items: &[T]) -> Result<Vec<&T>, AllocError>
    ensures { IfOk result (λ lent. map (λ item. item.now) lent.items ≡ items.now) }
{
    let mut lent = Vec::with_capacity(alloc, items.len())?;
    for item in items {
        lent.push(item)?;
    }
    Ok(lent)
}

fn push_collections(
    alloc: Global,
    out: &mut Vec<u8>,
    collections: &[(Name, Stamp)],
) -> Result<(), AllocError>
    ensures { OnOk result (out.new.items ≡ out.old.items ++ text_of (map collection_line
        (sorted (comes_before name_cmp) collections.now))) }
{
    let ordered = by_name(alloc, collections)?;
    for entry in &ordered {
        push_collection(out, &entry.0, entry.1)?;
    }
    Ok(())
}

fn push_rows(alloc: Global, out: &mut Vec<u8>, rows: &[Row]) -> Result<(), AllocError>
    ensures { OnOk result (out.new.items ≡ out.old.items ++ text_of (map (λ r. RowLine r)
        (sorted (comes_before place_cmp) rows.now))) }
{
    let ordered = by_place(alloc, rows)?;
    for row in &ordered {
        push_row(out, row)?;
    }
    Ok(())
}

/// Appends the lines of a batch and its parts.
fn push_staged(out: &mut Vec<u8>, staged: &Staged) -> Result<(), AllocError>
    ensures { OnOk result (out.new.items ≡ out.old.items ++ text_of (batch_lines staged.now)) }
{
    push_batch(out, staged.number, &staged.collection, staged.begun)?;
    for part in staged.parts.as_slice() {
        push_part(out, part)?;
    }
    Ok(())
}

fn push_batches(alloc: Global, out: &mut Vec<u8>, batches: &[Staged]) -> Result<(), AllocError>
    ensures { OnOk result (out.new.items ≡ out.old.items ++ text_of (flat_map batch_lines
        (sorted (comes_before number_cmp) batches.now))) }
{
    let ordered = by_number(alloc, batches)?;
    for staged in &ordered {
        push_staged(out, staged)?;
    }
    Ok(())
}

/// Appends the lines of an account's lists, each in order.
fn push_lists(
    alloc: Global,
    out: &mut Vec<u8>,
    collections: &[(Name, Stamp)],
    rows: &[Row],
    batches: &[Staged],
) -> Result<(), AllocError>
    ensures { OnOk result (out.new.items ≡ out.old.items ++ text_of (list_lines (sorted (comes_before name_cmp) collections.now)
        (sorted (comes_before place_cmp) rows.now) (sorted (comes_before number_cmp) batches.now))) }
{
    push_collections(alloc, out, collections)?;
    push_rows(alloc, out, rows)?;
    push_batches(alloc, out, batches)?;
    Ok(())
}

/// Appends the lines of what is kept of an account, in order: its collections by name, its rows by collection and id, its
/// batches by number. Without memory a part of them may stand at the end.
#[tactic(auto, unfolding(crate::specs::Dumps::body_text, crate::specs::Dumps::account_lines))]
pub fn push_kept(alloc: Global, out: &mut Vec<u8>, kept: &Kept) -> Result<(), AllocError>
    ensures { OnOk result (out.new.items ≡ out.old.items ++ body_text kept.now) }
{
    push_account(out)?;
    push_times(out, kept.store, kept.last_delete, kept.counter)?;
    push_lists(
        alloc,
        out,
        kept.collections.as_slice(),
        kept.rows.as_slice(),
        kept.batches.as_slice(),
    )
}

/// Appends the lines of an account, in order; its moment isn't told by them.
#[tactic(auto, unfolding(crate::specs::Dumps::body_text, crate::specs::Dumps::account_lines))]
fn push_plain(alloc: Global, out: &mut Vec<u8>, account: &Plain) -> Result<(), AllocError>
    ensures { OnOk result (out.new.items ≡ out.old.items ++ body_text (kept_of account.now)) }
{
    push_account(out)?;
    push_times(out, account.store, account.last_delete, account.counter)?;
    push_lists(
        alloc,
        out,
        account.collections.as_slice(),
        account.rows.as_slice(),
        account.batches.as_slice(),
    )
}

/// Appends the digest of what stands from a place on, and the end.
fn push_close(alloc: Global, out: &mut Vec<u8>, from: usize) -> Result<(), AllocError>
    requires { from ≤ length out.old.items }
    ensures { OnOk result (out.new.items ≡ closed_by (digest_of (drop from out.old.items)) out.old.items) }
{
    let digest = digest_of(alloc, &out[from..])?;
    push_digest(out, &digest)?;
    push_end(out)?;
    Ok(())
}

/// The dump of what is kept of an account: its lines, the SHA-256 of these, and the end. The lines stand in order,
/// however the account is kept: collections by name, rows by collection and id, batches by number.
#[tactic(auto, unfolding(crate::specs::Dumps::dump_text))]
pub fn dump(alloc: Global, kept: &Kept) -> Result<Vec<u8>, AllocError>
    ensures { IfOk result (λ text. text.items ≡ dump_text kept.now) }
{
    let mut out = Vec::new(alloc);
    push_kept(alloc, &mut out, kept)?;
    push_close(alloc, &mut out, 0)?;
    Ok(out)
}

/// Appends the dump of an account, whose moment it doesn't tell. Without memory a part of it may stand at the end.
#[tactic(auto, unfolding(crate::specs::Dumps::dump_text))]
pub fn push_dump(alloc: Global, out: &mut Vec<u8>, account: &Plain) -> Result<(), AllocError>
    ensures { OnOk result (out.new.items ≡ out.old.items ++ dump_text (kept_of account.now)) }
{
    let from = out.len();
    push_plain(alloc, out, account)?;
    push_close(alloc, out, from)
}
