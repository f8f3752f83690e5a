//! How lines are written. Without memory for a line a part of it may stand at the end of `out`.

ghost use Rattle.std.specs.Prelude.{◌≡◌, ◌++◌, OnOk};
ghost use Rattle.ss_lines.specs.Lines.{line_text};
ghost use Rattle.ss_lines.specs.declared.lines.Line.TheVariants.{Account, Times, Collection, Row as RowLine, Batch};
ghost use Rattle.ss_lines.specs.declared.lines.Line.TheVariants.{Part as PartLine, Digest as DigestLine, End};

use crate::cells::{
    Cell, integer_field, natural_field, optional_integer, optional_natural, payload_field,
    push_list,
};
use crate::digests::Digest;
use crate::lines::Line;
use ss_bso::{Part, Row};
use ss_text::{Name, Stamp};
use std::alloc::AllocError;

/// Appends the line with which an account begins.
#[tactic(auto, unfolding(crate::specs::Lines::line_text))]
pub fn push_account(out: &mut Vec<u8>) -> Result<(), AllocError>
    ensures { OnOk result (out.new.items ≡ out.old.items ++ line_text Account) }
{
    push_list(out, "account", &[Cell::Natural(1)])
}

/// Appends the line of an account's times and its counter of batches.
#[tactic(auto, unfolding(crate::specs::Lines::line_text))]
pub fn push_times(
    out: &mut Vec<u8>,
    store: Stamp,
    last_delete: Stamp,
    counter: u64,
) -> Result<(), AllocError>
    ensures { OnOk result (out.new.items ≡ out.old.items ++ line_text (Times store last_delete counter)) }
{
    let cells = [
        Cell::Time(store),
        Cell::Time(last_delete),
        Cell::Natural(counter),
    ];
    push_list(out, "times", &cells)
}

/// Appends the line of a collection and the time of its last write.
#[tactic(auto, unfolding(crate::specs::Lines::line_text))]
pub fn push_collection(out: &mut Vec<u8>, name: &Name, modified: Stamp) -> Result<(), AllocError>
    ensures { OnOk result (out.new.items ≡ out.old.items ++ line_text (Collection name.now modified)) }
{
    push_list(
        out,
        "collection",
        &[Cell::Text(name.as_str()), Cell::Time(modified)],
    )
}

/// Appends the line of a row.
#[tactic(auto, unfolding(crate::specs::Lines::line_text))]
pub fn push_row(out: &mut Vec<u8>, row: &Row) -> Result<(), AllocError>
    ensures { OnOk result (out.new.items ≡ out.old.items ++ line_text (RowLine row.now)) }
{
    let cells = [
        Cell::Text(row.collection.as_str()),
        Cell::Text(row.id.as_str()),
        Cell::Time(row.modified),
        optional_integer(row.sortindex),
        optional_natural(row.expires),
        Cell::Text(row.payload.as_str()),
    ];
    push_list(out, "row", &cells)
}

/// Appends the line of a batch, without its parts.
#[tactic(auto, unfolding(crate::specs::Lines::line_text))]
pub fn push_batch(
    out: &mut Vec<u8>,
    number: u64,
    collection: &Name,
    begun: Stamp,
) -> Result<(), AllocError>
    ensures { OnOk result (out.new.items ≡ out.old.items ++ line_text (Batch number collection.now begun)) }
{
    let cells = [
        Cell::Natural(number),
        Cell::Text(collection.as_str()),
        Cell::Time(begun),
    ];
    push_list(out, "batch", &cells)
}

/// Appends the line of a part of a batch.
#[tactic(auto, unfolding(crate::specs::Lines::line_text))]
pub fn push_part(out: &mut Vec<u8>, part: &Part) -> Result<(), AllocError>
    ensures { OnOk result (out.new.items ≡ out.old.items ++ line_text (PartLine part.now)) }
{
    let cells = [
        Cell::Text(part.id.as_str()),
        payload_field(&part.fields.payload),
        integer_field(&part.fields.sortindex),
        natural_field(&part.fields.ttl),
    ];
    push_list(out, "part", &cells)
}

/// Appends the line of a digest.
#[tactic(auto, unfolding(crate::specs::Lines::line_text))]
pub fn push_digest(out: &mut Vec<u8>, digest: &Digest) -> Result<(), AllocError>
    ensures { OnOk result (out.new.items ≡ out.old.items ++ line_text (DigestLine digest.now)) }
{
    push_list(out, "digest", &[Cell::Text(digest.as_str())])
}

/// Appends the line of the end.
#[tactic(auto, unfolding(crate::specs::Lines::line_text))]
pub fn push_end(out: &mut Vec<u8>) -> Result<(), AllocError>
    ensures { OnOk result (out.new.items ≡ out.old.items ++ line_text End) }
{
    push_list(out, "end", &[])
}

/// Appends a line.
pub fn push_line(out: &mut Vec<u8>, line: &Line) -> Result<(), AllocError>
    ensures { OnOk result (out.new.items ≡ out.old.items ++ line_text line.now) }
{
    match line {
        Line::Account => push_account(out),
        Line::Times {
            store,
            last_delete,
            counter,
        } => push_times(out, *store, *last_delete, *counter),
        Line::Collection { name, modified } => push_collection(out, name, *modified),
        Line::Row(row) => push_row(out, row),
        Line::Batch {
            number,
            collection,
            begun,
        } => push_batch(out, *number, collection, *begun),
        Line::Part(part) => push_part(out, part),
        Line::Digest(digest) => push_digest(out, digest),
        Line::End => push_end(out),
    }
}
