//! What the types of a line's values say of them.

ghost use Rattle.std.specs.Prelude.{◌≡◌, ◌≤◌, ◌<◌, ◌^◌, FitsSigned, true};
ghost use Rattle.std.specs.Int.{w32};
ghost use Rattle.std.specs.Str.{IsUtf8};
ghost use Rattle.ss_text.specs.Names.{is_id, is_name};
ghost use Rattle.ss_text.specs.Time.{last_stamp};
ghost use Rattle.ss_lines.specs.Lines.{IsLine, IsPart, IsRow, OfField, OfOption};

use crate::lines::Line;
use ss_bso::{Field, Part, Row};
use ss_text::{Stamp, Word};

/// A time is one.
fn time_form(time: Stamp)
    ensures { time ≤ last_stamp }
{
    let _time = time.get();
}

/// A text is one.
fn text_form(text: &Word)
    ensures { IsUtf8 text.now }
{
    let _bytes = text.as_str().as_bytes();
}

fn payload_form(payload: &Field<Word>)
    ensures { OfField IsUtf8 payload.now }
{
    if let Field::Set(text) = payload {
        text_form(text);
    }
}

fn integer_or_none(value: &Option<i32>)
    ensures { OfOption (λ z. FitsSigned w32 z) value.now }
{
    if let Some(number) = value {
        let _number = *number;
    }
}

fn natural_or_none(value: &Option<u64>)
    ensures { OfOption (λ n. n < 2 ^ 64) value.now }
{
    if let Some(number) = value {
        let _number = *number;
    }
}

/// The values of a row have their forms.
pub fn row_form(row: &Row)
    ensures { IsRow row.now }
{
    let _collection = row.collection.as_str();
    let _id = row.id.as_str();
    integer_or_none(&row.sortindex);
    natural_or_none(&row.expires);
    time_form(row.modified);
    text_form(&row.payload);
}

/// The values of a part have their forms.
pub fn part_form(part: &Part)
    ensures { IsPart part.now }
{
    let _id = part.id.as_str();
    payload_form(&part.fields.payload);
    integer_form(&part.fields.sortindex);
    natural_form(&part.fields.ttl);
}

fn integer_form(value: &Field<i32>)
    ensures { OfField (λ z. FitsSigned w32 z) value.now }
{
    if let Field::Set(number) = value {
        let _number = *number;
    }
}

fn natural_form(value: &Field<u32>)
    ensures { OfField (λ n. n < 2 ^ 32) value.now }
{
    if let Field::Set(number) = value {
        let _number = *number;
    }
}

/// Each value of a line has the form of its type.
pub fn line_form(line: &Line)
    ensures { IsLine line.now }
{
    match line {
        Line::Account | Line::End => {}
        Line::Times {
            store,
            last_delete,
            counter,
        } => {
            time_form(*store);
            time_form(*last_delete);
            let _counter = *counter;
        }
        Line::Collection { name, modified } => {
            let _name = name.as_str();
            time_form(*modified);
        }
        Line::Row(row) => row_form(row),
        Line::Batch {
            number,
            collection,
            begun,
        } => {
            let _number = *number;
            let _name = collection.as_str();
            time_form(*begun);
        }
        Line::Part(part) => part_form(part),
        Line::Digest(digest) => {
            let _digest = digest.as_str();
        }
    }
}
