//! What stands in a line, and how a list of it is written.

ghost use Rattle.std.specs.Prelude.{◌≡◌, ◌++◌, ◌∷◌, [], OnOk};
ghost use Rattle.serde_json.specs.Data.{number, string};
ghost use Rattle.serde_json.specs.Written.{compact_text};
ghost use Rattle.ss_lines.specs.Cells.{cells_text, data_of, list_text};
ghost use Rattle.ss_lines.specs.Lines.{field, integer, natural, optional, time};

use itoa::Buffer;
use ss_bso::Field;
use ss_text::{Stamp, Word, push_json_text, push_stamp};
use std::alloc::AllocError;

/// A value that a line says.
#[derive(Drop)]
pub enum Cell<'a> {
    Text(&'a str),
    Time(Stamp),
    Natural(u64),
    Integer(i32),

    /// `null`.
    Null,

    /// `[]`.
    Empty,
}

/// A sortindex, or none.
pub fn optional_integer<'a>(value: Option<i32>) -> Cell<'a>
    ensures { data_of result ≡ optional integer value }
{
    match value {
        None => Cell::Null,
        Some(number) => Cell::Integer(number),
    }
}

/// The hundredth of a second at which a row ends, or none.
pub fn optional_natural<'a>(value: Option<u64>) -> Cell<'a>
    ensures { data_of result ≡ optional natural value }
{
    match value {
        None => Cell::Null,
        Some(number) => Cell::Natural(number),
    }
}

/// What a part says of a payload.
pub fn payload_field(value: &Field<Word>) -> Cell<'_>
    ensures { data_of result ≡ field string value.now }
{
    match value {
        Field::Keep => Cell::Empty,
        Field::Clear => Cell::Null,
        Field::Set(text) => Cell::Text(text.as_str()),
    }
}

/// What a part says of a sortindex.
pub fn integer_field<'a>(value: &Field<i32>) -> Cell<'a>
    ensures { data_of result ≡ field integer value.now }
{
    match value {
        Field::Keep => Cell::Empty,
        Field::Clear => Cell::Null,
        Field::Set(number) => Cell::Integer(*number),
    }
}

/// What a part says of a ttl.
pub fn natural_field<'a>(value: &Field<u32>) -> Cell<'a>
    ensures { data_of result ≡ field natural value.now }
{
    match value {
        Field::Keep => Cell::Empty,
        Field::Clear => Cell::Null,
        Field::Set(number) => Cell::Natural(u64::from(*number)),
    }
}

/// Appends a time: its seconds with two decimals, as a string.
pub fn push_time(out: &mut Vec<u8>, stamp: Stamp) -> Result<(), AllocError>
    ensures { OnOk result (out.new.items ≡ out.old.items ++ compact_text (time stamp)) }
{
    let _time = stamp.get();
    out.push(b'"')?;
    push_stamp(out, stamp)?;
    out.push(b'"')?;
    Ok(())
}

/// Appends a whole number from 0.
pub fn push_natural(out: &mut Vec<u8>, value: u64) -> Result<(), AllocError>
    ensures { OnOk result (out.new.items ≡ out.old.items ++ compact_text (natural value)) }
{
    let mut buffer = Buffer::new();
    out.extend_from_slice(buffer.format(value).as_bytes())
}

/// Appends a whole number.
pub fn push_integer(out: &mut Vec<u8>, value: i32) -> Result<(), AllocError>
    ensures { OnOk result (out.new.items ≡ out.old.items ++ compact_text (integer value)) }
{
    let mut buffer = Buffer::new();
    out.extend_from_slice(buffer.format(value).as_bytes())
}

/// Appends a value.
pub fn push_cell(out: &mut Vec<u8>, cell: &Cell<'_>) -> Result<(), AllocError>
    ensures { OnOk result (out.new.items ≡ out.old.items ++ compact_text (data_of cell.now)) }
{
    match cell {
        Cell::Text(text) => push_json_text(out, text),
        Cell::Time(stamp) => push_time(out, *stamp),
        Cell::Natural(value) => push_natural(out, *value),
        Cell::Integer(value) => push_integer(out, *value),
        Cell::Null => out.extend_from_slice(b"null"),
        Cell::Empty => out.extend_from_slice(b"[]"),
    }
}

fn push_cells(out: &mut Vec<u8>, cells: &[Cell<'_>]) -> Result<(), AllocError>
    ensures { OnOk result (out.new.items ≡ out.old.items ++ cells_text cells.now) }
{
    for cell in cells {
        out.push(b',')?;
        push_cell(out, cell)?;
    }
    Ok(())
}

/// Appends the line of a first text and values, with its newline.
pub fn push_list(out: &mut Vec<u8>, tag: &str, cells: &[Cell<'_>]) -> Result<(), AllocError>
    ensures { OnOk result (out.new.items ≡ out.old.items ++ list_text tag.now cells.now) }
{
    out.push(b'[')?;
    push_json_text(out, tag)?;
    push_cells(out, cells)?;
    out.extend_from_slice(b"]\n")?;
    Ok(())
}
