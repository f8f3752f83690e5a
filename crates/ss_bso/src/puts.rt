//! What a part makes of a row.

ghost use Rattle.std.specs.Prelude.{◌≡◌, IfOk, option_copied, []};
ghost use Rattle.std.specs.Option.{option_map_or};
ghost use Rattle.ss_bso.specs.Put.{row_after_put, field_value};

use crate::parts::{Field, Part};
use crate::rows::Row;
use ss_text::{Name, Stamp, Word};
use std::alloc::{AllocError, Global};

/// The payload that a part gives: its own, the old row's, or the empty text.
fn payload_of(alloc: Global, field: &Field<Word>, old: Option<&Row>) -> Result<Word, AllocError>
    ensures { IfOk result (λ text. text ≡ field_value field.now (option_map_or (λ row. row.payload)
        (option_copied old.entry) []) [] (λ given. given)) }
{
    match (field, old) {
        (Field::Set(text), _) => text.copy(alloc),
        (Field::Keep, Some(row)) => row.payload.copy(alloc),
        (Field::Keep, None) | (Field::Clear, _) => Ok(Word::new(String::new(alloc))),
    }
}

/// The row that a part makes of the old one, if there is one, with this time (SyncStorage API 1.5).
pub fn put(
    alloc: Global,
    old: Option<&Row>,
    collection: &Name,
    part: &Part,
    stamp: Stamp,
) -> Result<Row, AllocError>
    ensures { IfOk result (λ row. row ≡ row_after_put (option_copied old.entry) collection.now part.now stamp) }
{
    let sortindex = match &part.fields.sortindex {
        Field::Keep => old.and_then(|row| row.sortindex),
        Field::Clear => None,
        Field::Set(index) => Some(*index),
    };
    let expires = match &part.fields.ttl {
        Field::Keep => old.and_then(|row| row.expires),
        Field::Clear => None,
        Field::Set(seconds) => Some(stamp.get() + 100 * u64::from(*seconds)),
    };
    Ok(Row {
        collection: collection.copy(alloc)?,
        id: part.id.copy(alloc)?,
        modified: stamp,
        sortindex,
        payload: payload_of(alloc, &part.fields.payload, old)?,
        expires,
    })
}
