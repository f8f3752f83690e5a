//! Bodies as JSON, and what stands in their members.

ghost use Rattle.std.specs.Prelude.{◌≡◌, IfOk, option_map};
ghost use Rattle.json.specs.Find.{get};
ghost use Rattle.json.specs.Value.{value_view};
ghost use Rattle.ss_hearing.specs.Bodies.{json_of, string_in, number_in, stamp_in, id_text, id_of};

use json::{Error, Scratch, Value};
use ss_text::{Id, Stamp, read_stamp};
use std::alloc::{AllocError, Global};

/// The JSON value of a body, of at most 128 levels; None exactly where it is none. Its strings are borrowed.
#[tactic(auto, unfolding(crate::specs::Bodies::json_of))]
pub(crate) fn read<'a>(
    alloc: Global,
    body: &'a [u8],
    scratch: &'a mut Scratch,
) -> Result<Option<Value<'a>>, AllocError>
    ensures { IfOk result (λ found. option_map value_view found ≡ json_of body.now) }
{
    match Value::from_slice(alloc, body, scratch) {
        Ok(value) => Ok(Some(value)),
        Err(Error::Invalid) => Ok(None),
        Err(_) => Err(AllocError),
    }
}

/// The string that a member is.
pub(crate) fn string_in<'a>(value: &Value<'a>, name: &str) -> Option<&'a str>
    ensures { option_map (λ s. s.now) result ≡ string_in name.now (value_view value.now) }
{
    value.get(name)?.as_str()
}

/// The characters of the number that a member is.
pub(crate) fn number_in<'a>(value: &Value<'a>, name: &str) -> Option<&'a str>
    ensures { option_map (λ s. s.now) result ≡ number_in name.now (value_view value.now) }
{
    value.get(name)?.as_number()
}

/// The time that a member is: a number whose characters are a time.
#[tactic(auto, unfolding(crate::specs::Bodies::stamp_in))]
pub(crate) fn stamp_in(value: &Value, name: &str) -> Option<Stamp>
    ensures { result ≡ stamp_in name.now (value_view value.now) }
{
    read_stamp(number_in(value, name)?.as_bytes())
}

/// The id that a value is.
#[tactic(auto, unfolding(crate::specs::Bodies::id_of))]
pub(crate) fn id_of(alloc: Global, value: &Value) -> Result<Option<Id>, AllocError>
    ensures { IfOk result (λ id. id ≡ id_of (value_view value.now)) }
{
    match value.as_str() {
        Some(text) => Id::new(alloc, text.as_bytes()),
        None => Ok(None),
    }
}
