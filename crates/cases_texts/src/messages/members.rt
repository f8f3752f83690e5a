//! What a JSON object of a line says under its names.

use serde_json::Value;

/// The text of a member, where it is there.
pub fn text_of<'a>(object: &'a Value, name: &str) -> Option<&'a str> {
    object.get(name).and_then(Value::as_str)
}

/// The number of a member, where it is there.
pub fn number_of(object: &Value, name: &str) -> Option<u64> {
    object.get(name).and_then(Value::as_u64)
}

/// Whether a member says so.
pub fn is_so(object: &Value, name: &str) -> bool {
    object.get(name).and_then(Value::as_bool) == Some(true)
}
