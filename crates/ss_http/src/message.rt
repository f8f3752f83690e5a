//! A message of a client.

ghost use Rattle.std.specs.Prelude.{◌≡◌, option_map};
ghost use Rattle.ss_http.specs.Fields.{first_named};

use crate::fields::is_same;
use ss_text::Bytes;
use std::marker::Model;

/// The fields of a head in their order, each a name and a value without blanks at its ends (RFC 9112).
#[derive(Drop, Debug)]
pub struct FieldLines {
    lines: Vec<(Bytes, Bytes)>,
}

impl Model for FieldLines {
    ghost use Rattle.std.specs.Prelude.{List, ℕ};

    ghost Value = { List (List ℕ × List ℕ) };

    ghost view = { λ fields. fields.lines.items };
}

impl FieldLines {
    /// The fields of a vector, which are moved.
    pub fn new(lines: Vec<(Bytes, Bytes)>) -> FieldLines
        ensures { result ≡ lines.items }
    {
        FieldLines { lines }
    }

    pub fn as_slice(&self) -> &[(Bytes, Bytes)]
        ensures { result.now ≡ self.now }
    {
        self.lines.as_slice()
    }

    /// The value of the first field of that name, ASCII case aside.
    pub fn first(&self, name: &str) -> Option<&[u8]>
        ensures { option_map (λ value. value.now) result ≡ first_named name.now self.now }
    {
        first_of(self.lines.as_slice(), name)
    }
}

fn first_of<'a>(lines: &'a [(Bytes, Bytes)], name: &str) -> Option<&'a [u8]>
    ensures { option_map (λ value. value.now) result ≡ first_named name.now lines.now }
{
    for line in lines {
        if is_same(line.0.as_slice(), name.as_bytes()) {
            return Some(line.1.as_slice());
        }
    }
    None
}

/// A message of a client: what its head says, its body, and whether the connection ends with it.
#[derive(Drop, Debug)]
pub struct Message {
    pub method: Bytes,
    pub target: Bytes,
    pub fields: FieldLines,
    pub body: Bytes,

    /// The version is HTTP/1.0, or `close` is a word of a `Connection` field.
    pub last: bool,
}
