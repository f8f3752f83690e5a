//! Fields of a head.

ghost use Rattle.std.specs.Prelude.{◌≡◌, option_map};
ghost use Rattle.ss_route.specs.Fields.{without_parameters, is_known, first_known, accepts_lines, wants_lines};

use crate::cuts::{is_same, split_once, trim};
use ss_http::FieldLines;

/// What stands before the first semicolon, without blanks around it.
#[tactic(auto, unfolding(crate::specs::Fields::without_parameters))]
pub fn without_parameters(value: &[u8]) -> &[u8]
    ensures { result.now ≡ without_parameters value.now }
{
    let (front, _parameters) = split_once(value, b';');
    trim(front)
}

fn is_known(range: &[u8]) -> bool
    ensures { result ≡ is_known range.now }
{
    is_same(range, b"application/json")
        || is_same(range, b"application/newlines")
        || is_same(range, b"application/*")
        || is_same(range, b"*/*")
}

/// The first media range of an Accept field that is looked at, without its parameters.
fn first_known(value: &[u8]) -> Option<&[u8]>
    ensures { option_map (λ range. range.now) result ≡ first_known value.now }
{
    value
        .split(|b| *b == b',')
        .map(|range| without_parameters(range))
        .find(|range| is_known(range))
}

#[tactic(auto, unfolding(crate::specs::Fields::accepts_lines))]
fn accepts_lines(value: &[u8]) -> bool
    ensures { result ≡ accepts_lines value.now }
{
    match first_known(value) {
        Some(range) => is_same(range, b"application/newlines"),
        None => false,
    }
}

/// Whether the fields ask for lists in lines.
pub fn wants_lines(fields: &FieldLines) -> bool
    ensures { result ≡ wants_lines fields.now }
{
    match fields.first("Accept") {
        Some(value) => accepts_lines(value),
        None => false,
    }
}
