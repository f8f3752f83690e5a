//! Looking into the fields of a head.

ghost use Rattle.std.specs.Prelude.{◌≡◌, ◌≤◌, length, map, reverse, option_map, codes, IfSome, All, not, ◌||◌};
ghost use Rattle.std.specs.List.{list_all, list_any};
ghost use Rattle.httparse.specs.Spans.{IsHeaderWithin, IsWithin, header_bytes, span_bytes};
ghost use Rattle.ss_text.specs.Numbers.{number_of};
ghost use Rattle.ss_http.specs.Fields.{agrees, announced, closes, ends, first_named, holds_close, is_close, is_number};
ghost use Rattle.ss_http.specs.Fields.{same_name, skip_spaces, without_spaces};

use crate::limits::LENGTH_DIGITS;
use httparse::spans::{HeaderSpan, Span};
use ss_text::read_number;

/// Whether the names are one, ASCII case aside.
pub(crate) fn is_same(a: &[u8], b: &[u8]) -> bool
    ensures { result ≡ same_name a.now b.now }
{
    a.eq_ignore_ascii_case(b)
}

/// Where the value of the first field of that name lies.
pub(crate) fn find(buf: &[u8], headers: &[HeaderSpan], name: &str) -> Option<Span>
    requires { All (IsHeaderWithin (length buf.now)) headers.now }
    ensures value { option_map (span_bytes buf.now) result ≡ first_named name.now
        (map (header_bytes buf.now) headers.now) }
    ensures within { IfSome result (IsWithin (length buf.now)) }
{
    for header in headers {
        if is_same(header.name.of(buf), name.as_bytes()) {
            return Some(header.value);
        }
    }
    None
}

fn says(text: &[u8], size: u64) -> bool
    ensures { result ≡ is_number size (number_of LENGTH_DIGITS text.now) }
{
    match read_number(text, LENGTH_DIGITS) {
        None => false,
        Some(number) => number == size,
    }
}

fn agrees(name: &[u8], value: &[u8], size: u64) -> bool
    ensures { result ≡ agrees size (name.now, value.now) }
{
    !is_same(name, b"Content-Length".as_slice()) || says(value, size)
}

fn all_agree(buf: &[u8], headers: &[HeaderSpan], size: u64) -> bool
    requires { All (IsHeaderWithin (length buf.now)) headers.now }
    ensures { result ≡ list_all (agrees size) (map (header_bytes buf.now) headers.now) }
{
    for header in headers {
        if !agrees(header.name.of(buf), header.value.of(buf), size) {
            return false;
        }
    }
    true
}

/// The length of the body that the fields announce: 0 without a `Content-Length`; None where one isn't 1 to 18 digits,
/// or where two differ as numbers.
#[tactic(auto, unfolding(crate::specs::Fields::announced))]
pub(crate) fn announced(buf: &[u8], headers: &[HeaderSpan]) -> Option<u64>
    requires { All (IsHeaderWithin (length buf.now)) headers.now }
    ensures { result ≡ announced (map (header_bytes buf.now) headers.now) }
{
    let span = match find(buf, headers, "Content-Length") {
        Some(span) => span,
        None => return Some(0),
    };
    let size = match read_number(span.of(buf), LENGTH_DIGITS) {
        Some(size) => size,
        None => return None,
    };
    if all_agree(buf, headers, size) {
        Some(size)
    } else {
        None
    }
}

fn skip_spaces(text: &[u8]) -> &[u8]
    ensures { result.now ≡ skip_spaces text.now }
{
    let mut at = 0;
    while at < text.len() && text[at] == b' ' {
        at += 1;
    }
    &text[at..]
}

fn cut_spaces(text: &[u8]) -> &[u8]
    ensures { result.now ≡ reverse (skip_spaces (reverse text.now)) }
{
    let mut end = text.len();
    while 0 < end && text[end - 1] == b' ' {
        end -= 1;
    }
    &text[..end]
}

#[tactic(auto, unfolding(crate::specs::Fields::without_spaces))]
fn without_spaces(text: &[u8]) -> &[u8]
    ensures { result.now ≡ without_spaces text.now }
{
    cut_spaces(skip_spaces(text))
}

fn is_close(word: &[u8]) -> bool
    ensures { result ≡ is_close word.now }
{
    is_same(without_spaces(word), b"close".as_slice())
}

/// Whether `close` is one of the words between commas.
fn holds_close(value: &[u8]) -> bool
    ensures { result ≡ holds_close value.now }
{
    value.split(|b| *b == b',').any(|word| is_close(word))
}

fn any_closes(buf: &[u8], headers: &[HeaderSpan]) -> bool
    requires { All (IsHeaderWithin (length buf.now)) headers.now }
    ensures { result ≡ list_any closes (map (header_bytes buf.now) headers.now) }
{
    for header in headers {
        if is_same(header.name.of(buf), b"Connection".as_slice())
            && holds_close(header.value.of(buf))
        {
            return true;
        }
    }
    false
}

/// Whether a head of that minor version with these fields ends the connection.
pub(crate) fn ends(buf: &[u8], headers: &[HeaderSpan], minor: u8) -> bool
    requires { All (IsHeaderWithin (length buf.now)) headers.now }
    ensures { result ≡ ends minor (map (header_bytes buf.now) headers.now) }
{
    minor == 0 || any_closes(buf, headers)
}
