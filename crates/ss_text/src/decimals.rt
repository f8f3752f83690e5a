//! Numbers that serde_json would read as floats: wrapped, each a list of one string; or marked, each a string that
//! begins with U+0001.

ghost use Rattle.std.specs.Prelude.{◌≡◌, ◌∷◌, ◌+◌, ◌<◌, ◌≤◌, ◌++◌, ◌==◌, not, false, true, length, drop, slice_index};
ghost use Rattle.std.specs.Prelude.{count_by, filter, IfOk, OnOk};
ghost use Rattle.std.specs.List.{prefix_len, list_any, AllPass, flat_map};
ghost use Rattle.std.specs.Char.{is_ascii_digit};
ghost use Rattle.std.specs.Str.{IsUtf8};
ghost use Rattle.json.specs.Word.{after_number};
ghost use Rattle.memchr.specs.Find.{is_byte2};
ghost use Rattle.ss_text.specs.Decimals.{is_number_byte, outside, inside, pieces, bytes_of_piece, is_all, is_point};
ghost use Rattle.ss_text.specs.Decimals.{is_inexact, is_decimal, begins_marked, changed_piece, changed_text};
ghost use Rattle.ss_text.specs.Decimals.{wrapped_text};
ghost use Rattle.ss_text.specs.Decimals.{marked_text, unmarked_text, is_wrapped, count_of};
ghost use Rattle.ss_text.specs.Decimals as cut;
ghost use Rattle.ss_text.specs.Scan.{inside_len, scanned_piece, HasRun};

use memchr::memchr2;
use std::alloc::{AllocError, Global};

/// The escape of U+0001, which marks a number among strings.
const ESCAPE_MARK: &[u8] = b"\\u0001";

/// A text whose decimals are wrapped.
#[derive(Debug, Drop)]
pub struct Wrapped {
    pub bytes: Vec<u8>,

    /// How many were wrapped.
    pub count: u64,
}

/// How the pieces of a text change.
#[derive(Clone, Copy, Debug)]
pub(crate) enum Change {
    /// Each decimal becomes a list of one string.
    Wrap,

    /// Each decimal becomes a string with the mark, and a string that begins with the mark gets one more.
    Mark,

    /// Each string with the mark becomes a number again, and one that begins with two marks loses the first.
    Unmark,
}

/// A piece of a text: a longest run of a number's bytes outside strings, what stands between the quotes of a string,
/// what follows the quote of a string without an end, or a byte between.
#[derive(Clone, Copy, Debug)]
enum Piece<'a> {
    Run(&'a [u8]),
    Text(&'a [u8]),
    Unended(&'a [u8]),
    Byte(u8),
}

fn is_in_number(byte: u8) -> bool
    ensures { result ≡ is_number_byte byte }
{
    byte.is_ascii_digit()
        || byte == b'+'
        || byte == b'-'
        || byte == b'.'
        || byte == b'e'
        || byte == b'E'
}

fn run_end(text: &[u8], start: usize) -> usize
    requires { start ≤ length text.now }
    ensures { result ≡ start + prefix_len is_number_byte (drop start text.now) }
{
    let mut end = start;
    while end < text.len() && is_in_number(text[end]) {
        end += 1;
    }
    end
}

/// Where the next quote or backslash stands, or the text's end.
fn quote_or_backslash(text: &[u8], start: usize) -> usize
    requires { start ≤ length text.now }
    ensures later { start ≤ result }
    ensures within { result ≤ length text.now }
    ensures passed { start + inside_len inside (drop start text.now) ≡ result + inside_len inside (drop result text.now) }
    ensures stops { result < length text.now → is_byte2 34 92 (slice_index text.now result) ≡ true }
{
    match memchr2(b'"', b'\\', &text[start..]) {
        Some(passed) => start + passed,
        None => text.len(),
    }
}

/// Where the quote stands that ends a string, or the text's end; a byte behind a backslash ends none.
fn inside_end(text: &[u8], start: usize) -> usize
    requires { start ≤ length text.now }
    ensures { result ≡ start + inside_len inside (drop start text.now) }
{
    let mut end = quote_or_backslash(text, start);
    while end < text.len() && text[end] == b'\\' {
        let behind = if end + 1 < text.len() {
            end + 2
        } else {
            end + 1
        };
        end = quote_or_backslash(text, behind);
    }
    end
}

/// The string whose quote stands there, and where it ends.
fn string_at(text: &[u8], at: usize) -> (Piece<'_>, usize)
    requires within { at < length text.now }
    requires quote { slice_index text.now at ≡ 34 }
    ensures later { at < result.1 }
    ensures within { result.1 ≤ length text.now }
    ensures cut { pieces outside (drop at text.now) ≡ scanned_piece result.0 ∷ pieces outside (drop result.1 text.now) }
    ensures run { HasRun result.0 }
{
    let end = inside_end(text, at + 1);
    if end < text.len() {
        (Piece::Text(&text[at + 1..end]), end + 1)
    } else {
        (Piece::Unended(&text[at + 1..]), end)
    }
}

/// The piece that begins there, outside strings, and where it ends.
fn next_piece(text: &[u8], at: usize) -> (Piece<'_>, usize)
    requires { at < length text.now }
    ensures later { at < result.1 }
    ensures within { result.1 ≤ length text.now }
    ensures cut { pieces outside (drop at text.now) ≡ scanned_piece result.0 ∷ pieces outside (drop result.1 text.now) }
    ensures run { HasRun result.0 }
{
    let byte = text[at];
    if byte == b'"' {
        string_at(text, at)
    } else if is_in_number(byte) {
        let end = run_end(text, at);
        (Piece::Run(&text[at..end]), end)
    } else {
        (Piece::Byte(byte), at + 1)
    }
}

fn has_point(run: &[u8]) -> bool
    ensures { result ≡ list_any is_point run.now }
{
    run.iter().any(|b| *b == b'.' || *b == b'e' || *b == b'E')
}

fn digit_count(run: &[u8]) -> usize
    ensures { result ≡ count_by is_ascii_digit run.now }
{
    run.iter().filter(|b| b.is_ascii_digit()).count()
}

/// Whether a number of these characters would be read as a float.
fn is_unsafe(run: &[u8]) -> bool
    ensures { result ≡ is_inexact run.now }
{
    has_point(run) || digit_count(run) > 18 || run == b"-0".as_slice()
}

/// Whether these characters are a number that serde_json would read as a float: one with a point, an exponent or more
/// than 18 digits, or `-0`.
#[tactic(auto, unfolding(crate::specs::Decimals::is_decimal))]
pub fn is_decimal(text: &str) -> bool
    ensures { result ≡ is_decimal text.now }
{
    is_unsafe(text.as_bytes()) && json::is_number(text)
}

fn is_number_text(run: &[u8]) -> bool
    requires { AllPass is_number_byte run.now }
    ensures { result ≡ is_all (after_number run.now) }
{
    match std::str::from_utf8(run) {
        Ok(text) => json::is_number(text),
        Err(_) => false,
    }
}

#[tactic(auto, unfolding(crate::specs::Decimals::is_decimal))]
fn is_to_wrap(run: &[u8]) -> bool
    requires { AllPass is_number_byte run.now }
    ensures { result ≡ is_decimal run.now }
{
    is_unsafe(run) && is_number_text(run)
}

fn begins_marked(inside: &[u8]) -> bool
    ensures { result ≡ begins_marked inside.now }
{
    inside.starts_with(ESCAPE_MARK)
}

/// Appends a string that has these characters behind others.
fn push_string(out: &mut Vec<u8>, front: &[u8], inside: &[u8]) -> Result<(), AllocError>
    ensures { OnOk result (out.new.items ≡ out.old.items ++ bytes_of_piece (cut.text (front.now ++ inside.now))) }
{
    out.push(b'"')?;
    out.extend_from_slice(front)?;
    out.extend_from_slice(inside)?;
    out.push(b'"')?;
    Ok(())
}

/// Appends a run, changed.
fn push_run(out: &mut Vec<u8>, change: Change, run: &[u8]) -> Result<(), AllocError>
    requires { AllPass is_number_byte run.now }
    ensures { OnOk result (out.new.items ≡ out.old.items ++ flat_map bytes_of_piece (changed_piece change (cut.run run.now))) }
{
    match change {
        Change::Wrap if is_to_wrap(run) => {
            out.push(b'[')?;
            push_string(out, b"", run)?;
            out.push(b']')?;
        }
        Change::Mark if is_to_wrap(run) => push_string(out, ESCAPE_MARK, run)?,
        _ => out.extend_from_slice(run)?,
    }
    Ok(())
}

/// Appends a string by what stands between its quotes, changed.
fn push_text(out: &mut Vec<u8>, change: Change, inside: &[u8]) -> Result<(), AllocError>
    ensures { OnOk result (out.new.items ≡ out.old.items ++ flat_map bytes_of_piece (changed_piece change (cut.text inside.now))) }
{
    match change {
        Change::Mark if begins_marked(inside) => push_string(out, ESCAPE_MARK, inside),
        Change::Unmark if begins_marked(inside) => {
            let rest = &inside[ESCAPE_MARK.len()..];
            if begins_marked(rest) {
                push_string(out, b"", rest)
            } else {
                Ok(out.extend_from_slice(rest)?)
            }
        }
        _ => push_string(out, b"", inside),
    }
}

/// Appends a piece, changed.
fn push_piece(out: &mut Vec<u8>, change: Change, piece: Piece<'_>) -> Result<(), AllocError>
    requires { HasRun piece }
    ensures { OnOk result (out.new.items ≡ out.old.items ++ flat_map bytes_of_piece (changed_piece change (scanned_piece piece.entry))) }
{
    match piece {
        Piece::Run(run) => push_run(out, change, run),
        Piece::Text(inside) => push_text(out, change, inside),
        Piece::Unended(inside) => {
            out.push(b'"')?;
            out.extend_from_slice(inside)?;
            Ok(())
        }
        Piece::Byte(byte) => Ok(out.push(byte)?),
    }
}

/// The text with its pieces changed, in one pass.
fn rewrite(alloc: Global, text: &[u8], change: Change) -> Result<Vec<u8>, AllocError>
    ensures { IfOk result (λ out. out.items ≡ changed_text change text.now) }
{
    let mut out = Vec::with_capacity(alloc, text.len())?;
    let mut at = 0;
    while at < text.len() {
        let (piece, end) = next_piece(text, at);
        push_piece(&mut out, change, piece)?;
        at = end;
    }
    Ok(out)
}

fn is_wrapped(piece: Piece<'_>) -> bool
    requires { HasRun piece }
    ensures { result ≡ is_wrapped (scanned_piece piece.entry) }
{
    match piece {
        Piece::Run(run) => is_to_wrap(run),
        _ => false,
    }
}

/// How many decimals a text has: numbers outside strings that have a point, an exponent or more than 18 digits, or are
/// `-0`. A text without one is its own wrapped text, so it can be read as it is.
pub fn count_decimals(text: &[u8]) -> u64
    ensures count { result ≡ count_of text.now }
    ensures same { result ≡ 0 → wrapped_text text.now ≡ text.now }
{
    let mut count = 0u64;
    let mut at = 0;
    while at < text.len() {
        let (piece, end) = next_piece(text, at);
        if is_wrapped(piece) {
            count += 1;
        }
        at = end;
    }
    count
}

/// The text with its decimals wrapped: a number outside strings that has a point, an exponent or more than 18 digits,
/// or is `-0`, becomes a list of one string with the same characters. All else stays. So serde_json reads no number of
/// it as a float, which would lose digits (this project).
pub fn wrap_decimals(alloc: Global, text: &[u8]) -> Result<Wrapped, AllocError>
    ensures bytes { IfOk result (λ w. w.bytes.items ≡ wrapped_text text.now) }
    ensures count { IfOk result (λ w. w.count ≡ count_of text.now) }
{
    Ok(Wrapped {
        bytes: rewrite(alloc, text, Change::Wrap)?,
        count: count_decimals(text),
    })
}

/// The text with its decimals marked: each becomes a string of the escape `\u0001` and its characters, and each string,
/// names included, that begins with that escape gets one more at its front. All else stays. So serde_json reads every
/// number of it exactly, and `unmark_decimals` gives the text back (this project).
pub fn mark_decimals(alloc: Global, text: &[u8]) -> Result<Vec<u8>, AllocError>
    ensures text { IfOk result (λ m. m.items ≡ marked_text text.now) }
    ensures utf8 { IsUtf8 text.now → IfOk result (λ m. IsUtf8 m.items) }
{
    rewrite(alloc, text, Change::Mark)
}

/// The text with its marks undone: a string that begins with exactly one escape `\u0001` becomes the characters after
/// it, without quotes, and one that begins with two or more loses the first. All else stays.
pub fn unmark_decimals(alloc: Global, text: &[u8]) -> Result<Vec<u8>, AllocError>
    ensures text { IfOk result (λ u. u.items ≡ unmarked_text text.now) }
    ensures utf8 { IsUtf8 text.now → IfOk result (λ u. IsUtf8 u.items) }
{
    rewrite(alloc, text, Change::Unmark)
}
