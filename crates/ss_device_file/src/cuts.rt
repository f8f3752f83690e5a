//! The pieces of lines, as bytes.

ghost use Rattle.std.specs.Prelude.{◌≡◌, ◌==◌, ◌≤◌, ◌++◌, codes, ℕ, List, IfSome, Some, option_map, decimal, position};
ghost use Rattle.ss_text.specs.Time.{last_stamp};
ghost use Rattle.ss_device_file.specs.Cuts.{NoComma, begins_as_item, digits_and_record, item_pieces};

use ss_text::{Stamp, read_number};

/// How an item's line begins.
const FRONT: &[u8] = b"[\"item\",";

/// The digits of an item's time, and its record.
#[derive(Clone, Copy)]
pub(crate) struct ItemCut<'a> {
    pub(crate) digits: &'a [u8],
    pub(crate) text: &'a [u8],
}

/// The place of the first byte that is this one.
pub(crate) fn place_of(text: &[u8], byte: u8) -> Option<usize>
    ensures { result ≡ position (λ b. b == byte) text.now }
{
    text.iter().position(|b| *b == byte)
}

/// Cuts what stands behind the front of an item's line at its first comma.
fn cut_inner(inner: &[u8]) -> Option<ItemCut<'_>>
    ensures { (digits text : List ℕ) → NoComma digits → digits ++ codes "," ++ text ++ codes "]\n" ≡ inner.now
        → option_map digits_and_record result ≡ Some (digits, text) }
{
    let comma = place_of(inner, b',')?;
    let text = &inner[comma + 1..];
    if text.len() < 2 {
        return None;
    }
    Some(ItemCut {
        digits: &inner[..comma],
        text: &text[..text.len() - 2],
    })
}

/// Whether a line begins as an item's does.
pub(crate) fn is_of_item(line: &[u8]) -> bool
    ensures { result ≡ begins_as_item line.now }
{
    line.starts_with(FRONT)
}

/// The pieces of an item's line, with its newline.
pub(crate) fn cut_item(line: &[u8]) -> Option<ItemCut<'_>>
    ensures { (digits text : List ℕ) → NoComma digits → item_pieces digits text ≡ line.now
        → option_map digits_and_record result ≡ Some (digits, text) }
{
    if line.len() < FRONT.len() {
        return None;
    }
    cut_inner(&line[FRONT.len()..])
}

/// The time that digits say.
pub(crate) fn time_of(digits: &[u8]) -> Option<Stamp>
    ensures all { (time : ℕ) → time ≤ last_stamp → decimal time ≡ digits.now → result ≡ Some time }
    ensures range { IfSome result (λ time. time ≤ last_stamp) }
{
    match read_number(digits, 12) {
        Some(time) => Stamp::new(time),
        None => None,
    }
}
