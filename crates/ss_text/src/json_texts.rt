//! Strings as JSON writes them.

ghost use Rattle.std.specs.Prelude.{◌≡◌, ◌+◌, ◌≤◌, ◌<◌, ◌++◌, ◌∷◌, [], ◌/◌, ◌%◌, false, true, length, take, drop, map};
ghost use Rattle.std.specs.Prelude.{slice_index, OnOk, OnErr};
ghost use Rattle.std.specs.Char.{digit_char};
ghost use Rattle.std.specs.List.{prefix_len};
ghost use Rattle.serde_json.specs.Data.{string};
ghost use Rattle.serde_json.specs.Written.{compact_text};
ghost use Rattle.std.specs.Simd.Lanes.{mask_l};
ghost use Rattle.json.specs.Print.{escape_letter, escape_byte, escape};
ghost use Rattle.ss_text.specs.Scan.{is_escaped, is_unescaped};

use std::alloc::AllocError;
use std::simd::prelude::*;

/// Whether a byte stands in a string as it is.
fn is_unescaped(byte: u8) -> bool
    ensures { result ≡ is_unescaped byte }
{
    byte >= 0x20 && byte != b'"' && byte != b'\\'
}

/// The bytes that have an escape: the bit of each is set.
fn escaped(bytes: u8x32) -> u64
    ensures { result ≡ mask_l (map is_escaped bytes) }
{
    (bytes.simd_eq(u8x32::splat(b'"'))
        | bytes.simd_eq(u8x32::splat(b'\\'))
        | bytes.simd_lt(u8x32::splat(0x20))).to_bitmask()
}

/// Where the next byte stands that has an escape, or the end: 32 bytes are looked at in one step, as the kit's `json` does.
fn plain_end(text: &[u8], start: usize) -> usize
    requires { start ≤ length text.now }
    ensures { result ≡ start + prefix_len is_unescaped (drop start text.now) }
{
    let mut end = start;
    while text.len() - end >= 32 {
        let found = escaped(u8x32::from_slice(&text[end..]));
        if found != 0 {
            return end + found.trailing_zeros() as usize;
        }
        end += 32;
    }
    while end < text.len() && is_unescaped(text[end]) {
        end += 1;
    }
    end
}

/// The letter of a byte's short escape, or 0 where it has none.
fn escape_letter(byte: u8) -> u8
    ensures { result ≡ escape_letter byte }
{
    match byte {
        b'"' => b'"',
        b'\\' => b'\\',
        8 => b'b',
        12 => b'f',
        10 => b'n',
        13 => b'r',
        9 => b't',
        _ => 0,
    }
}

fn digit(value: u8) -> u8
    requires { value < 16 }
    ensures { result ≡ digit_char value }
{
    if value < 10 {
        b'0' + value
    } else {
        b'a' - 10 + value
    }
}

/// Appends the escape of a byte that has one: two characters, or `\u00` and two digits.
fn push_escape(out: &mut Vec<u8>, byte: u8) -> Result<(), AllocError>
    requires { is_unescaped byte ≡ false }
    ensures ok { OnOk result (out.new.items ≡ out.old.items ++ escape_byte byte) }
    ensures err { OnErr result (out.new.items ≡ out.old.items) }
{
    let letter = escape_letter(byte);
    if letter > 0 {
        out.extend_from_slice(&[b'\\', letter])?;
    } else {
        let high = digit(byte / 16);
        let low = digit(byte % 16);
        out.extend_from_slice(&[b'\\', b'u', b'0', b'0', high, low])?;
    }
    Ok(())
}

/// Appends a string's characters, escaped: what needs no escape is copied as one piece.
fn push_escaped(out: &mut Vec<u8>, text: &[u8]) -> Result<(), AllocError>
    ensures ok { OnOk result (out.new.items ≡ out.old.items ++ escape text.now) }
    ensures err { OnErr result (take (length out.old.items) out.new.items ≡ out.old.items) }
{
    let mut at = 0;
    while at < text.len() {
        let end = plain_end(text, at);
        out.extend_from_slice(&text[at..end])?;
        at = end;
        if end < text.len() {
            push_escape(out, text[end])?;
            at = end + 1;
        }
    }
    Ok(())
}

fn push_quoted(out: &mut Vec<u8>, text: &[u8]) -> Result<(), AllocError>
    ensures ok { OnOk result (out.new.items ≡ out.old.items ++ (34 ∷ (escape text.now ++ 34 ∷ []))) }
    ensures err { OnErr result (take (length out.old.items) out.new.items ≡ out.old.items) }
{
    out.push(b'"')?;
    push_escaped(out, text)?;
    out.push(b'"')?;
    Ok(())
}

/// Appends the text that serde_json writes for a string: in quotes, with the shortest escapes. Without memory for it
/// `out` stays as it was.
pub fn push_json_text(out: &mut Vec<u8>, text: &str) -> Result<(), AllocError>
    ensures ok { OnOk result (out.new.items ≡ out.old.items ++ compact_text (string text.now)) }
    ensures err { OnErr result (out.new.items ≡ out.old.items) }
{
    let before = out.len();
    let pushed = push_quoted(out, text.as_bytes());
    if pushed.is_err() {
        out.truncate(before);
    }
    pushed
}
