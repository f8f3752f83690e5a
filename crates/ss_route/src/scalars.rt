//! What bodies are made of: strings, numbers and times.

ghost use Rattle.std.specs.Prelude.{◌≡◌, ◌++◌, OnOk, decimal};
ghost use Rattle.std.specs.Fmt.{signed_decimal};
ghost use Rattle.ss_text.specs.Time.{stamp_text};
ghost use Rattle.ss_route.specs.Texts.{json_text, kilobytes_text};

use itoa::Buffer;
use ss_text::push_json_text;
use std::alloc::AllocError;

/// Appends bytes.
pub fn put(out: &mut Vec<u8>, text: &[u8]) -> Result<(), AllocError>
    ensures { OnOk result (out.new.items ≡ out.old.items ++ text.now) }
{
    out.extend_from_slice(text)
}

/// Appends a JSON string.
#[tactic(auto, unfolding(crate::specs::Texts::json_text))]
pub fn put_json(out: &mut Vec<u8>, text: &str) -> Result<(), AllocError>
    ensures { OnOk result (out.new.items ≡ out.old.items ++ json_text text.now) }
{
    push_json_text(out, text)
}

/// Appends a number.
pub fn put_number(out: &mut Vec<u8>, number: u64) -> Result<(), AllocError>
    ensures { OnOk result (out.new.items ≡ out.old.items ++ decimal number) }
{
    let mut buffer = Buffer::new();
    put(out, buffer.format(number).as_bytes())
}

/// Appends a number with its sign.
pub fn put_signed(out: &mut Vec<u8>, number: i32) -> Result<(), AllocError>
    ensures { OnOk result (out.new.items ≡ out.old.items ++ signed_decimal number) }
{
    let mut buffer = Buffer::new();
    put(out, buffer.format(number).as_bytes())
}

/// Appends hundredths: whole ones, a point and two digits.
#[tactic(auto, using(crate::proofs::Appending::append_append), unfolding(ss_text::specs::Time::stamp_text))]
fn put_hundredths(out: &mut Vec<u8>, hundredths: u64) -> Result<(), AllocError>
    ensures { OnOk result (out.new.items ≡ out.old.items ++ stamp_text hundredths) }
{
    let rest = (hundredths % 100) as u8;
    put_number(out, hundredths / 100)?;
    put(out, &[b'.', b'0' + rest / 10, b'0' + rest % 10])
}

/// Appends payload bytes in KB, rounded down to hundredths.
#[tactic(auto, unfolding(crate::specs::Texts::kilobytes_text))]
pub fn put_kilobytes(out: &mut Vec<u8>, bytes: u64) -> Result<(), AllocError>
    ensures { OnOk result (out.new.items ≡ out.old.items ++ kilobytes_text bytes) }
{
    put_hundredths(out, (u128::from(bytes) * 100 / 1024) as u64)
}
