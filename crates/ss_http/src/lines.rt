//! The lines of a head.

ghost use Rattle.std.specs.Prelude.{◌≡◌, ◌++◌, Some, codes, decimal, option_map, OnOk};
ghost use Rattle.ss_text.specs.Time.{stamp_text};
ghost use Rattle.ss_http.specs.Fields.{field_if, lines};

use itoa::Buffer;
use ss_text::{Stamp, push_stamp};
use std::alloc::AllocError;

pub(crate) fn push_text(out: &mut Vec<u8>, text: &str) -> Result<(), AllocError>
    ensures { OnOk result (out.new.items ≡ out.old.items ++ text.now) }
{
    out.extend_from_slice(text.as_bytes())
}

pub(crate) fn push_number(out: &mut Vec<u8>, number: u64) -> Result<(), AllocError>
    ensures { OnOk result (out.new.items ≡ out.old.items ++ decimal number) }
{
    let mut buffer = Buffer::new();
    out.extend_from_slice(buffer.format(number).as_bytes())
}

pub(crate) fn begin_line(out: &mut Vec<u8>, name: &str) -> Result<(), AllocError>
    ensures { OnOk result (out.new.items ≡ out.old.items ++ name.now ++ codes ": ") }
{
    push_text(out, name)?;
    push_text(out, ": ")
}

#[tactic(auto, unfolding(crate::specs::Fields::lines))]
pub(crate) fn push_stamp_line(
    out: &mut Vec<u8>,
    name: &str,
    stamp: Option<Stamp>,
) -> Result<(), AllocError>
    ensures { OnOk result (out.new.items ≡ out.old.items ++ lines (field_if name.now (option_map stamp_text stamp))) }
{
    match stamp {
        None => Ok(()),
        Some(stamp) => {
            begin_line(out, name)?;
            push_stamp(out, stamp)?;
            push_text(out, "\r\n")
        }
    }
}

#[tactic(auto, unfolding(crate::specs::Fields::lines))]
pub(crate) fn push_number_line(
    out: &mut Vec<u8>,
    name: &str,
    number: Option<u64>,
) -> Result<(), AllocError>
    ensures { OnOk result (out.new.items ≡ out.old.items ++ lines (field_if name.now (option_map decimal number))) }
{
    match number {
        None => Ok(()),
        Some(number) => {
            begin_line(out, name)?;
            push_number(out, number)?;
            push_text(out, "\r\n")
        }
    }
}

#[tactic(auto, unfolding(crate::specs::Fields::lines))]
pub(crate) fn push_line(out: &mut Vec<u8>, name: &str, value: &str) -> Result<(), AllocError>
    ensures { OnOk result (out.new.items ≡ out.old.items ++ lines (field_if name.now (Some value.now))) }
{
    begin_line(out, name)?;
    push_text(out, value)?;
    push_text(out, "\r\n")
}
