//! Lines of a summary.

ghost use Rattle.std.specs.Prelude.{◌≡◌, ◌++◌, OnOk, codes, decimal};
ghost use Rattle.std.specs.List.{flat_map};
ghost use Rattle.ss_rehearse.specs.Summaries.{line};

use itoa::Buffer;
use std::alloc::AllocError;

/// Appends the decimal digits of a number.
pub(crate) fn push_number(out: &mut Vec<u8>, number: u64) -> Result<(), AllocError>
    ensures { OnOk result (out.new.items ≡ out.old.items ++ decimal number) }
{
    let mut buffer = Buffer::new();
    out.extend_from_slice(buffer.format(number).as_bytes())
}

fn push_numbers(out: &mut Vec<u8>, numbers: &[u64]) -> Result<(), AllocError>
    ensures { OnOk result (out.new.items ≡ out.old.items ++ flat_map (λ n. codes " " ++ decimal n) numbers.now) }
{
    for number in numbers {
        out.extend_from_slice(b" ")?;
        push_number(out, *number)?;
    }
    Ok(())
}

/// Appends a name with numbers behind it, as a line.
#[tactic(auto, unfolding(crate::specs::Summaries::line))]
pub(crate) fn push_line(out: &mut Vec<u8>, name: &str, numbers: &[u64]) -> Result<(), AllocError>
    ensures { OnOk result (out.new.items ≡ out.old.items ++ line name.now numbers.now) }
{
    out.extend_from_slice(name.as_bytes())?;
    push_numbers(out, numbers)?;
    out.extend_from_slice(b"\n")
}
