//! How lists of values are written in compact JSON. Without memory a part of one may stand at the end of `out`.

ghost use Rattle.std.specs.Prelude.{◌≡◌, ◌++◌, ◌∷◌, OnOk};
ghost use Rattle.serde_json.specs.Data.{Data};
ghost use Rattle.serde_json.specs.Written.{compact_text};
ghost use Rattle.ss_lines.specs.Cells.{data_of};
ghost use Rattle.ss_log_lines.specs.Arrays.{behind};
ghost use Rattle.ss_log_lines.specs.Requests.{data_of_list};

use ss_lines::cells::{Cell, push_cell};
use std::alloc::AllocError;

/// A value that stands in a list.
pub(crate) trait Written {
    /// The value as JSON.
    ghost json: { Self → Data };

    /// Appends the value.
    fn push(&self, out: &mut Vec<u8>) -> Result<(), AllocError>
        ensures { OnOk result (out.new.items ≡ out.old.items ++ compact_text (json self.now)) };
}

impl Written for Cell<'_> {
    ghost use Rattle.ss_lines.specs.Cells.{data_of};

    ghost json = { data_of };

    fn push(&self, out: &mut Vec<u8>) -> Result<(), AllocError> {
        push_cell(out, self)
    }
}

/// Appends values, each behind a comma.
fn push_behind<T: Written>(out: &mut Vec<u8>, values: &[T]) -> Result<(), AllocError>
    ensures { OnOk result (out.new.items ≡ out.old.items ++ behind T.json values.now) }
{
    for value in values {
        out.push(b',')?;
        value.push(out)?;
    }
    Ok(())
}

/// Appends the list of a value and those behind it.
fn push_some<T: Written>(out: &mut Vec<u8>, first: &T, rest: &[T]) -> Result<(), AllocError>
    ensures { OnOk result (out.new.items ≡ out.old.items ++ compact_text (data_of_list T.json (first.now ∷ rest.now))) }
{
    out.push(b'[')?;
    first.push(out)?;
    push_behind(out, rest)?;
    out.push(b']')?;
    Ok(())
}

/// Appends a list of values.
pub(crate) fn push_array<T: Written>(out: &mut Vec<u8>, values: &[T]) -> Result<(), AllocError>
    ensures { OnOk result (out.new.items ≡ out.old.items ++ compact_text (data_of_list T.json values.now)) }
{
    match values.split_first() {
        Some((first, rest)) => push_some(out, first, rest),
        None => out.extend_from_slice(b"[]"),
    }
}
