//! Lines of a commit that no account has.

ghost use Rattle.std.specs.Prelude.{◌≡◌, ◌++◌, ◌∷◌, [], OnOk};
ghost use Rattle.json.specs.Print.{quoted};
ghost use Rattle.serde_json.specs.Data.{string};
ghost use Rattle.serde_json.specs.Written.{compact_text};
ghost use Rattle.ss_lines.specs.Lines.{natural, time};
ghost use Rattle.ss_commits.specs.Commits.{mark_text};
ghost use Rattle.ss_commits.specs.declared.marks.Mark.TheVariants.{Now, NoRow, NoCollection, NoBatch, NextParts};

use itoa::Buffer;
use ss_text::{Id, Name, Stamp, push_json_text, push_stamp};
use std::alloc::AllocError;

/// What such a line says. The first text of each begins with `n`, which that of no other line does.
#[derive(Drop, Debug)]
pub(crate) enum Mark {
    /// `["now","<time>"]`: the account's moment.
    Now(Stamp),

    /// `["no-row","<collection>","<id>"]`: the row is there no more.
    NoRow { collection: Name, id: Id },

    /// `["no-collection","<name>"]`: the collection is there no more, nor are its rows.
    NoCollection { name: Name },

    /// `["no-batch",<number>]`: the batch is there no more.
    NoBatch { number: u64 },

    /// `["next-parts",<number>]`: the parts that follow come behind those that the batch has.
    NextParts { number: u64 },
}

fn push_tag(out: &mut Vec<u8>, tag: &str) -> Result<(), AllocError>
    ensures { OnOk result (out.new.items ≡ out.old.items ++ 91 ∷ quoted tag.now) }
{
    out.push(b'[')?;
    push_json_text(out, tag)
}

fn push_text(out: &mut Vec<u8>, text: &str) -> Result<(), AllocError>
    ensures { OnOk result (out.new.items ≡ out.old.items ++ 44 ∷ compact_text (string text.now)) }
{
    out.push(b',')?;
    push_json_text(out, text)
}

fn push_time(out: &mut Vec<u8>, stamp: Stamp) -> Result<(), AllocError>
    ensures { OnOk result (out.new.items ≡ out.old.items ++ 44 ∷ compact_text (time stamp)) }
{
    let _time = stamp.get();
    out.extend_from_slice(b",\"")?;
    push_stamp(out, stamp)?;
    out.push(b'"')?;
    Ok(())
}

fn push_number(out: &mut Vec<u8>, number: u64) -> Result<(), AllocError>
    ensures { OnOk result (out.new.items ≡ out.old.items ++ 44 ∷ compact_text (natural number)) }
{
    let mut buffer = Buffer::new();
    out.push(b',')?;
    out.extend_from_slice(buffer.format(number).as_bytes())
}

fn push_end(out: &mut Vec<u8>) -> Result<(), AllocError>
    ensures { OnOk result (out.new.items ≡ out.old.items ++ 93 ∷ 10 ∷ []) }
{
    out.extend_from_slice(b"]\n")
}

/// Appends the line that says the account's moment.
pub(crate) fn push_now(out: &mut Vec<u8>, moment: Stamp) -> Result<(), AllocError>
    ensures { OnOk result (out.new.items ≡ out.old.items ++ mark_text (Now moment)) }
{
    push_tag(out, "now")?;
    push_time(out, moment)?;
    push_end(out)?;
    Ok(())
}

/// Appends the line of a row that is there no more.
pub(crate) fn push_no_row(out: &mut Vec<u8>, collection: &Name, id: &Id) -> Result<(), AllocError>
    ensures { OnOk result (out.new.items ≡ out.old.items ++ mark_text (NoRow collection.now id.now)) }
{
    push_tag(out, "no-row")?;
    push_text(out, collection.as_str())?;
    push_text(out, id.as_str())?;
    push_end(out)?;
    Ok(())
}

/// Appends the line of a collection that is there no more.
pub(crate) fn push_no_collection(out: &mut Vec<u8>, name: &Name) -> Result<(), AllocError>
    ensures { OnOk result (out.new.items ≡ out.old.items ++ mark_text (NoCollection name.now)) }
{
    push_tag(out, "no-collection")?;
    push_text(out, name.as_str())?;
    push_end(out)?;
    Ok(())
}

/// Appends the line of a batch that is there no more.
pub(crate) fn push_no_batch(out: &mut Vec<u8>, number: u64) -> Result<(), AllocError>
    ensures { OnOk result (out.new.items ≡ out.old.items ++ mark_text (NoBatch number)) }
{
    push_tag(out, "no-batch")?;
    push_number(out, number)?;
    push_end(out)?;
    Ok(())
}

/// Appends the line behind which the parts follow that a batch gets.
pub(crate) fn push_next_parts(out: &mut Vec<u8>, number: u64) -> Result<(), AllocError>
    ensures { OnOk result (out.new.items ≡ out.old.items ++ mark_text (NextParts number)) }
{
    push_tag(out, "next-parts")?;
    push_number(out, number)?;
    push_end(out)?;
    Ok(())
}
