//! The lines of a device's file.

ghost use Rattle.std.specs.Prelude.{◌≡◌, ◌++◌, OnOk};
ghost use Rattle.ss_device.specs.Writing.{dead_line, item_line, row_line, stamp_line};

use itoa::Buffer;
use ss_record::Sheet;
use ss_text::{Id, Stamp, Word, push_json_text, push_stamp};
use std::alloc::AllocError;

/// Appends the line of the last sync's time.
#[tactic(auto, unfolding(crate::specs::Writing::stamp_line))]
pub fn push_synced(out: &mut Vec<u8>, stamp: Stamp) -> Result<(), AllocError>
    ensures { OnOk result (out.new.items ≡ out.old.items ++ stamp_line stamp) }
{
    out.extend_from_slice(b"[\"stamp\",\"")?;
    push_stamp(out, stamp)?;
    out.extend_from_slice(b"\"]\n")?;
    Ok(())
}

/// Appends the line of a row of the mirror.
#[tactic(auto, unfolding(crate::specs::Writing::row_line))]
pub fn push_row(out: &mut Vec<u8>, row: &Sheet) -> Result<(), AllocError>
    ensures { OnOk result (out.new.items ≡ out.old.items ++ row_line row.now) }
{
    out.extend_from_slice(b"[\"row\",\"")?;
    push_stamp(out, row.modified)?;
    out.extend_from_slice(b"\",")?;
    push_json_text(out, row.id.as_str())?;
    out.extend_from_slice(b",")?;
    push_json_text(out, row.payload.as_str())?;
    out.extend_from_slice(b"]\n")?;
    Ok(())
}

/// Appends the line of an item, which has this record.
#[tactic(auto, unfolding(crate::specs::Writing::item_line))]
pub fn push_item(out: &mut Vec<u8>, time: Stamp, record_text: &Word) -> Result<(), AllocError>
    ensures { OnOk result (out.new.items ≡ out.old.items ++ item_line time record_text.now) }
{
    let mut buffer = Buffer::new();
    out.extend_from_slice(b"[\"item\",")?;
    out.extend_from_slice(buffer.format(time.get()).as_bytes())?;
    out.extend_from_slice(b",")?;
    out.extend_from_slice(record_text.as_str().as_bytes())?;
    out.extend_from_slice(b"]\n")?;
    Ok(())
}

/// Appends the line of a deleted id.
#[tactic(auto, unfolding(crate::specs::Writing::dead_line))]
pub fn push_dead(out: &mut Vec<u8>, id: &Id, time: Stamp) -> Result<(), AllocError>
    ensures { OnOk result (out.new.items ≡ out.old.items ++ dead_line (id.now, time)) }
{
    let mut buffer = Buffer::new();
    out.extend_from_slice(b"[\"dead\",")?;
    out.extend_from_slice(buffer.format(time.get()).as_bytes())?;
    out.extend_from_slice(b",")?;
    push_json_text(out, id.as_str())?;
    out.extend_from_slice(b"]\n")?;
    Ok(())
}
