//! How lines are written.

ghost use Rattle.std.specs.Prelude.{◌≡◌, ◌++◌, IfOk, OnOk};
ghost use Rattle.ss_device_file.specs.Lines.{head_line, line_text, record_in};

use crate::lines::{ItemLine, Line, Version};
use ss_device::{push_dead, push_item, push_row, push_synced};
use ss_record::write_record;
use ss_text::Word;
use std::alloc::{AllocError, Global};

#[tactic(auto, unfolding(ss_device::specs::Writing::device_line))]
fn head_line(version: Version) -> &'static [u8]
    ensures { result.now ≡ head_line version }
{
    match version {
        Version::First => b"[\"device\",1]\n",
        Version::Second => b"[\"device\",2]\n",
    }
}

/// The record of an item in its line.
#[tactic(auto, unfolding(crate::specs::Lines::record_in))]
fn record_in(alloc: Global, line: &ItemLine) -> Result<Word, AllocError>
    ensures { IfOk result (λ text. text ≡ record_in line.now) }
{
    write_record(alloc, &line.item, &line.parent, line.children.as_slice())
}

/// Appends a line.
#[tactic(auto, unfolding(ss_device::specs::Writing::end_line))]
pub(crate) fn push_line(alloc: Global, out: &mut Vec<u8>, line: &Line) -> Result<(), AllocError>
    ensures { OnOk result (out.new.items ≡ out.old.items ++ line_text line.now) }
{
    match line {
        Line::Head(version) => out.extend_from_slice(head_line(*version)),
        Line::Synced(time) => push_synced(out, *time),
        Line::Row(row) => push_row(out, row),
        Line::Item(item) => push_item(out, item.time, &record_in(alloc, item)?),
        Line::Dead(id, time) => push_dead(out, id, *time),
        Line::End => out.extend_from_slice(b"[\"end\"]\n"),
    }
}
