//! The command `merge`: what a merge of a device with remote rows comes to.

ghost use Rattle.std.specs.Prelude.{IfOk, IfErr};
ghost use Rattle.ss_device.specs.Device.{AreById, row_ids};
ghost use Rattle.ss_run_edit.specs.Merging.{IsMergeFile, IsMergeOf, TellsMerging, IsTelling, RefusesMerge};
ghost use Rattle.ss_run_edit.specs.Runs.{Merges};

use crate::endings::Ending;
use crate::files::{device_told, front_of};
use crate::outputs::write_out;
use crate::remotes::read_remotes;
use crate::tellings::merge_text;
use ss_build::build;
use ss_device::Device;
use ss_device_file::Front;
use ss_input::read_whole;
use ss_merge::merge as merge_sides;
use ss_outside::{Sink, Source};
use ss_plan::changes;
use ss_record::{Reading, Sheet};
use ss_text::Id;
use ss_tree::Sides;
use std::alloc::{AllocError, Global};

/// A device, and the remote rows that it is merged with.
#[derive(Drop)]
struct Input {
    device: Device,
    rows: Vec<Sheet>,
}

/// What is told of merging sides, where this was read of the remote rows.
fn telling(alloc: Global, sides: &Sides, readings: &[(Id, Reading)]) -> Result<Vec<u8>, AllocError>
    ensures { IfOk result (λ out. IsTelling sides.now readings.now out.items) }
{
    let merged = merge_sides(alloc, sides)?;
    let parts = changes(alloc, &merged.tree, readings)?;
    merge_text(alloc, &merged, parts.len())
}

/// What is told of merging a device with remote rows.
fn merged_text(alloc: Global, device: &Device, rows: &[Sheet]) -> Result<Vec<u8>, AllocError>
    requires { AreById (row_ids rows.now) }
    ensures { IfOk result (λ out. TellsMerging device.now rows.now out.items) }
{
    let mirror = build(alloc, device.mirror())?;
    let remote = build(alloc, rows)?;
    let dead = device.dead_ids(alloc)?;
    let sides = Sides {
        mirror: &mirror.tree,
        local: device.tree(),
        remote: &remote.tree,
        local_dead: &dead,
        remote_dead: &remote.dead,
    };
    telling(alloc, &sides, &remote.readings)
}

/// The device and the remote rows of a text.
fn input_of(alloc: Global, text: &[u8]) -> Result<Input, Ending>
    ensures file { IfOk result (λ i. IsMergeFile text.now i.device i.rows.items) }
    ensures refused { IfErr result (λ ending. RefusesMerge text.now ending) }
{
    let Front { lines, used } = match front_of(alloc, text) {
        Ok(front) => front,
        Err(ending) => return Err(ending),
    };
    let count = lines.len();
    let device = match device_told(alloc, lines) {
        Ok(device) => device,
        Err(ending) => return Err(ending),
    };
    let back = &text[used..];
    let remotes = match read_remotes(alloc, back, count) {
        Ok(remotes) => remotes,
        Err(ending) => return Err(ending),
    };
    if remotes.used < back.len() {
        let line = (count + remotes.rows.len() + 2) as u64;
        return Err(Ending::BadLine { line });
    }
    Ok(Input {
        device,
        rows: remotes.rows,
    })
}

/// What is told of merging the device of a text with its remote rows.
fn merged(alloc: Global, text: &[u8]) -> Result<Vec<u8>, Ending>
    ensures made { IfOk result (λ out. IsMergeOf text.now out.items) }
    ensures refused { IfErr result (λ ending. RefusesMerge text.now ending) }
{
    let input = input_of(alloc, text)?;
    Ok(merged_text(alloc, &input.device, &input.rows)?)
}

/// Reads a device's file with remote rows behind it, and writes what their merge comes to.
pub fn merge<S: Source, T: Sink>(alloc: Global, input: &mut S, output: &mut T) -> Ending
    ensures { Merges result (S.Told.told input.old) (S.Told.told input.new) (T.Told.told output.old)
        (T.Told.told output.new) }
{
    let text = match read_whole(alloc, input) {
        Ok(text) => text,
        Err(fault) => return Ending::from(fault),
    };
    match merged(alloc, text.as_slice()) {
        Ok(out) => write_out(out.as_slice(), output),
        Err(ending) => ending,
    }
}
