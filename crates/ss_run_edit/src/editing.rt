//! The command `edit`: a device's file as an edit makes it.

ghost use Rattle.std.specs.Prelude.{◌≡◌, IfOk, IfErr, IfSome};
ghost use Rattle.ss_device_file.specs.Fresh.{fresh_text};
ghost use Rattle.ss_run_edit.specs.Changes.{IsEditOf, RefusesEdit};
ghost use Rattle.ss_run_edit.specs.declared.endings.Ending.TheVariants.{Memory};
ghost use Rattle.ss_run_edit.specs.Runs.{Edits, IsTime, Turns, WritesNew};

use crate::changes::{Change, apply, change_of};
use crate::endings::Ending;
use crate::files::device_in;
use crate::outputs::write_out;
use ss_device::{Device, EditFault, write_device};
use ss_input::read_whole;
use ss_outside::{Clock, Sink, Source};
use ss_words::EditCommand;
use std::alloc::Global;

/// The file of a text's device as a change makes it at this time.
fn edited(alloc: Global, change: Change, now: u64, text: &[u8]) -> Result<Vec<u8>, Ending>
    ensures made { IfOk result (λ out. IsEditOf change now text.now out.items) }
    ensures refused { IfErr result (λ ending. RefusesEdit change text.now ending) }
{
    let mut device = device_in(alloc, text)?;
    match apply(alloc, now, change, &mut device) {
        Ok(()) => Ok(write_device(alloc, &device)?),
        Err(EditFault::Memory) => Err(Ending::Memory),
        Err(fault) => Err(Ending::Refused { fault }),
    }
}

/// Changes the device of an input at this time.
fn edit_input<S: Source, T: Sink>(
    alloc: Global,
    change: Change,
    now: u64,
    input: &mut S,
    output: &mut T,
) -> Ending
    ensures { Turns (IsEditOf change now) (RefusesEdit change) result (S.Told.told input.old) (S.Told.told input.new)
        (T.Told.told output.old) (T.Told.told output.new) }
{
    let text = match read_whole(alloc, input) {
        Ok(text) => text,
        Err(fault) => return Ending::from(fault),
    };
    match edited(alloc, change, now, text.as_slice()) {
        Ok(out) => write_out(out.as_slice(), output),
        Err(ending) => ending,
    }
}

/// The file of a new device.
fn new_file(alloc: Global) -> Result<Vec<u8>, Ending>
    ensures file { IfOk result (λ out. out.items ≡ fresh_text) }
    ensures memory { IfErr result (λ ending. ending ≡ Memory) }
{
    let device = Device::new(alloc)?;
    Ok(write_device(alloc, &device)?)
}

/// Writes the file of a new device.
fn write_new<T: Sink>(alloc: Global, output: &mut T) -> Ending
    ensures { WritesNew result (T.Told.told output.old) (T.Told.told output.new) }
{
    match new_file(alloc) {
        Ok(file) => write_out(file.as_slice(), output),
        Err(ending) => ending,
    }
}

/// The time of a change (hundredths of a second): the one that is given, or the clock's.
fn time_of<C: Clock>(at: Option<u64>, clock: &mut C) -> u64
    ensures time { IsTime at result (C.coming clock.old) (C.coming clock.new) }
    ensures unread { IfSome at (λ _. clock.new ≡ clock.old) }
{
    match at {
        Some(at) => at,
        None => clock.now(),
    }
}

/// Writes a new device, or the device of the input as an action changes it. Without a time in the words the clock is
/// read once, before the input; for a new device neither is read.
pub fn edit<S: Source, T: Sink, C: Clock>(
    alloc: Global,
    command: EditCommand,
    input: &mut S,
    output: &mut T,
    clock: &mut C,
) -> Ending
    ensures edits { Edits command result (S.Told.told input.old) (S.Told.told input.new)
        (T.Told.told output.old) (T.Told.told output.new) (C.coming clock.old) (C.coming clock.new) }
    ensures unread { IfSome command.at (λ _. clock.new ≡ clock.old) }
{
    let EditCommand { action, at } = command;
    let change = match change_of(alloc, action) {
        Ok(Some(change)) => change,
        Ok(None) => return write_new(alloc, output),
        Err(ending) => return ending,
    };
    let now = time_of(at, clock);
    edit_input(alloc, change, now, input, output)
}
