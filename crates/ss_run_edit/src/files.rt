//! The device's file in a text.

ghost use Rattle.std.specs.Prelude.{◌≡◌, true, IfOk, IfErr};
ghost use Rattle.ss_device_file.specs.Lines.{AreLines, is_ended};
ghost use Rattle.ss_device_file.specs.Files.{AreAll, IsFileOf, IsFront, TellsDevice};
ghost use Rattle.ss_run_edit.specs.Files.{IsNoDevice, IsNoFront, IsNoLines, IsUntold};

use crate::endings::Ending;
use ss_device::Device;
use ss_device_file::{DeviceFault, Front, Line, LinesFault, device_of, read_front};
use std::alloc::Global;

/// The lines of a device's file at the front of a text.
pub(crate) fn front_of(alloc: Global, text: &[u8]) -> Result<Front, Ending>
    ensures front { IfOk result (λ f. IsFront text.now f) }
    ensures none { IfErr result (λ ending. IsNoFront text.now ending) }
{
    match read_front(alloc, text) {
        Ok(front) => Ok(front),
        Err(LinesFault::Refused { number }) => Err(Ending::BadLine { line: number }),
        Err(LinesFault::Cut { number }) => Err(Ending::Cut { line: number }),
        Err(LinesFault::Memory) => Err(Ending::Memory),
    }
}

/// The device that the lines of a whole file tell.
pub(crate) fn device_told(alloc: Global, lines: Vec<Line>) -> Result<Device, Ending>
    requires lines { AreLines lines.items }
    requires ended { is_ended lines.items ≡ true }
    ensures told { IfOk result (λ d. TellsDevice lines.items d) }
    ensures untold { IfErr result (λ ending. IsUntold lines.items ending) }
{
    match device_of(alloc, lines) {
        Ok(device) => Ok(device),
        Err(DeviceFault::BadTree { id }) => Err(Ending::BadTree { id }),
        Err(DeviceFault::BadLine { .. }) => unreachable!(),
        Err(DeviceFault::Memory) => Err(Ending::Memory),
    }
}

/// The lines of a device's file that is all of a text.
fn lines_in(alloc: Global, text: &[u8]) -> Result<Vec<Line>, Ending>
    ensures all { IfOk result (λ lines. AreAll text.now lines.items) }
    ensures none { IfErr result (λ ending. IsNoLines text.now ending) }
{
    let Front { lines, used } = front_of(alloc, text)?;
    if used < text.len() {
        let line = lines.len() as u64 + 1;
        return Err(Ending::BadLine { line });
    }
    Ok(lines)
}

/// The device of a text.
pub(crate) fn device_in(alloc: Global, text: &[u8]) -> Result<Device, Ending>
    ensures file { IfOk result (λ d. IsFileOf text.now d) }
    ensures none { IfErr result (λ ending. IsNoDevice text.now ending) }
{
    let lines = lines_in(alloc, text)?;
    device_told(alloc, lines)
}
