//! Reading a device's file.

ghost use Rattle.std.specs.Prelude.{◌≡◌, true, IfOk, IfErr};
ghost use Rattle.ss_device.specs.Device.{IsSameDevice};
ghost use Rattle.ss_device_file.specs.Files.{AreAll, IsFileOf, IsWhyNoDevice, IsRefusedFront};
ghost use Rattle.ss_device_file.specs.declared.faults.DeviceFault.TheVariants.{Memory};

use crate::devices::device_of;
use crate::faults::{DeviceFault, LinesFault};
use crate::front::read_front;
use crate::lines::Line;
use ss_device::{Device, write_device};
use std::alloc::Global;

/// The lines of a whole file.
fn lines_of(alloc: Global, bytes: &[u8]) -> Result<Vec<Line>, DeviceFault>
    ensures whole { IfOk result (λ lines. AreAll bytes.now lines.items) }
    ensures refused { IfErr result (λ fault. IsRefusedFront bytes.now fault) }
{
    match read_front(alloc, bytes) {
        Ok(front) => if front.used == bytes.len() {
            Ok(front.lines)
        } else {
            Err(DeviceFault::BadLine {
                number: front.lines.len() as u64 + 1,
            })
        },
        Err(LinesFault::Refused { number }) | Err(LinesFault::Cut { number }) => {
            Err(DeviceFault::BadLine { number })
        }
        Err(LinesFault::Memory) => Err(DeviceFault::Memory),
    }
}

/// Reads a device's file (the format is this project's). Exactly the files of the grammar are read: a line is accepted
/// exactly where it is what would be written for its values.
pub fn read_device(alloc: Global, bytes: &[u8]) -> Result<Device, DeviceFault>
    ensures read { IfOk result (λ d. IsFileOf bytes.now d) }
    ensures refused { IfErr result (λ fault. IsWhyNoDevice bytes.now fault) }
{
    let lines = lines_of(alloc, bytes)?;
    device_of(alloc, lines)
}

/// Writes a device's file and reads it again: that gives the same device, its times included, unless memory is wanting.
pub fn read_written(alloc: Global, device: &Device) -> Result<Device, DeviceFault>
    ensures same { IfOk result (λ d. IsSameDevice d device.now) }
    ensures memory { IfErr result (λ fault. fault ≡ Memory) }
{
    let bytes = write_device(alloc, device)?;
    read_device(alloc, bytes.as_slice())
}
