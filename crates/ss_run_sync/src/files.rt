//! A device's file.

ghost use Rattle.std.specs.Prelude.{◌≡◌, IfOk, IfErr};
ghost use Rattle.ss_run_sync.specs.Syncs.{Loads, Saves, Starts};

use crate::endings::{Ending, Trouble};
use crate::lines::synced;
use crate::reports::Report;
use ss_client::Summary;
use ss_device::{Device, write_device};
use ss_device_file::{DeviceFault, read_device};
use ss_links::{Store, StoreFault};
use std::alloc::Global;

/// The device of a file's bytes, or a new one where there is no file.
fn device_in(alloc: Global, file: &Option<Vec<u8>>) -> Result<Device, Trouble>
    ensures { Rattle.ss_run_sync.specs.Syncs.IsDeviceIn file.now result }
{
    let Some(bytes) = file else {
        return match Device::new(alloc) {
            Ok(device) => Ok(device),
            Err(_) => Err(Trouble::Memory),
        };
    };
    match read_device(alloc, bytes.as_slice()) {
        Ok(device) => Ok(device),
        Err(DeviceFault::Memory) => Err(Trouble::Memory),
        Err(_) => Err(Trouble::Device),
    }
}

/// The device of the file with this name.
pub(crate) fn load<S: Store>(alloc: Global, name: &str, store: &mut S) -> Result<Device, Trouble>
    ensures { Loads name.now result (S.held store.old) (S.held store.new) (S.store_faults store.old)
        (S.store_faults store.new) }
{
    match store.load(alloc, name) {
        Ok(file) => device_in(alloc, &file),
        Err(StoreFault::Fault) => Err(Trouble::Store),
        Err(StoreFault::Memory) => Err(Trouble::Memory),
    }
}

/// Makes the device the file with this name. Its bytes and the line that is printed then are made before anything is
/// saved.
pub(crate) fn save<S: Store>(
    alloc: Global,
    name: &str,
    device: &Device,
    summary: &Summary,
    store: &mut S,
) -> Report
    ensures { Saves name.now device.now summary.now result (S.held store.old) (S.held store.new)
        (S.store_faults store.old) (S.store_faults store.new) }
{
    let Ok(bytes) = write_device(alloc, device) else {
        return Report::Short(Trouble::Memory);
    };
    let Ok(line) = synced(alloc, summary) else {
        return Report::Short(Trouble::Memory);
    };
    match store.save(alloc, name, bytes.as_slice()) {
        Ok(()) => Report::Line {
            ending: Ending::Synced(*summary),
            line,
        },
        Err(StoreFault::Fault) => Report::Short(Trouble::Store),
        Err(StoreFault::Memory) => Report::Short(Trouble::Memory),
    }
}
