//! How a device leaves a link.

use ss_client::{Machine, Summary, SyncFault};
use ss_device::Device;
use ss_query::Request;

/// Why a device leaves a link: with the device as the sync makes it, or as it was started.
#[derive(Drop)]
pub enum Talk {
    /// The run is done.
    Done(Device, Summary),

    /// The run stops, or a reply can't be read; never for want of memory.
    Stop(Device, SyncFault),

    /// The response was the link's last, and the run goes on: this request is the next one, over another link.
    Anew(Machine, Request),

    /// A read or a write of the link failed.
    Wire(Device),

    /// No memory.
    Memory(Device),
}
