//! How a run ends.

ghost use Rattle.std.specs.Prelude.{◌≡◌};
ghost use Rattle.ss_run_sync.specs.Endings.{line_of_trouble, status_of, status_of_stop, status_of_trouble};

use crate::lines::too_large;
use ss_client::{Summary, SyncFault};

/// How a run of `sync` ended. Unless it is `Synced` or `Unprinted` all files are as before.
#[derive(Drop, Debug)]
pub enum Ending {
    /// The device was synced and saved: status 0.
    Synced(Summary),

    /// The words ask for another command, or for nothing, and nothing was done or printed: status 1.
    OtherWords,

    /// The run stopped: status 3 where the server refused a request or a record, 4 where something changed four times,
    /// 5 where the plan is beyond the server's limits, 9 where a reply can't be read, 8 without memory.
    Stopped(SyncFault),

    /// The link or the file failed, or no memory was found: status 2, 6, 7 or 8, as `Trouble` says.
    Failed(Trouble),

    /// The line of how it ended could not be printed: status 10.
    Unprinted,
}

impl Ending {
    /// The status of a run that ended so.
    pub fn status(&self) -> u8
        ensures { result ≡ status_of self.now }
    {
        match self {
            Ending::Synced(_) => 0,
            Ending::OtherWords => 1,
            Ending::Stopped(fault) => status_of_stop(fault),
            Ending::Failed(trouble) => trouble.status(),
            Ending::Unprinted => 10,
        }
    }
}

/// Why a sync ended without a word of the server's.
#[derive(Clone, Copy, Debug, PartialEq, Eq)]
pub enum Trouble {
    /// A dial, or a read or a write of a link failed: status 2.
    Wire,

    /// The file is no device's file: status 6.
    Device,

    /// The file could not be read or written: status 7.
    Store,

    /// No memory: status 8.
    Memory,
}

impl Trouble {
    fn status(self) -> u8
        ensures { result ≡ status_of_trouble self }
    {
        match self {
            Trouble::Wire => 2,
            Trouble::Device => 6,
            Trouble::Store => 7,
            Trouble::Memory => 8,
        }
    }

    /// The line, which takes no memory.
    pub(crate) fn line(self) -> &'static [u8]
        ensures { result.now ≡ line_of_trouble self }
    {
        match self {
            Trouble::Wire => b"stopped: wire\n",
            Trouble::Device => b"stopped: device\n",
            Trouble::Store => b"stopped: store\n",
            Trouble::Memory => b"stopped: memory\n",
        }
    }
}

/// The status of a run that stopped.
fn status_of_stop(fault: &SyncFault) -> u8
    ensures { result ≡ status_of_stop fault.now }
{
    match fault {
        SyncFault::Refused { .. } => 3,
        SyncFault::Changing { .. } => 4,
        SyncFault::Plan(fault) => match too_large(fault) {
            Some(_) => 5,
            None => 8,
        },
        SyncFault::BadReply { .. } => 9,
        SyncFault::Memory => 8,
    }
}
