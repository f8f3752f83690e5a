//! How a run is begun, and how it ends.

ghost use Rattle.std.specs.Prelude.{◌≡◌};

use ss_plan::PlanFault;
use ss_text::{Id, Stamp};

/// Which rows a run fetches.
#[derive(Clone, Copy, Debug, PartialEq, Eq)]
pub enum Fetch {
    /// All.
    Whole,
    /// Those that are newer than the device's last sync; all where it was never synced.
    Newer,
}

/// What a run did.
#[derive(Clone, Copy, Debug)]
pub struct Summary {
    /// The items of the merged tree, without `places` and the four roots.
    pub items: u64,
    /// The POSTs that were sent.
    pub posts: u64,
    /// How often a fetch was begun.
    pub fetches: u64,
    /// The time of the sync, in hundredths of a second: the commit's, or the collection's where nothing was sent.
    pub stamp: Stamp,
}

/// Why a run stops.
#[derive(Drop, Debug)]
pub enum SyncFault {
    /// A request was answered with another status than the awaited one, or this record of a POST failed.
    Refused {
        status: u16,
        id: Option<Id>,
    },
    /// Something changed four times while the run went on: the collection's times, 0 where one isn't told.
    Changing {
        first: Stamp,
        second: Stamp,
        third: Stamp,
        fourth: Stamp,
    },
    /// The plan is beyond the server's limits.
    Plan(PlanFault),
    /// The reply to the request of this number isn't in form; requests count from 1.
    BadReply {
        number: u64,
    },
    /// No memory.
    Memory,
}
