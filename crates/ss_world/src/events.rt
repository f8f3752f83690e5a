//! What may happen in a world.

ghost use Rattle.std.specs.Prelude.{◌≡◌, true, false};
ghost use Rattle.ss_world.specs.Stepping.{IsFitEvent};

use ss_client::Fetch;
use ss_query::{Request, is_fit};
use ss_record::Item;
use ss_text::{Id, Word};

/// A change that a user makes of a device's bookmarks.
#[derive(Drop, Debug)]
pub enum Edit {
    /// A new item goes last under a folder.
    Add { parent: Id, item: Item },
    /// An item gets another title.
    Rename { id: Id, title: Word },
    /// An item goes, with all below it, to the end of a folder.
    Move { id: Id, parent: Id },
    /// An item goes with all below it.
    Delete { id: Id },
}

/// What happens to an account and the devices that sync with it. Devices are numbered from 0; `now` is a reading of the
/// server's clock, or for a change of the device's, in hundredths of a second.
#[derive(Drop, Debug)]
pub enum Event {
    /// A device begins a sync.
    Start { device: u32, fetch: Fetch },
    /// A device's request comes to the account, and the reply to the device.
    Deliver { device: u32, now: u64 },
    /// A device's request is lost: the account never has it.
    LoseRequest { device: u32 },
    /// A device's request comes to the account, and the reply is lost.
    LoseReply { device: u32, now: u64 },
    /// A device that syncs is started anew.
    Anew { device: u32 },
    /// A user changes a device's bookmarks.
    Change { device: u32, now: u64, edit: Edit },
    /// Somebody else asks the account for something that leaves the bookmarks alone.
    Other { now: u64, request: Request },
    /// The account reads its clock.
    Tick { now: u64 },
    /// The server is started anew: the account is opened with what its keeper holds.
    Reopen,
}

impl Event {
    /// Whether what others ask is within the limits of one request, as `World::step` asks: what is routed always is.
    pub fn is_fit(&self) -> bool
        ensures fit { result ≡ true → IsFitEvent self.now }
        ensures unfit { result ≡ false → IsFitEvent self.now → ⊥ }
    {
        match self {
            Event::Other { request, .. } => is_fit(request),
            _ => true,
        }
    }
}
