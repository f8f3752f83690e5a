//! What is awaited, and what is heard.

ghost use Rattle.std.specs.Prelude.{◌≡◌};
ghost use Rattle.ss_hearing.specs.Hearing.{status_of, is_conditional};

use crate::sheets::Sheets;
use ss_plan::Limits;
use ss_text::{Id, Ids, Stamp};

/// The kind of reply that a request awaits.
#[derive(Clone, Copy, Debug)]
pub enum Awaited {
    /// The limits of the server.
    Configuration,
    /// The first page of a fetch, which has no condition.
    FirstPage,
    /// A further page.
    LaterPage,
    /// The ids of all rows.
    AllIds,
    /// What is told of records that begin a batch or go to its end.
    Staging,
    /// What is told of records that are written, at once or with their batch.
    Writing,
}

/// What a response says of what was asked.
#[derive(Drop, Debug)]
pub enum Answer {
    /// The limits of the server, each no greater than our own.
    Configured(Limits),
    /// Rows, the offset of the next page, and the collection's time. A later page may say none, which is 0 here; it
    /// isn't looked at.
    Paged {
        rows: Sheets,
        next: Option<u32>,
        time: Stamp,
    },
    /// The ids of all rows.
    Listed(Ids),
    /// The records are in the batch of this number.
    Held(u64),
    /// The records were written at this time.
    Written(Stamp),
    /// A record failed, of several the first in the text.
    Failed {
        status: u16,
        id: Id,
    },
    /// Something has changed since (412); the collection's time, 0 where it isn't said.
    Changed(Stamp),
    /// Any other status than the awaited one.
    Refused(u16),
    /// The awaited status, and not the form of such a reply.
    Unread,
}

impl Awaited {
    /// The status that is awaited.
    pub fn status(self) -> u16
        ensures { result ≡ status_of self }
    {
        match self {
            Awaited::Staging => 202,
            _ => 200,
        }
    }

    /// Whether what was asked has the condition that nothing has changed.
    pub fn is_conditional(self) -> bool
        ensures { result ≡ is_conditional self }
    {
        match self {
            Awaited::Configuration | Awaited::FirstPage => false,
            _ => true,
        }
    }
}
