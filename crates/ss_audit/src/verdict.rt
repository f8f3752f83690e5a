//! What an audit says.

use ss_text::Stamp;

/// Why logs aren't sound.
#[derive(Clone, Copy, Debug, PartialEq, Eq)]
pub enum Why {
    /// The opening is no valid account.
    Opening,

    /// The opening doesn't go on from the closing of the log before.
    Follows,

    /// A ticket isn't above the one before it.
    Ticket,

    /// There are more entries than the log may have, or than any journal may; or an entry was made where the journal
    /// was full by its bytes.
    Limits,
}

/// What an audit says of logs. They and their entries are counted from 1.
#[derive(Clone, Copy, Debug, PartialEq, Eq)]
pub enum Verdict {
    /// They are sound: so many logs with so many entries together (up to the greatest u64). `store` is the time of the
    /// last write to the account that the last log leaves, and 0 where there is no log.
    Yes {
        logs: u64,
        entries: u64,
        store: Stamp,
    },

    /// The first place where they aren't. The entry is 0 where it is the opening that fails.
    No {
        log: u64,
        entry: u64,
        why: Why,
    },
}
