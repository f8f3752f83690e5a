//! What a log tells.

ghost use Rattle.std.specs.Prelude.{◌≡◌};

use ss_bso::Plain;
use ss_laws::Entry;
use std::marker::Model;

/// What a log tells: its opening account, the most entries that its journal might have, and the entries of what was asked,
/// oldest first. Contracts see it as the journal of these. The opening need not be valid, nor need the entries be few
/// enough: a log is what somebody wrote down.
#[derive(Drop, Debug)]
pub struct Log {
    pub opening: Plain,
    pub most: u32,
    pub entries: Vec<Entry>,
}

impl Model for Log {
    ghost use Rattle.ss_laws.specs.Journal.{Journal};

    ghost Value = { Journal };

    ghost view = { λ l. record { opening = l.opening; most = l.most; entries = l.entries.items } };
}

impl Log {
    /// The entries, oldest first.
    pub fn entries(&self) -> &[Entry]
        ensures { result.now ≡ self.now.entries }
    {
        self.entries.as_slice()
    }
}
