//! How often a keeper is called.

ghost use Rattle.std.specs.Prelude.{◌≡◌};
ghost use Rattle.ss_keeper.specs.Calls.{no_keeper_calls, with_commit, with_load};

/// How often a keeper was called: for what it holds, and to make changes, whatever it answered. A count stops at the
/// greatest u64.
#[derive(Clone, Copy, Debug, PartialEq, Eq)]
pub struct KeeperCalls {
    pub loads: u64,
    pub commits: u64,
}

impl KeeperCalls {
    /// Those of a keeper that was never called.
    pub fn new() -> KeeperCalls
        ensures { result ≡ no_keeper_calls }
    {
        KeeperCalls {
            loads: 0,
            commits: 0,
        }
    }

    /// Counts a call of `load`.
    pub fn note_load(&mut self)
        ensures { self.new ≡ with_load self.old }
    {
        self.loads = self.loads.saturating_add(1);
    }

    /// Counts a call of `commit`.
    pub fn note_commit(&mut self)
        ensures { self.new ≡ with_commit self.old }
    {
        self.commits = self.commits.saturating_add(1);
    }
}
