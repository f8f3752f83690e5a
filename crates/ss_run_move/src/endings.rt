//! How a run ends.

ghost use Rattle.std.specs.Prelude.{◌≡◌};
ghost use Rattle.ss_run_move.specs.Endings.{at_account, at_dump, at_keeper, at_site, status_of};
ghost use Rattle.ss_run_move.specs.declared.endings.Ending.TheVariants.{Memory};

use ss_account::OpenFault;
use ss_dump::{DumpFault, RefillFault};
use ss_site::NoKeeper;
use std::alloc::AllocError;
use std::fmt::{self, Display, Formatter, Write};

/// How a run of `dump` or `restore` ended.
#[derive(Drop, Debug)]
pub enum Ending {
    /// All was written, or the account is restored: status 0.
    Done,

    /// The words ask for neither, the site was not asked, and nothing was read or written: status 1.
    OtherWords,

    /// A call of the site failed: status 2.
    Site,

    /// The keeper of the account failed: status 2.
    Keeper,

    /// A write of the output failed: status 3.
    Output,

    /// What is kept is no account that can be read: status 4.
    Damaged,

    /// No account can be opened from what is kept, for a collection, a row or a batch: status 4.
    NoAccount { fault: OpenFault },

    /// The account that is to be restored has something already: status 4.
    NotFresh,

    /// The input is no dump: status 5.
    NoDump { fault: DumpFault },

    /// The input has more than 1,073,741,824 bytes: status 6.
    TooLong,

    /// A read of the input failed: status 7.
    Input,

    /// No memory: status 8.
    Memory,
}

impl Ending {
    /// The status of a run that ended so.
    pub fn status(&self) -> u8
        ensures { result ≡ status_of self.now }
    {
        match self {
            Ending::Done => 0,
            Ending::OtherWords => 1,
            Ending::Site | Ending::Keeper => 2,
            Ending::Output => 3,
            Ending::Damaged | Ending::NoAccount { .. } | Ending::NotFresh => 4,
            Ending::NoDump { .. } => 5,
            Ending::TooLong => 6,
            Ending::Input => 7,
            Ending::Memory => 8,
        }
    }
}

impl From<AllocError> for Ending {
    ghost from_gives = { λ _ ending. ending ≡ Memory };

    fn from(_error: AllocError) -> Ending {
        Ending::Memory
    }
}

impl From<NoKeeper> for Ending {
    ghost from_gives = { λ missing ending. ending ≡ at_site missing };

    fn from(missing: NoKeeper) -> Ending {
        match missing {
            NoKeeper::Fault => Ending::Site,
            NoKeeper::Damaged => Ending::Damaged,
            NoKeeper::Memory => Ending::Memory,
        }
    }
}

impl From<OpenFault> for Ending {
    ghost from_gives = { λ fault ending. ending ≡ at_account fault };

    fn from(fault: OpenFault) -> Ending {
        match fault {
            OpenFault::Keeper => Ending::Keeper,
            OpenFault::Memory => Ending::Memory,
            _ => Ending::NoAccount { fault },
        }
    }
}

impl From<RefillFault> for Ending {
    ghost from_gives = { λ fault ending. ending ≡ at_keeper fault };

    fn from(fault: RefillFault) -> Ending {
        match fault {
            RefillFault::NotFresh => Ending::NotFresh,
            RefillFault::Keeper => Ending::Keeper,
            RefillFault::Memory => Ending::Memory,
        }
    }
}

impl From<DumpFault> for Ending {
    ghost from_gives = { λ fault ending. ending ≡ at_dump fault };

    fn from(fault: DumpFault) -> Ending {
        match fault {
            DumpFault::Memory => Ending::Memory,
            _ => Ending::NoDump { fault },
        }
    }
}

impl Display for Ending {
    fn fmt<W: Write>(&self, f: &mut Formatter<W>) -> fmt::Result {
        match self {
            Ending::Done => f.write_str("done"),
            Ending::OtherWords => f.write_str("the words ask for something else"),
            Ending::Site => f.write_str("the folder or the file failed"),
            Ending::Damaged => f.write_str("it holds no account"),
            Ending::Keeper => f.write_str("the file failed"),
            Ending::Output => f.write_str("the output can't be written"),
            Ending::Input => f.write_str("the input can't be read"),
            Ending::NoAccount { fault } => write!(f, "it holds no account: {fault}"),
            Ending::NotFresh => f.write_str("the account has something already"),
            Ending::NoDump { fault } => write!(f, "the input is no dump: {fault}"),
            Ending::TooLong => f.write_str("the input has more than 1073741824 bytes"),
            Ending::Memory => f.write_str("no memory was found"),
        }
    }
}
