//! Why a server stopped, and the status that says so.

ghost use Rattle.std.specs.Prelude.{◌≡◌};

use ss_account::OpenFault;
use std::fmt::{self, Display, Formatter, Write};

/// Why a server stopped.
#[derive(Clone, Copy, Debug, PartialEq, Eq)]
pub enum Stop {
    /// The port ended: status 0.
    PortEnded,

    /// As many terms were served as was asked: status 0.
    Terms,

    /// A call of the site failed: status 2.
    Site,

    /// The keeper of this account failed while the account was opened: status 2.
    Keeper { uid: u32 },

    /// The port failed: status 3.
    Port,

    /// What is kept under this uid is no account that can be read: status 4.
    Damaged { uid: u32 },

    /// What is kept of this account can't be opened: status 4.
    Account { uid: u32, fault: OpenFault },

    /// The store of the logs failed: status 7.
    Logs,

    /// No memory was found, outside a reply: status 8.
    Memory,
}

impl Stop {
    ghost use Rattle.ss_run_serve.specs.Statuses.{status_of_stop};

    /// The status of a run that stopped so.
    pub(crate) fn status(self) -> u8
        ensures { result ≡ status_of_stop self }
    {
        match self {
            Stop::PortEnded | Stop::Terms => 0,
            Stop::Site | Stop::Keeper { .. } => 2,
            Stop::Port => 3,
            Stop::Damaged { .. } | Stop::Account { .. } => 4,
            Stop::Logs => 7,
            Stop::Memory => 8,
        }
    }
}

impl Display for Stop {
    fn fmt<W: Write>(&self, f: &mut Formatter<W>) -> fmt::Result {
        match self {
            Stop::PortEnded => f.write_str("the port ended"),
            Stop::Terms => f.write_str("all terms were served"),
            Stop::Site => f.write_str("the folder, a file in it or the address failed"),
            Stop::Damaged { uid } => {
                write!(
                    f,
                    "account {uid} can't be opened: its file holds no account"
                )
            }
            Stop::Keeper { uid } => write!(
                f,
                "the file of account {uid} failed while it was opened"
            ),
            Stop::Port => f.write_str("the port failed"),
            Stop::Account { uid, fault } => write!(f, "account {uid} can't be opened: {fault}"),
            Stop::Memory => f.write_str("no memory was found"),
            Stop::Logs => f.write_str("a log couldn't be saved"),
        }
    }
}
