//! A device's sync with an account of a server: the command `sync`. It reads the device's file, sends the machine's
//! requests over as many links as it takes, saves the device and says in one line how it went; it stands on
//! ss_client, ss_device_file and ss_words. Over one link each request follows the response before, until the run ends
//! or the link does. Its contract: what was dialled, written, read and saved, the line that was
//! printed, and the cause of the end.
#![tactic(auto)]

mod asking;
mod conversing;
mod endings;
mod files;
mod lines;
mod linking;
mod naming;
mod reports;
mod running;
mod talk;

pub use endings::{Ending, Trouble};
pub use linking::Came;
pub use running::run_sync;
