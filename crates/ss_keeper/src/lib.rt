//! Keepers: what holds an account's rows, collections, times and batches beyond the process that serves it. Their
//! contracts: a commit is whole or not at all, what is loaded is what the keeper tells, the count of faults rises where a
//! fault is answered and nowhere else, and each call is counted. Of those in memory it is said which calls fail.
#![tactic(auto)]

mod batch_edits;
mod calls;
mod faults;
mod history;
mod keeper;
mod making;
mod memory;
mod names;
mod row_edits;
mod time_edits;

pub use calls::KeeperCalls;
pub use faults::KeepFault;
pub use keeper::Keeper;
pub use making::make;
pub use memory::{KeeperUnder, MemKeeper, SureKeeper};
