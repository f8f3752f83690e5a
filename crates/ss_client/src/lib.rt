//! The sync machine: what a device asks of a server, and what it does with each response until it is done. It fetches
//! rows, merges them, sends the plan and gives the device as it is after the sync; it stands on ss_device, ss_sync,
//! ss_hearing and ss_route. Its contract: each step is the definition's for every response, and until the run is done
//! the device is as it was started.
#![tactic(auto)]

mod asking;
mod fetching;
mod laws;
mod machine;
mod runs;
mod steps;
mod summaries;
mod synced;
mod uploading;

pub use laws::requests_can_be_sent;
pub use machine::{Do, Machine};
pub use runs::{Listing, Paging, Run, Stage, Times, Upload};
pub use summaries::{Fetch, Summary, SyncFault};
