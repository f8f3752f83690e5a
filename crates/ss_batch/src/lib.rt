//! The batches of one account, which no request sees until one commit puts them. Its contracts: a stage is the plain
//! list of the live batches and the number of those that were begun; each call changes just what it says, each refusal
//! has its rule, and a refused call changes nothing.
#![tactic(auto)]

mod faults;
mod stage;

pub use faults::StageFault;
pub use stage::Stage;
