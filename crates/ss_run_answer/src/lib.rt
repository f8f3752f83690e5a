//! The command `answer`: the messages of an input, answered one after the other for an account that is held in memory.
//! Its contract, on `run_offline`: what is written is, byte for byte, the responses to the messages of the input, in
//! order and however the input is cut, and each end has its cause.
#![tactic(auto)]

mod answer;
mod endings;
mod offline;

pub use endings::Ending;
pub use offline::run_offline;
