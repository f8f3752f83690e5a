//! Reading an input whole, as the commands do that turn one file into another; it stands on ss_outside. Its contract:
//! the text that is given is all that the input had, or a fault says why it is none, each by its cause.
#![tactic(auto)]

mod faults;
mod whole;

pub use faults::InputFault;
pub use whole::read_whole;
