//! The command `audit`: whether the logs of an account's journals, one behind the other, are a history that the one-account
//! API gives, in which nothing was lost between two terms. It reads a text whole and writes the verdict in a line; it stands
//! on ss_logs, ss_audit and ss_input, and on no server, shelf or keeper.
//! Its contract: the line that is written is the verdict on the logs that the text tells, or nothing is written, by its
//! cause; and the status is 7 exactly where the verdict is no and was written.
#![tactic(auto)]

mod endings;
mod running;
mod tellings;
mod words;

pub use endings::Ending;
pub use running::{audit_input, run_audit};
pub use words::NAME;
