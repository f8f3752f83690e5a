//! The command `flat`: what rows of history or forms come to, from lines of rows to lines of items. It reads a text
//! whole, and writes the text of the state of the set of its rows; it stands on ss_flat, ss_device_file and ss_input.
//! Its contract: the bytes that are written are that text, whatever the order and repeats of the rows, or nothing is
//! written, by its cause.
#![tactic(auto)]

mod endings;
mod files;
mod laws;
mod rows;
mod running;
mod tellings;
mod words;

pub use endings::Ending;
pub use files::state_of;
pub use laws::{one_ending, one_output, same_rows_same_output};
pub use running::{flat, run_flat};
pub use tellings::telling;
pub use words::NAME;
