//! A device's file and its edits and merges from the command line: the commands `edit` and `merge`. They read a text
//! whole, and write the file of the device as the edit makes it, or what a merge with remote rows comes to; it stands
//! on ss_device_file, ss_merge, ss_plan, ss_input and ss_words. Its contract: the bytes that are written are the text for what
//! was read, or nothing is written, by its cause.
#![tactic(auto)]

mod changes;
mod editing;
mod endings;
mod files;
mod items;
mod merging;
mod outputs;
mod remotes;
mod running;
mod tellings;

pub use changes::Change;
pub use editing::edit;
pub use endings::Ending;
pub use merging::merge;
pub use running::run_device_command;
