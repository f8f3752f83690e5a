//! The words of a command line: what each command of the program asks, and why words ask nothing.
//! It reads them whole before anything is done, for every command in one place.
//! Its contract: exactly the words that spell a command are read, and as that command.
#![tactic(auto)]

mod actions;
mod commands;
mod laws;
mod lines;
mod names;
mod refusals;
mod urls;
mod values;

pub use actions::Action;
pub use commands::{
    AnswerCommand, Command, EditCommand, LogFolder, RehearseCommand, ServeCommand, SyncCommand,
    read_command,
};
pub use laws::words_ask_one;
pub use lines::Place;
pub use names::{Name, OptionName};
pub use refusals::{Cause, Refusal, WordsFault};
pub use urls::Server;
pub use values::Uids;
