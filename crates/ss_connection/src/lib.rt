//! One connection of a town of accounts: the messages of a link, each answered at the desk of its account, in turns.
//! Its contract: what was written are the responses to the messages that were taken, in order; a response to a listed
//! account is the one-account API's reply at the place of that account's journal that bears the turn's ticket; and each
//! end and turn has its cause.
#![tactic(auto)]

mod answering;
mod connection;
mod limits;
mod notes;

pub use connection::serve_connection;
pub use limits::MOST_MESSAGES;
pub use notes::{End, Turn, TurnNote};
