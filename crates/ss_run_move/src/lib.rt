//! Moving an account: the commands `dump` and `restore`, over any site. `dump` writes the text of the account that a
//! keeper of the site holds; `restore` reads such a text, and fills a keeper that holds nothing. Its contract, on
//! `run_move`: what is written and what is filled, each end by its cause, and that the keeper comes back.
#![tactic(auto)]

mod dumping;
mod endings;
mod inputs;
mod laws;
mod restoring;
mod running;
mod words;

pub use dumping::dump;
pub use endings::Ending;
pub use laws::one_request;
pub use restoring::restore;
pub use running::run_move;
pub use words::{MoveCommand, Verb, read_move};
