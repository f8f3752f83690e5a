//! The one-account API over plain lists: what a request makes of an account, as the definitions say it, with no shelf,
//! stage or keeper.
//! Its contract: the account after a request is exactly that of the definition, whatever the account, the reading, the
//! request and its mark.
#![tactic(auto)]

mod answering;
mod batches;
mod clock;
mod finding;
mod refusing;
mod rows;
mod sizes;
mod writing;

pub use answering::{closing, next};
