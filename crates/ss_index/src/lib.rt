//! A shelf of rows: one account's rows in maps and chains, so that a row is found by its id at once, and what is newer
//! by walking from the end.
#![tactic(auto)]

mod drawer;
mod numbers;
mod ready;
mod shelf;
mod walk;

pub use ready::Ready;
pub use shelf::Shelf;
