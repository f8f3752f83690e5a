//! A commit as a text: the changes that it makes of what is kept of an account, so that they can be made later. It has
//! the lines of an account, and lines of its own for what isn't there any more.
//! Its contracts: `write_changes` writes the definition's text, and exactly such texts are read, as what they say.
#![tactic(auto)]

mod cutting;
mod marks;
mod notes;
mod reading;
mod telling;
mod values;
mod writing;

pub use reading::read_changes;
pub use writing::write_changes;
