//! Collections without a tree, as history and forms: what a set of rows comes to, whichever way the rows came.
//! It sees rows one by one, joins states, and lists the items, the ids that are gone and those that were skipped.
//! Its contracts: each list is that of the set of the rows, so order and repeats don't matter, and joining is a join.
#![tactic(auto)]

mod entry;
mod face;
mod flat;
mod kinds;
mod laws;
mod lists;
mod reading;
mod texts;
mod visits;

pub use face::Face;
pub use flat::{Flat, flat_of};
pub use kinds::{FlatKind, Sight};
pub use laws::{a_set_has_one_state, joining_is_a_join, order_and_repeats_are_nothing};
pub use lists::Shown;
pub use reading::{Reading, Said};
pub use visits::{Visit, Visits};
