//! Trees of bookmark items.
//! A tree has `places`, the four roots under it and items below, each in one folder; it stands on ss_record.
//! Its contracts: every tree is valid, each call changes exactly what it says, and a refused call changes nothing.
#![tactic(auto)]

mod building;
mod cells;
mod entries;
mod faults;
mod index;
mod sides;
mod trees;

pub use entries::{Entry, Node};
pub use faults::{MoveFault, RemoveFault, TreeFault};
pub use sides::Sides;
pub use trees::Tree;
