//! A world: one account with its keeper, and devices that sync their bookmarks with it, whatever is lost between them.
//! It stands on the account as ss_serving shows it and on the machine of ss_client. Its contract: no device reads half
//! of another's upload, and after every event the bookmarks stand for one valid tree.
#![tactic(auto)]

mod events;
mod faults;
mod laws;
mod seats;
mod serving;
mod telling;
mod worlds;

pub use events::{Edit, Event};
pub use faults::WorldFault;
pub use laws::{
    bookmarks_are_one_tree, devices_stay_faithful, fetches_are_whole, fresh_worlds_can_be_opened,
    interruptions_leave_the_tree, machines_end, replies_are_understood,
};
pub use seats::Seat;
pub use worlds::World;
