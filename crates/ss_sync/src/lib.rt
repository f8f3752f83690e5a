//! The steps of a sync that know no device: the rows that were fetched, the tree that a merge makes of them, the POSTs
//! in which its plan is sent, and the rows that it leaves; it stands on ss_merge, ss_plan and ss_route. Its contracts:
//! no id is fetched twice, the tree is the merge's definition, each POST is as full as the limits allow, and the rows
//! are those after the plan, by id.
#![tactic(auto)]

mod alike;
mod fetched;
mod joining;
mod laws;
mod posts;
mod written;

pub use fetched::{Fetched, are_known};
pub use joining::{Joined, join};
pub use laws::one_tree_is_left_alone;
pub use posts::next_post;
pub use written::rows_after;
