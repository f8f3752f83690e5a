//! A town: several values with a journal, each on a desk of its own under a uid, and for each caller a pass to every one.
//! A call names a uid, and is the call at that one desk: it waits for callers of the same account alone, and changes
//! nothing that is known of the others. A closed town hands all values back, in the order of their uids.
#![tactic(auto)]

pub mod limits;
mod opening;
mod passes;
mod town;

pub use opening::TownFault;
pub use passes::Passes;
pub use town::{Answer, Town};
