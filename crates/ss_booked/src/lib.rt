//! An account with its journal: each call is entered, and its reply is the one-account API's at its place in the
//! journal. It is a value for a desk, so callers in any number of threads may take turns on it. Its contracts: the
//! journal is legal and leaves the account; a call is refused exactly where the journal is full; the keeper failed at
//! least as often as the journal says.
#![tactic(auto)]

mod booked;
mod bound;
mod limits;
mod sizes;

pub use booked::{Answered, Asked, Booked, Terms};
pub use limits::{ENTRY_BYTES, MOST_ENTRIES, MOST_JOURNAL_BYTES};
pub use sizes::bytes_of_request;
pub use ss_desk::Full;
pub use ss_laws::{Entry, Journal};
