//! What a request makes of an account's rows, collections and batches, before it is done: the rows that its parts make,
//! the write that is ready, what a keeper is told of it, and how large rows are. Its contracts: each is the
//! definition's, in `specs/Pending.antt` and in ss_bso's `Write`.
#![tactic(auto)]

mod editing;
mod ended;
mod finding;
mod pending;
mod sizes;
mod targets;
mod writing;

pub use editing::{copy_batches, copy_parts, count_others};
pub use ended::Ended;
pub use finding::find_time;
pub use pending::{Pending, with_body};
pub use sizes::{Size, is_fit, would_be_full};
pub use targets::Targets;
pub use writing::{first_failures, made_rows};
