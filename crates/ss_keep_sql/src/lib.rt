//! The keeper over SQLite: an account's rows, collections, times and batches in a database of its own. A commit is one
//! row with its text; the commits are made to the tables together, now and then.
//! Its contract: a fault is answered only where the count of refused statements rose. It tells no rows; that what was
//! committed is loaded again, also after a stop at any write, is tested by a program of cases.
#![tactic(auto)]

mod commits;
mod faults;
mod files;
mod folding;
mod keeper;
mod logs;
mod many;
mod numbers;
mod opening;
mod places;
mod reading;
mod row_numbers;
mod rows;
mod stored;
mod tables;
mod writing;

pub use faults::{FileFault, SqlFault};
pub use files::{open_file, open_files};
pub use keeper::SqlKeeper;
pub use places::{Place, Table};
