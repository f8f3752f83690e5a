//! Moving an account: its dump as a text with a digest, what a dump tells, and a keeper that is filled from it.
//! Its contracts: `dump` writes the definition's text, `undump` reads exactly the dumps, as their accounts, and after
//! `refill` a keeper holds exactly what it was given.
#![tactic(auto)]

mod dumping;
mod faults;
mod fronts;
mod hashing;
mod laws;
mod reading;
mod refilling;
mod telling;
mod undumping;

pub use dumping::{dump, push_dump, push_kept};
pub use faults::{DumpFault, LineFault, RefillFault};
pub use fronts::{DumpFront, front_dump};
pub use laws::{
    a_dump_is_not_refused, a_dump_tells_its_account, account_form, kept_form, no_order_is_dumped,
    one_account, read_again,
};
pub use refilling::refill;
pub use undumping::undump;
