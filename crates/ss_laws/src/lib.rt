//! The laws of the one-account API, and journals as data: what no change of an account's body touches. Its contracts:
//! each law holds of every account, request and list, as the contract of a function that does nothing. A legal journal
//! passes through valid accounts, and the reply at each of its places is told by the opening and the entries up to it.
#![tactic(auto)]

mod journal;
mod laws;

pub use journal::{Entry, Journal};
pub use laws::{
    absence_law, batch_law, commit_law, journal_law, journal_order_law, order_law, quiet_law,
    refusal_law, same_law, sort_law, stamp_law, validity_law, write_law,
};
