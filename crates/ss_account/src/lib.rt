//! One account: it answers each request by the one-account API, whose definitions stand in ss_query. Its contracts:
//! `step` gives the account and the reply of that definition, or what the clock alone leaves, and the account stays
//! valid. The laws of that definition stand in ss_laws.
#![tactic(auto)]

mod account;
mod faults;
mod infos;
mod kinds;
mod ledger;
mod opening;
mod places;
mod reading;
mod staging;
mod state;
mod telling;
mod writing;

pub use account::Account;
pub use faults::OpenFault;
