//! What several libraries promise together: laws that join what each of them says by itself. It stands on top of them.
//! Its contract: an exchange of a device with a server, in bytes, is a step of a world; an account and its uploads go
//! on over a restart; a running journal is a list of requests; and devices stay faithful, whoever asks.
#![tactic(auto)]

mod accounts;
mod devices;
mod exchanges;
mod journals;
mod moves;
mod restarts;
mod runs;
mod values;

pub use accounts::answered;
pub use devices::{devices_stay_faithful_to_all, uploads_go_on};
pub use exchanges::{exchanges_are_deliveries, replies_come_back, requests_come_in};
pub use journals::journals_are_lists;
pub use moves::{accounts_move, refilled_accounts_answer_alike, replies_stay_equal};
pub use restarts::{accounts_go_on, reopened};
pub use runs::{
    exchanges_are_runs, machines_of_worlds_are_ready, machines_stay_ready, requests_stay_readable,
};
pub use values::{accounts_stay_typed, replies_are_typed, requests_are_typed};
