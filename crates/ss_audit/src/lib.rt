//! The check of logs: whether the journals of an account's terms are a legal history in which no write was lost between
//! two terms. It computes the one-account API over plain lists alone.
//! Its contract: `audit` says yes exactly where the logs are sound, with their numbers and the last write's time, and no
//! with the first place where they aren't.
#![tactic(auto)]

mod auditing;
mod entries;
mod equal;
mod going_on;
mod laws;
mod validity;
mod verdict;

pub use auditing::audit;
pub use laws::{one_verdict, sound_logs_are_legal, terms_are_sound};
pub use verdict::{Verdict, Why};
