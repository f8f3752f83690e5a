//! A term of a server: workers answer the links of a port over several accounts, until the port or the number of links
//! ends it. Its contract, over every order of the workers: every response to a request of a listed account is the reply
//! at its place in the journal that is handed back, the one-account API's or 503 "keeper" where the keeper failed, or
//! it is 503 "term" where the journal had no room, or the 507; of each response the term's own gate was asked; each
//! ticket of a journal is that of one turn; and there are as many reports as the port gave links.
#![tactic(auto)]

mod accept;
mod channel;
mod crew;
mod ending;
mod fullness;
mod report;
mod rest;
mod room;
mod term;
mod threads;
mod worker;

pub use report::{LinkReport, TermStop};
pub use term::{TermEnd, serve_term};
