//! A server that people run: the accounts of a site are opened, served term after term until the port or the words end
//! it, and given back. It stands between the words of the command and the terms that serve links. Its contract, on
//! `run_serve`: what each term did that the site is told, that what is kept is the account after the last one, and the
//! cause of each end.
#![tactic(auto)]

mod endings;
mod laws;
mod lines;
mod logbook;
mod opening;
mod retiring;
mod run;
mod serving;
mod stop;
mod term;
mod terms;
mod watched;

pub use endings::Ending;
pub use laws::logs_of_a_server_are_sound;
pub use run::run_serve;
pub use stop::Stop;
