//! Turns on one value: callers in any number of threads draw tickets, and each call is made alone, in the tickets' order.
//! The value keeps a journal of its calls. What a call answers is proved to be the reply at that call's place in the
//! one journal, and what a closed desk gives back is a value whose journal has every call, and no other entry.
#![tactic(auto)]

mod counter;
mod desk;
mod journaled;
mod pass;
mod rule;
mod steps;
mod view;
mod waiting;

pub use counter::{Addition, Counter};
pub use desk::Desk;
pub use journaled::{Full, Journaled};
pub use pass::{Pass, RawPass};
pub use view::{Page, Range, Stage, View};
