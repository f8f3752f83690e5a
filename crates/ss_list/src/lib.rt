//! A chain: a doubly linked list in one `Vec`, whose nodes are linked by index.
//! It moves and removes a node in place, and takes memory in `reserve` alone.
//! Its contract sees the list of its nodes with their places and values, and the free places.
#![tactic(auto)]

mod at;
mod chain;
mod ends;
mod node;
mod steps;

pub use at::At;
pub use chain::Chain;
pub use steps::Steps;
