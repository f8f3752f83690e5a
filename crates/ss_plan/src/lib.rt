//! The plan of an upload: what has to be put so that a server's rows stand for a tree.
//! It compares a tree with what was read of the rows, and writes the records and tombstones; it stands on ss_build.
//! Its contracts: the plan is the definition's, each refusal comes exactly, and the rows after it stand for the tree.
#![tactic(auto)]

mod agreeing;
mod gone;
mod known;
mod limits;
mod planning;
mod records;
mod refusals;
mod seats;

pub use limits::{Limits, PlanFault};
pub use planning::{changes, plan};
