//! Building: one valid tree from any set of rows, however damaged they are.
//! It reads the rows, proposes parents, breaks circles and puts each item into its place; it stands on ss_tree.
//! Its contracts: the tree is the definition's, it is valid, and rows that stand for a tree are built to that tree.
#![tactic(auto)]

mod building;
mod circles;
mod claims;
mod distinct;
mod laws;
mod orders;
mod parents;
mod places;
mod plants;
mod proposals;
mod repairs;
mod rows;
mod siblings;

pub use building::{Built, build, build_claims};
pub use claims::Claim;
pub use distinct::are_distinct;
pub use laws::{built_tree_is_valid, circles_are_bounded, rows_are_built_back};
