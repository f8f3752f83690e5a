//! Merging: one valid tree from a mirror, a local and a remote tree with their deletions.
//! It renames duplicates, decides what survives, and gives each survivor its content, parent and place; it stands on
//! ss_dupe and ss_build. Its contracts: the tree is the definition's, it is valid, and each survivor stands in it once.
#![tactic(auto)]

mod claims;
mod ids;
mod laws;
mod marks;
mod merging;
mod paired;
mod parents;
mod parts;
mod survivors;
mod telling;
mod ways;

pub use laws::{
    final_parents_come_to_a_root, merged_trees_are_valid, nearest_is_exact, rooted_is_exact,
};
pub use merging::{Merged, Origin, merge};
