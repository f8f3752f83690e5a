//! Duplicates: new items that are the same on both sides of a merge.
//! It pairs them by their places, their kinds, the members that tell them apart and their ranks; it stands on ss_tree.
//! Its contracts: the pairs are the least set that the rule gives, no id is in two, and renaming keeps a tree valid.
#![tactic(auto)]

mod keys;
mod laws;
mod news;
mod plain;
mod plains;
mod rounds;
mod sides;

pub use laws::{keys_tell_kinds_and_members, no_id_is_in_two_pairs, renamed_trees_are_valid};
pub use plain::{PlainTree, Seat};
pub use plains::Plains;
pub use rounds::{pair_dupes, pair_read};
pub use sides::Side;
