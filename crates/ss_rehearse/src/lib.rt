//! A rehearsal from the command line: the command `rehearse`. Two devices with one account are changed and synced by a
//! script, and a summary of it is written; it stands on ss_world and ss_words. A rehearsal's bookmarks
//! follow from a number and a seed. Its contract: the lines that are written are those of the script's events over the
//! world, of each of whose steps the world's promises hold; or nothing is written, by its cause.
#![tactic(auto)]

mod bookmarks;
mod changing;
mod comparing;
mod counting;
mod draws;
mod endings;
mod events;
mod laws;
mod lines;
mod opening;
mod rehearsing;
mod running;
mod summaries;
mod syncing;

pub use endings::Ending;
pub use laws::{
    devices_are_edited_alike, devices_are_merged_alike, rehearsals_have_one_summary,
    trees_have_one_plan, trees_have_one_summary,
};
pub use rehearsing::rehearse;
pub use running::run_rehearsal;
