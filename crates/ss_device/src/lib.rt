//! A device's bookmarks with what it remembers of its last sync, its edits, and the writing of its file.
//! It changes the tree by ids, keeps what was deleted, and writes a text that people can read; it stands on ss_tree and
//! ss_build. Its contracts: an edit does what its definition says and nothing else, and each refusal comes exactly.
#![tactic(auto)]

mod burials;
mod deletions;
mod device;
mod edits;
mod faults;
mod forms;
mod grafts;
mod laws;
mod lines;
mod removal;
mod titles;
mod tree_edits;
mod writing;

pub use device::Device;
pub use faults::EditFault;
pub use grafts::{insert, revise};
pub use laws::within_is_exact;
pub use lines::{push_dead, push_item, push_row, push_synced};
pub use writing::write_device;
