//! Bookmark records: what a payload says, and the record of an item.
//! It reads payloads into items, tombstones or nothing, and writes items back; it stands on ss_text and serde_json.
//! Its contracts: exactly the payloads in form are items, an item's record reads back as it, and each item is fit.
#![tactic(auto)]

mod ids;
mod items;
mod kinds;
mod laws;
mod marks;
mod payloads;
mod read;
mod readings;
mod write;

pub use ids::{is_places, is_root};
pub use items::{Item, ItemFault};
pub use kinds::Kind;
pub use laws::fitness_is_reading_back;
pub use marks::{marked_string, plain_text, string_of};
pub use payloads::{into_members, member, read_value};
pub use read::read_record;
pub use readings::{Reading, Sheet, Words};
pub use write::{with_member, write_record, write_tombstone};
