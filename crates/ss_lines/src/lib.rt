//! The lines of a text that tells an account: one writer and one reader of compact JSON lists, a list a line.
//! Dumps, journals and what a keeper writes down of its commits have their lines from here.
//! Its contracts: what is written is the text of the line, and exactly the texts of lines are read, as what they say.
#![tactic(auto)]

pub mod cells;
mod digests;
mod forms;
mod laws;
mod lines;
mod next;
mod reading;
pub mod values;
mod writing;

pub use digests::Digest;
pub use forms::{line_form, part_form, row_form};
pub use laws::{lines_are_told_apart, read_written};
pub use lines::Line;
pub use next::{Front, next_line};
pub use reading::read_line;
pub use writing::{
    push_account, push_batch, push_collection, push_digest, push_end, push_line, push_part,
    push_row, push_times,
};
