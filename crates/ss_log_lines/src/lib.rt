//! The lines of a log, the text of a journal: one writer and one reader of compact JSON lists, a list a line. A log
//! tells its opening account by the lines of `ss_lines`, and a line for each entry has what was asked, and how it ended.
//! Its contracts: what is written is the text of the line, and exactly the texts of lines are read, as what they say.
#![tactic(auto)]

mod arrays;
mod fit;
mod forms;
mod laws;
mod lines;
mod next;
mod pieces;
mod reading;
mod records;
mod requests;
mod told;
mod values;
mod words;
mod writing;

pub use forms::{entry_form, log_line_form};
pub use laws::{log_lines_are_told_apart, read_written_line};
pub use lines::LogLine;
pub use next::{LogFront, next_log_line};
pub use reading::read_log_line;
pub use writing::{push_call, push_log, push_log_line};
