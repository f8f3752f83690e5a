//! Texts and times: small types that contracts see as lists of bytes, and stamps.
//! It reads and prints the texts that every other crate speaks of.
//! Its contracts: a text has exactly the form that its type names, and what is printed is the definition's text.
#![tactic(auto)]

mod decimals;
mod json_texts;
mod laws;
mod lines;
mod names;
mod numbers;
mod stamps;
mod texts;

pub use decimals::{
    Wrapped, count_decimals, is_decimal, mark_decimals, unmark_decimals, wrap_decimals,
};
pub use json_texts::push_json_text;
pub use laws::{
    marked_is_whole, tokens_stay, unmarking_undoes_marking, unwrapped_is_same, wrapped_is_whole,
};
pub use lines::{cut_lines, line_end, lines_in};
pub use names::{Id, Ids, Name};
pub use numbers::read_number;
pub use stamps::{Cond, LAST, Stamp, push_stamp, read_stamp};
pub use texts::{Bytes, Word};
