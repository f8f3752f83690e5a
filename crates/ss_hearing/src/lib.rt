//! What a sync client hears: from a response's status, fields and body to the answer that its machine looks at. It
//! reads configurations, pages of rows, lists of ids and the replies to POSTs out of JSON; it stands on the kit's json.
//! Its contract: the answer is exactly the definition's for every response, and a reply out of form is told as such.
#![tactic(auto)]

mod answer;
mod batches;
mod bodies;
mod hearing;
mod limits;
mod lists;
mod posts;
mod sheets;

pub use answer::{Answer, Awaited};
pub use hearing::hear;
pub use sheets::Sheets;
