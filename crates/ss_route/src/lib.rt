//! Routes, and the bytes of responses and of a client's requests (SyncStorage API 1.5). It says what a message asks of
//! which account, or the first rule that refuses it; and it writes the response to a reply. Its contracts: routing is
//! the definition's function of the message, a response is the definition's bytes, and both are read back as they were
//! meant.
#![tactic(auto)]

mod asked;
mod bodies;
mod conditions;
mod cuts;
mod fields;
mod laws;
mod manner;
mod methods;
mod posts;
mod ready;
mod requests;
mod responses;
mod routed;
mod routing;
mod scalars;
mod targets;
mod texts;

pub use laws::{batch_ids_are_given_out, replies_are_heard, requests_are_routed};
pub use manner::Manner;
pub use ready::Response;
pub use requests::write_request;
pub use responses::{heard_of, not_listed, refused, render, render_local};
pub use routed::{Local, Routed};
pub use routing::route;
