//! Messages over HTTP/1.1, from both ends: a server reads messages and writes responses, a client the other way round.
//! Heads are read by httparse's grammar; a body has as many bytes as its `Content-Length` says. Its contracts: exactly
//! the next message or response is taken however the input is cut, each refusal has its cause, and what is written is
//! the definition's bytes.
#![tactic(auto)]

mod answer;
mod buffer;
mod fault;
mod fields;
mod head;
mod heard;
mod hearing;
mod laws;
pub mod limits;
mod lines;
mod memory;
mod message;
mod reading;
mod request;
mod response;

pub use buffer::Buffer;
pub use fault::MsgFault;
pub use heard::{Heard, HeardFault};
pub use hearing::read_response;
pub use laws::{faults_are_no_messages, one_way, requests_are_read, responses_are_heard};
pub use memory::{memory_response, memory_response_len};
pub use message::{FieldLines, Message};
pub use reading::read_message;
pub use request::push_request;
pub use response::{ResponseHead, into_response, push_response};
