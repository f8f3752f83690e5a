//! Responses that no server of ours gives.

use crate::syncs::wire::Answer;
use std::alloc::{AllocError, Global};

/// What comes in the place of one response.
#[derive(Drop)]
enum Kind {
    /// A response with this body.
    Body(String),
    /// A head that announces a body of so many bytes, and no body.
    Long(u64),
    /// The response without its last byte, and the end of the link.
    Cut,
}

/// What comes in the place of the response to the request with this number, counted from 1 in each sync.
#[derive(Drop)]
pub struct Twist {
    number: u64,
    kind: Kind,
}

/// A response with this body.
fn with_body(alloc: Global, text: &str) -> Result<Answer, AllocError> {
    let size = text.len();
    let text = format!(in alloc; "HTTP/1.1 200 OK\r\nContent-Length: {size}\r\n\r\n{text}")?;
    Ok(Answer {
        bytes: text.into_bytes(),
        last: false,
    })
}

/// The head of a response with a body of so many bytes.
fn head(alloc: Global, size: u64) -> Result<Answer, AllocError> {
    let text = format!(in alloc; "HTTP/1.1 200 OK\r\nContent-Length: {size}\r\n\r\n")?;
    Ok(Answer {
        bytes: text.into_bytes(),
        last: false,
    })
}

/// A response without its last byte.
fn shortened(answer: Answer) -> Answer {
    let Answer { mut bytes, last: _ } = answer;
    let _ = bytes.pop();
    Answer { bytes, last: true }
}

impl Twist {
    /// A response with this body comes.
    pub fn body(alloc: Global, number: u64, text: &str) -> Result<Twist, AllocError> {
        let kind = Kind::Body(String::from_str(alloc, text)?);
        Ok(Twist { number, kind })
    }

    /// A head comes that announces a body of so many bytes, and no body.
    pub fn long(number: u64, size: u64) -> Twist {
        Twist {
            number,
            kind: Kind::Long(size),
        }
    }

    /// The response comes without its last byte, and the link ends.
    pub fn cut(number: u64) -> Twist {
        Twist {
            number,
            kind: Kind::Cut,
        }
    }

    /// What comes in the place of a response.
    pub fn turn(&self, alloc: Global, number: u64, answer: Answer) -> Result<Answer, AllocError> {
        if number != self.number {
            return Ok(answer);
        }
        match &self.kind {
            Kind::Body(text) => with_body(alloc, text.as_str()),
            Kind::Long(size) => head(alloc, *size),
            Kind::Cut => Ok(shortened(answer)),
        }
    }
}
