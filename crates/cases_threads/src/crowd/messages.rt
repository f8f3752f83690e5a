//! Messages that are drawn, and the pieces in which they come.

use std::alloc::{AllocError, Global};

/// Numbers that follow from a first one.
#[derive(Drop)]
pub struct Draw {
    state: u64,
}

impl Draw {
    pub fn new(first: u64) -> Draw {
        Draw { state: first }
    }

    /// The next number below `limit`, or 0 where that is 0.
    pub fn below(&mut self, limit: u64) -> u64 {
        self.state = self
            .state
            .wrapping_mul(6364136223846793005)
            .wrapping_add(1442695040888963407);
        (self.state >> 33).checked_rem(limit).unwrap_or(0)
    }
}

/// A request with a body.
fn with_body(alloc: Global, head: &str, body: &str) -> Result<String, AllocError> {
    let size = body.len();
    format!(in alloc; "{head} HTTP/1.1\r\nContent-Length: {size}\r\n\r\n{body}")
}

/// A request to one of the accounts 7 and 8.
pub fn message(alloc: Global, draw: &mut Draw) -> Result<String, AllocError> {
    let (uid, id) = (draw.below(2).saturating_add(7), draw.below(20));
    let payload = draw.below(1_000_000);
    let items = format!(in alloc; "/1.5/{uid}/storage/forms")?;
    match draw.below(8) {
        0 | 1 | 2 => {
            let head = format!(in alloc; "PUT {items}/r{id}")?;
            let body = format!(in alloc; "{{\"payload\":\"{payload}\"}}")?;
            with_body(alloc, head.as_str(), body.as_str())
        }
        3 => {
            let head = format!(in alloc; "POST {items}")?;
            let body = format!(in alloc;
                "[{{\"id\":\"r{id}\",\"payload\":\"{payload}\"}},{{\"id\":\"s{id}\",\"sortindex\":{id}}}]"
            )?;
            with_body(alloc, head.as_str(), body.as_str())
        }
        4 => with_body(
            alloc,
            format!(in alloc; "DELETE {items}/r{id}")?.as_str(),
            "",
        ),
        5 => with_body(
            alloc,
            format!(in alloc; "GET {items}?full=1&limit=3")?.as_str(),
            "",
        ),
        _ => with_body(alloc, format!(in alloc; "GET {items}/r{id}")?.as_str(), ""),
    }
}

/// A text in pieces of 1 to 200 bytes.
pub fn pieces(alloc: Global, text: &str, draw: &mut Draw) -> Result<Vec<Vec<u8>>, AllocError> {
    let mut pieces = Vec::new(alloc);
    let mut rest = text.as_bytes();
    // Each piece has some bytes.
    for _ in 0..text.len() {
        if rest.is_empty() {
            break;
        }
        let size = (draw.below(200) as usize).saturating_add(1);
        let (front, back) = rest.split_at(size.min(rest.len()));
        pieces.push(Vec::from_slice(alloc, front)?)?;
        rest = back;
    }
    Ok(pieces)
}
