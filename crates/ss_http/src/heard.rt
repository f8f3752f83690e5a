//! What a client hears.

use ss_text::{Bytes, Stamp};

/// What a client hears of a response.
#[derive(Drop, Debug)]
pub struct Heard {
    pub status: u16,

    /// `X-Last-Modified`, where it is a stamp.
    pub modified: Option<Stamp>,

    /// `X-Weave-Next-Offset`, whatever it says.
    pub next: Option<Bytes>,

    pub body: Bytes,

    /// Whether the connection ends with this response.
    pub last: bool,
}

/// Why no response was read.
#[derive(Clone, Copy, Debug, PartialEq, Eq)]
pub enum HeardFault {
    /// The input ended before the response was whole.
    Cut,

    /// The bytes begin no head within its limits, or one with a `Transfer-Encoding` or without a length.
    Bad,

    /// The body would have `n` bytes, more than a client reads.
    TooLarge { n: u64 },

    /// The source failed.
    ReadFault,

    /// No memory was found for the response.
    Memory,
}
