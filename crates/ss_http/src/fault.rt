//! Why no message was read.

ghost use Rattle.std.specs.Prelude.{◌≡◌};
ghost use Rattle.ss_http.specs.Faults.{lasting};

use thiserror::Error;

/// Why no message was read. The faults from `BadHead` to `TooLarge` are answered by a response, and the connection
/// ends.
#[derive(Clone, Copy, Debug, PartialEq, Eq, Error)]
pub enum MsgFault {
    /// The input ended between messages.
    #[error("the input ended")]
    End,

    /// The input ended inside a message.
    #[error("the input ended inside a message")]
    Cut,

    /// The bytes begin no head with as many fields as it may have, however they go on.
    #[error("the input goes on with no head of a message")]
    BadHead,

    /// As many bytes came as a head may have, and they hold none.
    #[error("the head of a message is too long")]
    HeadTooLong,

    /// The head has a `Transfer-Encoding`.
    #[error("the body of a message is coded for the transfer")]
    Coded,

    /// A `Content-Length` isn't 1 to 18 digits, or two of them differ as numbers.
    #[error("the length of a message is no number, or there are two")]
    BadLength,

    /// The body would have `n` bytes, more than a message may have.
    #[error("the body of a message is too large: {n} bytes")]
    TooLarge { n: u64 },

    /// The source failed.
    #[error("reading the input failed")]
    ReadFault,

    /// No memory was found for the message.
    #[error("no memory was found")]
    Memory,
}

impl MsgFault {
    /// The fault, where a further call gives it too; None for a failed read and for want of memory, after which the
    /// call can be made again.
    pub(crate) fn lasting(self) -> Option<MsgFault>
        ensures { result ≡ lasting self }
    {
        match self {
            MsgFault::ReadFault | MsgFault::Memory => None,
            fault => Some(fault),
        }
    }
}
