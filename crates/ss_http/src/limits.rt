//! The limits of messages and responses (this project), as `specs/Limits.antt` states them. In code each stands here and
//! nowhere else.

/// The most fields of a head.
pub const MOST_FIELDS: usize = 64;

/// The longest head, in bytes.
pub const HEAD_ROOM: usize = 16_384;

/// The longest body of a message, in bytes.
pub const BODY_ROOM: u64 = 2_101_248;

/// The room of a buffer in bytes: that of the longest head and of the longest body of a message.
pub const ROOM: usize = HEAD_ROOM + BODY_ROOM as usize;

/// The bytes that a buffer begins with. A first read takes at most so many.
pub const FIRST_ROOM: usize = 65_536;

/// The longest body of a response that a client reads, in bytes.
pub const HEARD_ROOM: u64 = 536_870_912;

/// The most digits of a `Content-Length`.
pub const LENGTH_DIGITS: usize = 18;
