//! The limit of a connection (this project), as `specs/Turns.antt` states it.

/// How many messages of one connection are answered. The response to the last of them closes.
pub const MOST_MESSAGES: u64 = 1_000;
