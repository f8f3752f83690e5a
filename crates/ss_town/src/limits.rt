//! The limits of a server (this project), as `specs/Limits.antt` states them. In code each stands here and nowhere else.

/// The most accounts of a town.
pub const MOST_ACCOUNTS: usize = 8;

/// The most workers that serve a town.
pub const MOST_WORKERS: u64 = 16;

/// The most connections that one term takes.
pub const MOST_CONNECTIONS: u64 = 1_000;
