//! What an exchange is: what its account is opened from, and the messages that it then gets.

use ss_bso::Kept;
use ss_http::Message;
use ss_route::Manner;

/// A message, and the reading of the clock at which it comes (hundredths of a second).
#[derive(Drop)]
pub struct Timed {
    pub now: u64,
    /// How its conditions are read.
    pub manner: Manner,
    pub message: Message,
    /// Whether only the status of its answer is told.
    pub is_quiet: bool,
}

/// What a client asks of account 7, in order.
#[derive(Drop)]
pub struct Exchange {
    pub title: String,
    /// What is kept of the account at first.
    pub kept: Kept,
    /// Which call of the keeper fails, counted from 1; the first is the one that opens the account.
    pub failing: Option<u64>,
    /// Whether it is played once, over a keeper in memory alone.
    pub is_once: bool,
    pub messages: Vec<Timed>,
}
