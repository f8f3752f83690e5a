//! Bookmarks that are synced with one account: what a sync client asks, what the account answers, and what that leaves.
//! It stands on the one-account API and on what a client hears. Its contract: laws on every request, reading of the
//! clock and opening of an account with its keeper, in terms of what the account shows of its bookmarks.
#![tactic(auto)]

mod laws;

pub use laws::{account_serves_bookmarks, replies_say_what_is_told};
