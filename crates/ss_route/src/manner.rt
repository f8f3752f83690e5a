//! How the conditions of a message are read.

/// How the conditions of a message are read. In each manner a time is one of the SyncStorage API 1.5; browsers mean
/// something else by two values that they send.
#[derive(Clone, Copy, Debug, PartialEq, Eq)]
pub enum Manner {
    /// By the letter of the SyncStorage API 1.5.
    Profile,

    /// As Firefox means them: `X-If-Unmodified-Since: 0` is that the target isn't there, and 11 to 18 digits, which are
    /// thousandths of a second taken for seconds, are the last time that there is.
    Browser,
}
