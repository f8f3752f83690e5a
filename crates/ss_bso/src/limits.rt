//! The limits of an account, of what a request brings, and of a batch (this project), as `specs/Limits.antt` and, for
//! the life of a batch, `specs/Account.antt` state them. In code each stands here and nowhere else. Payload bytes are
//! the UTF-8 bytes of the decoded string.

/// The most bytes of one payload.
pub const MOST_RECORD_PAYLOAD_BYTES: usize = 2_097_152;

/// The least sortindex (SyncStorage API 1.5: at most 9 digits).
pub const LEAST_SORTINDEX: i64 = -999_999_999;

/// The greatest sortindex (SyncStorage API 1.5: at most 9 digits).
pub const MOST_SORTINDEX: i64 = 999_999_999;

/// The greatest ttl, in seconds (SyncStorage API 1.5: at most 9 digits).
pub const MOST_TTL: u64 = 999_999_999;

/// The most records of one POST; those that failed count too.
pub const MOST_POST_RECORDS: u64 = 100;

/// The most payload bytes of the records of one POST that didn't fail.
pub const MOST_POST_BYTES: u64 = 2_097_152;

/// The most ids of one list in a request.
pub const MOST_IDS: usize = 100;

/// The most records of one batch.
pub const MOST_BATCH_RECORDS: u64 = 20_000;

/// The most payload bytes of one batch.
pub const MOST_BATCH_BYTES: u64 = 16_777_216;

/// The most live batches of one account.
pub const MOST_LIVE_BATCHES: usize = 4;

/// How long a batch lives, in hundredths of a second of account time: two hours.
pub const BATCH_LIFE: u64 = 720_000;

/// The most payload bytes of an account's rows.
pub const MOST_ACCOUNT_PAYLOAD_BYTES: u64 = 134_217_728;

/// The most rows and collections of an account, together.
pub const MOST_ROWS_AND_COLLECTIONS: u64 = 200_000;
