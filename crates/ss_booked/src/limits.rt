//! The limits of a journal (this project), and what it counts for an entry, as `specs/Sizes.antt` states them.

/// The most entries of a journal.
pub const MOST_ENTRIES: u32 = 200_000;

/// A journal of so many bytes is full.
pub const MOST_JOURNAL_BYTES: u64 = 67_108_864;

/// What a journal counts for an entry beside its payloads, and once more for each part, failed record and listed id.
pub const ENTRY_BYTES: u64 = 256;
