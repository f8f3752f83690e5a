//! The tables of an account's database.
//!
//! `about` has one row: the version of the tables, the time of the last write to the store, that of the last deletion,
//! and the counter of batches. `collections` has the collections with the time of each one's last write. `rows` has the
//! stored records, each under a number of its own, which SQLite gives it: one more than the largest one there. No two
//! have one collection and id, but no index says so, since it would be two thirds of what opening a file costs; it is
//! seen to as the rows are read. `batches` has the batches that aren't committed yet, and `parts` their parts, each at
//! its place in its batch, counted from 1: of each field whether it is given, and then its value, or NULL where it is
//! cleared. Times are hundredths of a second since 1970. `counter`, `expires` and the numbers of batches are numbers
//! without sign: from 2^63 on they stand as the number less 2^64.
//!
//! `commits` has the commits that weren't made to these tables yet, in the order of their numbers: of each the text of
//! its changes, as `ss_commits` writes it. What is held is what the tables have, with the changes of these made to it
//! one after the other.
//!
//! In version 3 collection and id are the key of `rows`, which has no numbers but SQLite's own. Version 2 has no commits
//! besides: each was made to the tables at once, and `rows` had an index by expiry for that. Version 1 has no batches
//! either: its tables are those of version 2 without `batches` and `parts`.

use sqlite::{Alter, Error, ErrorCode, Transaction};

/// The version of the tables that this crate reads and writes.
pub(crate) const VERSION: i64 = 4;

/// The version whose rows have no numbers of their own, and which is taken over.
pub(crate) const VERSION_WITHOUT_NUMBERS: i64 = 3;

/// The version without commits, whose tables are taken over.
pub(crate) const VERSION_WITHOUT_COMMITS: i64 = 2;

/// The version without batches, whose tables are taken over.
pub(crate) const VERSION_WITHOUT_BATCHES: i64 = 1;

/// The first two tables, and the one row of `about` as it is at first.
const MAKE_ABOUT: &str = "\
CREATE TABLE about (version INTEGER NOT NULL, store INTEGER NOT NULL, last_delete INTEGER NOT NULL, counter INTEGER NOT NULL) STRICT;
CREATE TABLE collections (name TEXT NOT NULL PRIMARY KEY, time INTEGER NOT NULL) STRICT;
INSERT INTO about (version, store, last_delete, counter) VALUES (4, 0, 0, 0);";

/// The table of stored records, without any.
const MAKE_ROWS: &str =
    "CREATE TABLE rows (number INTEGER PRIMARY KEY, collection TEXT NOT NULL, id TEXT NOT NULL, modified INTEGER NOT NULL, sortindex INTEGER, payload TEXT NOT NULL, expires INTEGER) STRICT;";

/// The tables of batches, without any.
const MAKE_BATCHES: &str = "\
CREATE TABLE batches (number INTEGER NOT NULL PRIMARY KEY, collection TEXT NOT NULL, begun INTEGER NOT NULL) STRICT;
CREATE TABLE parts (number INTEGER NOT NULL, place INTEGER NOT NULL, id TEXT NOT NULL, has_payload INTEGER NOT NULL, payload TEXT, has_sortindex INTEGER NOT NULL, sortindex INTEGER, has_ttl INTEGER NOT NULL, ttl INTEGER, PRIMARY KEY (number, place)) STRICT;";

/// The table of commits, without any.
const MAKE_COMMITS: &str =
    "CREATE TABLE commits (number INTEGER PRIMARY KEY, changes TEXT NOT NULL) STRICT;";

/// The table of stored records goes with its indexes.
const DROP_ROWS: &str = "DROP TABLE rows;";

const SET_VERSION: &str = "UPDATE about SET version = 4;";

/// All rows of the table of commits go at once; to delete them one by one is some twenty times as dear.
const DROP_COMMITS: &str = "DROP TABLE commits;";

const COUNT_OBJECTS: &str = "SELECT count(*) FROM sqlite_schema";

const READ_VERSION: &str = "SELECT version FROM about";

/// A statement within a transaction that another one began is refused.
pub(crate) const IN_TRANSACTION: Error = Error::SqliteFailure(ErrorCode::TransactionState);

fn is_blank<S: Alter>(transaction: &mut Transaction<'_, S>) -> Result<bool, Error> {
    let objects: i64 = transaction.query_row(COUNT_OBJECTS, &[])?.get(0)?;
    Ok(objects == 0)
}

fn version<S: Alter>(transaction: &mut Transaction<'_, S>) -> Result<i64, Error> {
    transaction.query_row(READ_VERSION, &[])?.get(0)
}

fn make<S: Alter>(transaction: &mut Transaction<'_, S>) -> Result<(), Error> {
    transaction.execute_batch(MAKE_ABOUT)?;
    transaction.execute_batch(MAKE_ROWS)?;
    transaction.execute_batch(MAKE_BATCHES)?;
    transaction.execute_batch(MAKE_COMMITS)
}

/// Adds the tables that version 1 or 2 lacks, and tells the version that was found.
fn found<S: Alter>(transaction: &mut Transaction<'_, S>) -> Result<i64, Error> {
    let found = version(transaction)?;
    if found == VERSION_WITHOUT_BATCHES {
        transaction.execute_batch(MAKE_BATCHES)?;
    }
    if found == VERSION_WITHOUT_BATCHES || found == VERSION_WITHOUT_COMMITS {
        transaction.execute_batch(MAKE_COMMITS)?;
    }
    Ok(found)
}

/// The version of the tables that was found. A database without tables gets them first, and one of an older version
/// those that it lacks.
pub(crate) fn ready<S: Alter>(transaction: &mut Transaction<'_, S>) -> Result<i64, Error> {
    if is_blank(transaction)? {
        make(transaction)?;
    }
    found(transaction)
}

/// Makes the table of stored records anew without any, and sets the version.
pub(crate) fn renew_rows<S: Alter>(transaction: &mut Transaction<'_, S>) -> Result<(), Error> {
    transaction.execute_batch(DROP_ROWS)?;
    transaction.execute_batch(MAKE_ROWS)?;
    transaction.execute_batch(SET_VERSION)
}

/// Empties the table of commits.
pub(crate) fn clear_commits<S: Alter>(transaction: &mut Transaction<'_, S>) -> Result<(), Error> {
    transaction.execute_batch(DROP_COMMITS)?;
    transaction.execute_batch(MAKE_COMMITS)
}
