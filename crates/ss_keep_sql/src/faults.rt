//! Why a database isn't taken as an account's, and why what it holds isn't read or written.

ghost use Rattle.std.specs.Prelude.{◌≡◌, ◌≢◌, ◌↔◌, ℤ, IsTrue, IfOk, Ok, Err};
ghost use Rattle.ss_keep_sql.specs.Opening.{HasVersion, IsOther, IsTakenVersion, TellsVersion};

use crate::places::Place;
use crate::tables::{
    VERSION, VERSION_WITHOUT_BATCHES, VERSION_WITHOUT_COMMITS, VERSION_WITHOUT_NUMBERS,
};
use sqlite::{Error, ErrorCode};
use std::alloc::AllocError;
use thiserror::Error;

/// That memory is wanting, as SQLite tells it.
pub(crate) const NO_MEMORY: Error = Error::SqliteFailure(ErrorCode::OutOfMemory);

/// Why a database isn't taken as an account's.
#[derive(Clone, Copy, Debug, PartialEq, Eq, Error)]
pub enum SqlFault {
    /// The file isn't there, is no database, or a statement was refused. There is no keeper yet that could count it.
    #[error("the database was refused")]
    Fault,

    /// Its tables are of a version that is none of 1, 2, 3 and 4.
    #[error("the database has version {found}")]
    Version { found: i64 },

    /// What a row holds is out of form: a name, an id or a payload that is no UTF-8, a value of another type or beyond its
    /// range, the text of no commit, a further row of `about`, or a further record of one collection and id.
    #[error("{place} is out of form")]
    Damaged { place: Place },

    #[error("out of memory")]
    Memory,
}

/// Why a file isn't opened as an account's.
#[derive(Clone, Copy, Debug, PartialEq, Eq, Error)]
pub enum FileFault {
    /// It isn't there, can't be read or written, is open elsewhere, or is no database.
    #[error("{error}")]
    Unopened { error: Error },

    /// Its database isn't taken.
    #[error("{fault}")]
    Refused { fault: SqlFault },
}

/// Why what is held wasn't read or written.
#[derive(Clone, Copy, Debug)]
pub(crate) enum Refusal {
    /// A statement was refused, or memory was wanting.
    Statement(Error),

    /// What a row holds is out of form.
    Damaged { place: Place },
}

impl Refusal {
    /// Whether memory was wanting, and nothing else.
    pub(crate) fn is_memory(self) -> bool {
        match self {
            Refusal::Statement(error) => is_memory(error),
            Refusal::Damaged { .. } => false,
        }
    }
}

impl From<Error> for Refusal {
    fn from(error: Error) -> Refusal {
        Refusal::Statement(error)
    }
}

impl From<AllocError> for Refusal {
    fn from(_error: AllocError) -> Refusal {
        Refusal::Statement(NO_MEMORY)
    }
}

/// Whether memory was wanting, and nothing else.
pub(crate) fn is_memory(error: Error) -> bool
    ensures { IsTrue result ↔ (error ≡ Error.SqliteFailure ErrorCode.OutOfMemory) }
{
    matches!(error, Error::SqliteFailure(ErrorCode::OutOfMemory))
}

/// Why a database isn't taken, where a statement was refused: never for its version.
pub(crate) fn fault_of(error: Error) -> SqlFault
    ensures memory { error ≡ Error.SqliteFailure ErrorCode.OutOfMemory → result ≡ SqlFault.Memory }
    ensures fault { error ≢ Error.SqliteFailure ErrorCode.OutOfMemory → result ≡ SqlFault.Fault }
{
    if is_memory(error) {
        SqlFault::Memory
    } else {
        SqlFault::Fault
    }
}

/// Why a database isn't taken that wasn't read, or whose commits weren't made to its tables: never for its version.
pub(crate) fn fault_of_refusal(refusal: Refusal) -> SqlFault
    ensures { HasVersion result }
{
    match refusal {
        Refusal::Statement(error) => fault_of(error),
        Refusal::Damaged { place } => SqlFault::Damaged { place },
    }
}

/// Why a database isn't taken whose file isn't opened: for its version only where the file was.
pub(crate) fn fault_of_file(fault: FileFault) -> SqlFault
    ensures { TellsVersion fault → HasVersion result }
{
    match fault {
        FileFault::Unopened { error } => fault_of(error),
        FileFault::Refused { fault } => fault,
    }
}

/// Whether a database is taken of which this version was read, or could not be read; and the version.
pub(crate) fn taken(read: Result<i64, Error>) -> Result<i64, SqlFault>
    ensures ok { IfOk result (λ found. (read ≡ Ok found) × IsTakenVersion found) }
    ensures version { (found : ℤ) → result ≡ Err (SqlFault.Version found) → (read ≡ Ok found) × IsOther found }
    ensures refused { IfOk read (λ found. IsTakenVersion found → result ≡ Ok found) }
{
    match read {
        Ok(
            found @ (VERSION
            | VERSION_WITHOUT_NUMBERS
            | VERSION_WITHOUT_COMMITS
            | VERSION_WITHOUT_BATCHES),
        ) => Ok(found),
        Ok(found) => Err(SqlFault::Version { found }),
        Err(error) => Err(fault_of(error)),
    }
}
