//! What failed at the site of the system, for people.

use sqlite::{Error, ErrorCode};
use ss_keep_sql::Place;
use std::fmt::{self, Display, Formatter, Write};
use std::io::ErrorKind;

/// What failed.
#[derive(Clone, Copy, Debug)]
pub enum Trouble {
    /// The address can't be listened at.
    Address(ErrorKind),

    /// The folder can't be made.
    Folder(ErrorKind),

    /// The folder isn't there.
    NoFolder,

    /// It can't be seen whether the folder is there.
    NoAccess(ErrorKind),

    /// The database of an account can't be opened.
    Database { uid: u32, error: Error },

    /// The tables of an account's database can't be read or made.
    Tables { uid: u32 },

    /// The database of an account has tables of a version that isn't known.
    Version { uid: u32, found: i64 },

    /// What a row of an account's database holds is out of form.
    Damaged { uid: u32, place: Place },

    /// The database of an account failed while it was open.
    Keeper { uid: u32 },

    /// The port failed while it listened.
    Port,

    /// The folder of the logs can't be made.
    LogFolder(ErrorKind),

    /// A log can't be written.
    Log,

    /// A file with the name of a log is there already.
    LogIsThere,
}

// Why an account's database can't be opened.
fn write_refusal<W: Write>(uid: u32, error: Error, f: &mut Formatter<W>) -> fmt::Result {
    match error {
        Error::SqliteFailure(ErrorCode::DatabaseBusy) => {
            write!(f, "another program has the file {uid}.db open")
        }
        Error::SqliteFailure(ErrorCode::CannotOpen) => write!(
            f,
            "the file {uid}.db can't be opened or made: look whether it and the folder may be read and written"
        ),
        Error::SqliteFailure(ErrorCode::NotADatabase | ErrorCode::DatabaseCorrupt) => {
            write!(f, "the file {uid}.db is damaged, or is no database")
        }
        _ => write!(f, "the file {uid}.db can't be read: {error}"),
    }
}

impl Display for Trouble {
    fn fmt<W: Write>(&self, f: &mut Formatter<W>) -> fmt::Result {
        match self {
            Trouble::Address(ErrorKind::AddrInUse) => f.write_str(
                "the address is in use by another program",
            ),
            Trouble::Address(ErrorKind::PermissionDenied) => f.write_str(
                "it is not allowed to listen at the address",
            ),
            Trouble::Address(_) => f.write_str("the address can't be listened at"),
            Trouble::Folder(ErrorKind::PermissionDenied) => f.write_str(
                "the folder may not be made or written",
            ),
            Trouble::Folder(_) => f.write_str("the folder can't be made"),
            Trouble::NoFolder => f.write_str("the folder isn't there"),
            Trouble::NoAccess(_) => f.write_str("it may not be seen whether the folder is there"),
            Trouble::Database { uid, error } => write_refusal(*uid, *error, f),
            Trouble::Tables { uid } => write!(
                f,
                "the tables in the file {uid}.db can't be read or made"
            ),
            Trouble::Version { uid, found } => {
                write!(
                    f,
                    "the file {uid}.db has version {found}, which this program doesn't know"
                )
            }
            Trouble::Damaged { uid, place } => {
                write!(f, "the file {uid}.db is damaged: {place} is out of form")
            }
            Trouble::Keeper { uid } => write!(f, "the file {uid}.db failed while it was open"),
            Trouble::Port => f.write_str("the port failed while it listened"),
            Trouble::LogFolder(ErrorKind::PermissionDenied) => f.write_str(
                "the folder of the logs may not be made or written",
            ),
            Trouble::LogFolder(_) => f.write_str("the folder of the logs can't be made"),
            Trouble::Log => f.write_str("a log can't be written"),
            Trouble::LogIsThere => f.write_str(
                "a log with this name is there already, and is not written over; --from tells the number of the first term",
            ),
        }
    }
}
