//! The file of an account's database, and how it is opened. A file that is made has small pages, since a commit writes
//! whole pages and is mostly smaller than one.

ghost use Rattle.std.specs.Prelude.{◌≡◌, IsTrue, IfOk};
ghost use Rattle.sqlite_std_file.specs.File.{file_is_usable};
ghost use Rattle.sqlite_store.specs.Unopened.{files_of};

use crate::faults::NO_MEMORY;
use crate::logs::NewLog;
use sqlite::{
    Connection, Error, ErrorCode, File, FileFrom, FileStore, Files, Options, Start, Unknown,
};
use sqlite_disk::{Disk, Tally};
use sqlite_pager::Pager;
use sqlite_pool::probe_blank;
use sqlite_std_file::OpenError as PathError;
use sqlite_store::{OpenError, Unopened, name_fault};
use sqlite_trees::error::StoreError;
use sqlite_wal::{PageSize, probe_page_size};
use std::alloc::{AllocFailed, Global};
use std::hash::{BuildHasher, RandomState};
use std::io::ErrorKind;

/// The bytes of a page in a file that is made.
const PAGE_BYTES: usize = 2048;

/// How many bytes of pages are held in memory at most: of those that were read, and of those that a transaction writes.
const HELD_BYTES: usize = 8_388_608;

/// How many bytes of pages that were read are held in memory at least. All of them are filled as a file is opened, so a
/// small file has fewer.
const LEAST_HELD_BYTES: usize = 1_048_576;

/// How many bytes of pages the log has before it is copied into the file.
const LOG_BYTES: usize = 4_194_304;

const CANNOT_OPEN: Error = Error::SqliteFailure(ErrorCode::CannotOpen);

const FAILED: Error = Error::SqliteFailure(ErrorCode::SystemIoFailure);

/// The choices for a file whose pages have so many bytes, and of which so many bytes of pages are held in memory.
fn options(seed: u64, page_bytes: usize, held_bytes: usize) -> Options {
    let chosen = Options::new(seed);
    Options {
        cache_pages: held_bytes
            .checked_div(page_bytes)
            .unwrap_or(chosen.cache_pages),
        spill_pages: HELD_BYTES
            .checked_div(page_bytes)
            .unwrap_or(chosen.spill_pages),
        checkpoint_frames: LOG_BYTES
            .checked_div(page_bytes)
            .unwrap_or(chosen.checkpoint_frames),
        seed,
    }
}

fn probe_error(error: sqlite_wal::Error) -> Error {
    match error {
        sqlite_wal::Error::OutOfMemory => NO_MEMORY,
        sqlite_wal::Error::Io(_) => FAILED,
        sqlite_wal::Error::Full => Error::SqliteFailure(ErrorCode::DiskFull),
        _ => Error::SqliteFailure(ErrorCode::NotADatabase),
    }
}

fn open_error(error: OpenError) -> Error {
    match error {
        OpenError::OutOfMemory => NO_MEMORY,
        OpenError::Io => FAILED,
        OpenError::Full => Error::SqliteFailure(ErrorCode::DiskFull),
        OpenError::Refused => Error::SqliteFailure(ErrorCode::DatabaseCorrupt),
    }
}

/// Where a call of the disk failed, its failure by what the files met since then.
fn named(error: Error, before: Tally, now: Tally) -> Error {
    if error != FAILED {
        return error;
    }
    match name_fault(before, now) {
        StoreError::Full => Error::SqliteFailure(ErrorCode::DiskFull),
        StoreError::Corrupt => Error::SqliteFailure(ErrorCode::DatabaseCorrupt),
        _ => FAILED,
    }
}

/// Files that no database is in, with what is to become one.
fn unopened<D: Disk>(
    alloc: Global,
    files: Files<D>,
    size: PageSize,
    seed: u64,
) -> Result<Unopened<D>, Files<D>>
    ensures { IfOk result (λ fresh. files_of fresh ≡ (files.log, files.db)) }
{
    let pager = match Pager::new(alloc, files, size, options(seed, size.bytes(), HELD_BYTES)) {
        Ok(pager) => pager,
        Err(AllocFailed { value }) => return Err(value),
    };
    match Unopened::new(alloc, pager, &[]) {
        Ok(fresh) => Ok(fresh),
        Err(AllocFailed { value }) => Err(value.close()),
    }
}

/// Makes an empty database in files, or goes on where a stop left one half made.
fn make<D: Disk + Drop>(
    alloc: Global,
    files: Files<D>,
    size: PageSize,
    seed: u64,
) -> Result<Connection<FileStore<D>>, (Error, Files<D>)>
    requires log { IsTrue (D.Disk.is_usable files.log) }
    requires db { IsTrue (D.Disk.is_usable files.db) }
{
    let fresh = match unopened(alloc, files, size, seed) {
        Ok(fresh) => fresh,
        Err(files) => return Err((NO_MEMORY, files)),
    };
    let store = match fresh.create() {
        Ok(store) => store,
        Err((error, left)) => return Err((open_error(error), left.close())),
    };
    match Connection::over(alloc, store) {
        Ok(connection) => Ok(connection),
        Err((error, store)) => Err((error, store.close())),
    }
}

/// How many bytes of pages are held in memory of those that are read from files of so many bytes: room for twice as many,
/// within bounds.
fn held_bytes(bytes: usize) -> usize {
    bytes.saturating_mul(2).clamp(LEAST_HELD_BYTES, HELD_BYTES)
}

/// Opens the database in files.
fn open_made<D: Disk + Drop>(
    alloc: Global,
    mut files: Files<D>,
    seed: u64,
) -> Result<Connection<FileStore<D>>, (Error, Files<D>)>
    requires log { IsTrue (D.Disk.is_usable files.log) }
    requires db { IsTrue (D.Disk.is_usable files.db) }
{
    let found = probe_page_size(&mut files);
    let (Ok(found), Ok(db), Ok(log)) = (found, files.db.len(), files.log.len()) else {
        return Err((FAILED, files));
    };
    let chosen = match found {
        Some(size) => options(seed, size.bytes(), held_bytes(db.saturating_add(log))),
        None => Options::new(seed),
    };
    match Connection::open_files(alloc, files, chosen) {
        Ok(connection) => Ok(connection),
        Err((error, left)) => Err((error, left.into_files())),
    }
}

/// Opens the database in files: in empty ones, and in those that a stop left half made, it makes one with pages of
/// 2,048 bytes. The files come back where it can't be opened. The seed is a random number.
pub fn open_files<D: Disk + Drop>(
    alloc: Global,
    mut files: Files<D>,
    seed: u64,
) -> Result<Connection<FileStore<D>>, (Error, Files<D>)>
    requires log { IsTrue (D.Disk.is_usable files.log) }
    requires db { IsTrue (D.Disk.is_usable files.db) }
{
    let before = files.tally();
    let size = PageSize::new(PAGE_BYTES).unwrap();
    let opened = match probe_blank(alloc, &mut files, size, false) {
        Ok(true) => make(alloc, files, size, seed),
        Ok(false) => open_made(alloc, files, seed),
        Err(error) => Err((probe_error(error), files)),
    };
    match opened {
        Ok(connection) => Ok(connection),
        Err((error, files)) => {
            let now = files.tally();
            Err((named(error, before, now), files))
        }
    }
}

/// The files at a path, which are made where they aren't there.
fn files_at<S: Start>(rt: &HostRuntime, path: &str, start: S) -> Result<Files<FileFrom<S>>, Error>
    ensures log { IfOk result (λ files. IsTrue (file_is_usable S.Start files.log)) }
    ensures db { IfOk result (λ files. IsTrue (file_is_usable S.Start files.db)) }
{
    if path == ":memory:" || path.starts_with("file:") {
        return Err(CANNOT_OPEN);
    }
    match sqlite_std_file::open(rt, path, start) {
        Ok(files) => Ok(files),
        Err(PathError::OutOfMemory) => Err(NO_MEMORY),
        Err(PathError::Busy) => Err(Error::SqliteFailure(ErrorCode::DatabaseBusy)),
        Err(PathError::Io(error)) if error.kind() == ErrorKind::OutOfMemory => Err(NO_MEMORY),
        Err(_) => Err(CANNOT_OPEN),
    }
}

/// Opens the database at a path as `open_file` does. Where it can't be opened, the log that this made is removed.
pub(crate) fn open_beside(
    rt: &HostRuntime,
    path: &str,
    log: &NewLog,
) -> Result<Connection<FileStore<File>>, Error> {
    let seed = match RandomState::new(rt) {
        Ok(state) => state.hash_one(&0u8),
        Err(_) => return Err(CANNOT_OPEN),
    };
    let files = files_at(rt, path, Unknown)?;
    match open_files(rt.alloc(), files, seed) {
        Ok(connection) => Ok(connection),
        Err((error, files)) => {
            log.remove(rt);
            drop(files);
            Err(error)
        }
    }
}

/// Opens the database at a path, and makes it where there is no file or an empty one, with pages of 2,048 bytes. One
/// connection at a time has a file. One that can't be opened has no log beside it that wasn't there, unless the log has
/// pages.
pub fn open_file(rt: &HostRuntime, path: &str) -> Result<Connection<FileStore<File>>, Error> {
    open_beside(rt, path, &NewLog::beside(rt, path))
}
