//! The log that opening a file makes beside it, removed again where the file isn't taken and nothing stands in the log.

use std::fs;
use std::io::ErrorKind;

/// The bytes of a log's header and of the one before a page: a shorter log has no page (SQLite, "The WAL File Format").
const HEADER_BYTES: u64 = 56;

/// The path of the log that is to be made beside a file, where there is none.
#[derive(Drop)]
pub(crate) struct NewLog {
    path: Option<String>,
}

/// The path of a file's log, where the file is there and its log isn't. The log lies where a link leads.
fn path_to_come(rt: &HostRuntime, path: &str) -> Option<String> {
    let file = fs::canonicalize(rt, path).ok()?;
    let log = format!(in rt.alloc(); "{}-wal", file.as_str()).ok()?;
    match fs::symlink_metadata(rt, log.as_str()) {
        Err(error) if error.kind() == ErrorKind::NotFound => Some(log),
        _ => None,
    }
}

impl NewLog {
    /// What is to be removed beside the file at a path, which isn't opened yet.
    pub(crate) fn beside(rt: &HostRuntime, path: &str) -> NewLog {
        NewLog {
            path: path_to_come(rt, path),
        }
    }

    /// Removes the log, unless a page stands in it. The file is still locked.
    pub(crate) fn remove(&self, rt: &HostRuntime) {
        let Some(path) = &self.path else {
            return;
        };
        match fs::symlink_metadata(rt, path.as_str()) {
            Ok(found) if found.len() < HEADER_BYTES => {
                let _removed = fs::remove_file(rt, path.as_str()).is_ok();
            }
            _ => {}
        }
    }
}
