//! The limits that the system sets to a server, which are told where an account may need more.

use libc::getrlimit;
use libc::types::rlimit;
use std::io::Eprint;

/// What getrlimit is asked for: the bytes that a file may have, and those of the process's address space.
const FILE_SIZE: i32 = 1;

const ADDRESS_SPACE: i32 = 9;

/// What an account may need at most, of its file and of memory, in bytes: 134,217,728 bytes of payloads, four batches
/// of 16,777,216 bytes, a response of all of it, and what they are wrapped in.
const MOST_OF_ACCOUNT: u64 = 512 * 1024 * 1024;

/// The limit of this process on a resource; None where there is none, or it can't be told.
fn limit_of(resource: i32) -> Option<u64> {
    let mut limit = rlimit {
        rlim_cur: u64::MAX,
        rlim_max: u64::MAX,
    };
    if getrlimit(resource, &mut limit) != 0 || limit.rlim_cur == u64::MAX {
        return None;
    }
    Some(limit.rlim_cur)
}

/// Says on standard error which limits are lower than what so many accounts may need.
pub fn tell_limits(rt: &impl Eprint, accounts: u64) {
    let needed = MOST_OF_ACCOUNT;
    if let Some(limit) = limit_of(FILE_SIZE) {
        if limit < needed {
            let _ = eprintln!(rt;
                "syncstore: ulimit -f is {limit} bytes, and a file may need {needed}: the system would end the server"
            );
        }
    }
    let needed = needed.saturating_mul(accounts);
    if let Some(limit) = limit_of(ADDRESS_SPACE) {
        if limit < needed {
            let _ = eprintln!(rt;
                "syncstore: ulimit -v is {limit} bytes, and memory may come to {needed}: requests would be refused"
            );
        }
    }
}
