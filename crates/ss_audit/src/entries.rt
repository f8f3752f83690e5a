//! The first entry of a log with which its tickets don't rise or its limits are passed.

ghost use Rattle.std.specs.Prelude.{◌≡◌, All, IfNone, IfSome, Option, nat_lt, true};
ghost use Rattle.std.specs.Option.{option_map_or};
ghost use Rattle.ss_bso.specs.declared.account.Plain.{Plain as PlainView};
ghost use Rattle.ss_bso.specs.Validity.{IsValid};
ghost use Rattle.ss_query.specs.Fit.{IsFitRequest};
ghost use Rattle.ss_audit.specs.Sound.{IsSoundLog};
ghost use Rattle.ss_audit.specs.Verdicts.{FailsAt, GoesOnFrom};

use crate::verdict::Why;
use ss_booked::{MOST_ENTRIES, MOST_JOURNAL_BYTES, bytes_of_request};
use ss_logs::Log;

/// Where a log isn't sound: at its opening, which is entry 0, or at an entry, counted from 1; and why.
#[derive(Clone, Copy)]
pub(crate) struct Fault {
    pub(crate) entry: u64,
    pub(crate) why: Why,
}

/// Whether a ticket is above the one before it, where there is one.
fn rises(last: Option<u64>, ticket: u64) -> bool
    ensures { result ≡ option_map_or (λ before. nat_lt before ticket) last true }
{
    match last {
        Some(before) => before < ticket,
        None => true,
    }
}

/// Where a log with a valid opening isn't sound among its entries.
pub(crate) fn fault_among_entries(log: &Log) -> Option<Fault>
    requires valid { IsValid log.now.opening }
    requires fits { All (λ entry. IsFitRequest entry.request) log.now.entries }
    ensures none { IfNone result (IsSoundLog log.now) }
    ensures some { (closing : Option PlainView) → GoesOnFrom closing log.now.opening
        → IfSome result (λ fault. FailsAt closing log.now fault.entry fault.why) }
{
    let most = log.most.min(MOST_ENTRIES) as u64;
    let mut last = None;
    let mut bytes: u64 = 0;
    let mut n: u64 = 0;
    for entry in log.entries() {
        n += 1;
        if !rises(last, entry.ticket) {
            return Some(Fault {
                entry: n,
                why: Why::Ticket,
            });
        }
        if n > most || bytes >= MOST_JOURNAL_BYTES {
            return Some(Fault {
                entry: n,
                why: Why::Limits,
            });
        }
        bytes += bytes_of_request(&entry.request);
        last = Some(entry.ticket);
    }
    None
}
