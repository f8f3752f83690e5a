//! The audit of logs.

ghost use Rattle.std.specs.Prelude.{◌≡◌, ◌↔◌, All, IfOk, IfSome, IsTrue, MatchOption};
ghost use Rattle.std.specs.Option.{option_map_or};
ghost use Rattle.ss_bso.specs.Validity.{IsValid};
ghost use Rattle.ss_query.specs.Fit.{IsFitRequest};
ghost use Rattle.ss_audit.specs.Sound.{AreSound, IsSoundLog};
ghost use Rattle.ss_audit.specs.Verdicts.{FailsAt, GoesOnFrom, IsVerdict, is_yes};

use crate::entries::{Fault, fault_among_entries};
use crate::going_on::goes_on_from;
use crate::validity::is_valid;
use crate::verdict::{Verdict, Why};
use ss_bso::Plain;
use ss_logs::Log;
use ss_plain::closing;
use ss_text::Stamp;
use std::alloc::{AllocError, Global};

/// Where a log that begins from a valid closing isn't sound.
fn fault_in(alloc: Global, last: &Option<Plain>, log: &Log) -> Result<Option<Fault>, AllocError>
    requires valid { IfSome last.now IsValid }
    requires fits { All (λ entry. IsFitRequest entry.request) log.now.entries }
    ensures { IfOk result (λ found. MatchOption found
        (IsSoundLog log.now × GoesOnFrom last.now log.now.opening)
        (λ fault. FailsAt last.now log.now fault.entry fault.why)) }
{
    if !is_valid(alloc, &log.opening)? {
        return Ok(Some(Fault {
            entry: 0,
            why: Why::Opening,
        }));
    }
    if !goes_on_from(alloc, last, &log.opening)? {
        return Ok(Some(Fault {
            entry: 0,
            why: Why::Follows,
        }));
    }
    Ok(fault_among_entries(log))
}

/// The time of the last write to an account, and 0 where there is none.
fn store_of(account: &Option<Plain>) -> Stamp
    ensures { result ≡ option_map_or (λ account. account.store) account.now 0 }
{
    match account {
        Some(account) => account.store,
        None => Stamp::clamp(0),
    }
}

/// Whether logs are sound: each opening is a valid account; tickets rise strictly; no log has more entries than it may,
/// or than any journal, and none was entered where the journal was full by its bytes; and each opening after the first
/// goes on from the account that the entries before it leave by the one-account API. The verdict is yes exactly where
/// they are, and else names the first place, in order of logs, where they aren't: in a log first the opening's
/// validity, then that it goes on, then by entries the ticket before the limits. Requests are such as routing gives. The
/// closing of each log is computed once, over plain lists, in a time that grows with the account for each entry.
pub fn audit(alloc: Global, logs: &[Log]) -> Result<Verdict, AllocError>
    requires fits { All (λ log. All (λ entry. IsFitRequest entry.request) log.entries) logs.now }
    ensures verdict { IfOk result (λ verdict. IsVerdict logs.now verdict) }
    ensures yes { IfOk result (λ verdict. IsTrue (is_yes verdict) ↔ AreSound logs.now) }
{
    let mut last = None;
    let mut entries: u64 = 0;
    let mut n: u64 = 0;
    for log in logs {
        n += 1;
        if let Some(fault) = fault_in(alloc, &last, log)? {
            return Ok(Verdict::No {
                log: n,
                entry: fault.entry,
                why: fault.why,
            });
        }
        entries = entries.saturating_add(log.entries().len() as u64);
        last = Some(closing(alloc, log.opening.copy(alloc)?, log.entries())?);
    }
    let store = store_of(&last);
    Ok(Verdict::Yes {
        logs: n,
        entries,
        store,
    })
}
