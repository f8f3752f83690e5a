//! A log at the front of a text, which may go on behind it.

ghost use Rattle.std.specs.Prelude.{◌≡◌, IfOk, IfErr};
ghost use Rattle.ss_log_lines.specs.LogLines.{IsLogFront};
ghost use Rattle.ss_log_lines.specs.declared.lines.LogLine.TheVariants.{Log as LogOf};
ghost use Rattle.ss_logs.specs.Fronts.{IsFrontFault, IsFrontLog};
ghost use Rattle.ss_logs.specs.Logs.{account_at};

use crate::calls::front_calls;
use crate::faults::LogFault;
use crate::logs::Log;
use ss_bso::{Kept, Plain};
use ss_dump::{DumpFront, LineFault, front_dump};
use ss_log_lines::{LogLine, next_log_line};
use ss_text::Stamp;
use std::alloc::Global;

/// The log at the front of a text, how many bytes it is, and how many lines.
#[derive(Drop)]
pub(crate) struct LogFront {
    pub(crate) log: Log,
    pub(crate) used: usize,
    pub(crate) lines: u64,
}

/// The account of this moment of which this is kept.
fn account_at(moment: Stamp, kept: Kept) -> Plain
    ensures { result ≡ account_at moment kept }
{
    Plain {
        rows: kept.rows,
        collections: kept.collections,
        store: kept.store,
        last_delete: kept.last_delete,
        moment,
        counter: kept.counter,
        batches: kept.batches,
    }
}

/// Reads what stands behind the line with which a log begins, which is so many bytes.
fn log_behind(
    alloc: Global,
    bytes: &[u8],
    moment: Stamp,
    most: u32,
    head: usize,
) -> Result<LogFront, LogFault>
    requires { IsLogFront bytes.now (LogOf moment most) head }
    ensures front { IfOk result (λ front. IsFrontLog bytes.now front.log front.used front.lines) }
    ensures bad { IfErr result (λ fault. IsFrontFault bytes.now fault) }
{
    let opening = match front_dump(alloc, &bytes[head..]) {
        Ok(opening) => opening,
        Err(LineFault::BadLine { n }) => return Err(LogFault::BadLine { n: n + 1 }),
        Err(LineFault::Memory) => return Err(LogFault::Memory),
    };
    let DumpFront { kept, used, lines } = opening;
    let before = head + used;
    let calls = match front_calls(alloc, &bytes[before..]) {
        Ok(calls) => calls,
        Err(LogFault::BadLine { n }) => return Err(LogFault::BadLine { n: lines + 1 + n }),
        Err(LogFault::Memory) => return Err(LogFault::Memory),
    };
    let entries = calls.entries.len() as u64;
    Ok(LogFront {
        log: Log {
            opening: account_at(moment, kept),
            most,
            entries: calls.entries,
        },
        used: before + calls.used,
        lines: lines + entries + 2,
    })
}

/// Reads the log at the front of a text, in place; the text may go on behind it.
pub(crate) fn front_log(alloc: Global, bytes: &[u8]) -> Result<LogFront, LogFault>
    ensures front { IfOk result (λ front. IsFrontLog bytes.now front.log front.used front.lines) }
    ensures bad { IfErr result (λ fault. IsFrontFault bytes.now fault) }
{
    let Some(front) = next_log_line(alloc, bytes)? else {
        return Err(LogFault::BadLine { n: 1 });
    };
    let LogLine::Log { moment, most } = &front.line else {
        return Err(LogFault::BadLine { n: 1 });
    };
    log_behind(alloc, bytes, *moment, *most, front.used)
}
