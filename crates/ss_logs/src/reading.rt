//! What a text of logs tells.

ghost use Rattle.std.specs.Prelude.{◌≡◌, ◌<◌, IfOk, IfErr, length};
ghost use Rattle.ss_logs.specs.Fronts.{AreReadTo};
ghost use Rattle.ss_logs.specs.Logs.{AreLogs, IsWhyNoLogs};

use crate::faults::LogFault;
use crate::fronts::front_log;
use crate::logs::Log;
use std::alloc::Global;

/// The logs that were read, and how far the text was read, in bytes and in lines.
#[derive(Drop)]
struct Reading {
    logs: Vec<Log>,
    used: usize,
    lines: u64,
}

/// Reads the next log.
fn step(alloc: Global, bytes: &[u8], mut reading: Reading) -> Result<Reading, LogFault>
    requires read { AreReadTo bytes.now reading.logs.items reading.used reading.lines }
    requires more { reading.used < length bytes.now }
    ensures read { IfOk result (λ r. AreReadTo bytes.now r.logs.items r.used r.lines) }
    ensures nearer { IfOk result (λ r. reading.used < r.used) }
    ensures bad { IfErr result (λ fault. IsWhyNoLogs bytes.now fault) }
{
    match front_log(alloc, &bytes[reading.used..]) {
        Ok(front) => {
            reading.logs.push(front.log)?;
            reading.used += front.used;
            reading.lines += front.lines;
            Ok(reading)
        }
        Err(LogFault::BadLine { n }) => Err(LogFault::BadLine {
            n: reading.lines + n,
        }),
        Err(LogFault::Memory) => Err(LogFault::Memory),
    }
}

/// The logs that a text tells, one behind the other, to its end; the lists of their openings are in a dump's order. Exactly
/// the texts of logs are read, each as its logs; any other text is refused for its first line that isn't the next one of a
/// log. No opening need be valid, and a log may have more entries than it says that it might; but each request is within
/// the limits of one.
pub fn read_logs(alloc: Global, bytes: &[u8]) -> Result<Vec<Log>, LogFault>
    ensures logs { IfOk result (λ logs. AreLogs bytes.now logs.items) }
    ensures refused { IfErr result (λ fault. IsWhyNoLogs bytes.now fault) }
{
    let mut reading = Reading {
        logs: Vec::new(alloc),
        used: 0,
        lines: 0,
    };
    'logs: while reading.used < bytes.len() {
        reading = step(alloc, bytes, reading)?;
    }
    Ok(reading.logs)
}
