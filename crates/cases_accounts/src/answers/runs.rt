//! Runs over memory.

use crate::answers::cases::Case;
use anyhow::bail;
use serde_json::Value;
use ss_outside::{CountClock, MemSink, MemSource};
use ss_run_answer::run_offline;
use std::alloc::Global;

/// How many bytes the output tells.
const ROOM: usize = 65_536;

/// The status of a run of words over these, and what it wrote.
fn run_over(
    alloc: Global,
    words: &[String],
    input: &mut MemSource,
    output: &mut MemSink,
) -> anyhow::Result<(u8, String)> {
    let mut clock = CountClock::new(0);
    let ending = run_offline(alloc, words, input, output, &mut clock);
    let Some(written) = output.written() else {
        bail!("too much was written");
    };
    Ok((ending.status(), String::from_utf8_lossy(alloc, written)?))
}

/// The status of a run, and what it wrote.
fn run(alloc: Global, case: Case) -> anyhow::Result<(u8, String)> {
    let mut output = MemSink::new(alloc, ROOM, vec![in alloc; case.failing_write]?)?;
    let mut input = MemSource::new(case.pieces, vec![in alloc; case.failing_read]?);
    run_over(alloc, case.words.as_slice(), &mut input, &mut output)
}

/// What came of a run: its status, and what was written, as a JSON text.
pub fn run_line(alloc: Global, case: Case) -> anyhow::Result<String> {
    let (status, written) = run(alloc, case)?;
    let text = Value::String(written).to_string(alloc)?;
    Ok(format!(in alloc; "{status} {text}")?)
}
