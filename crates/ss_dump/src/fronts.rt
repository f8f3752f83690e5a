//! A dump at the front of a text, which may go on behind it.

ghost use Rattle.std.specs.Prelude.{◌≡◌, ◌≤◌, true, length, IfOk, IfErr};
ghost use Rattle.ss_dump.specs.Fronts.{IsDumpFront, IsFrontFault};
ghost use Rattle.ss_dump.specs.Stages.{IsReadTo, is_closed, stage_state};

use crate::faults::LineFault;
use crate::hashing::digest_of;
use crate::reading::{at_end, read_body, step};
use ss_bso::Kept;
use std::alloc::Global;

/// The dump at the front of a text: what it tells, how many bytes it is, and how many lines.
#[derive(Drop, Debug)]
pub struct DumpFront {
    pub kept: Kept,
    pub used: usize,
    pub lines: u64,
}

/// Reads the dump at the front of a text, in place, from which an account need not be opened; the text may go on behind it.
/// A text that doesn't begin with a dump is refused for its first line that isn't the next one of a dump, as a digest is
/// that isn't the one of the lines before it.
pub fn front_dump(alloc: Global, bytes: &[u8]) -> Result<DumpFront, LineFault>
    ensures front { IfOk result (λ front. IsDumpFront bytes.now front.kept front.used front.lines) }
    ensures bad { IfErr result (λ fault. IsFrontFault bytes.now fault) }
{
    let closed = read_body(alloc, bytes)?;
    let found = digest_of(alloc, &bytes[..closed.body])?;
    if !closed.stage.states(&found) {
        return Err(LineFault::BadLine { n: closed.count });
    }
    let whole = step(alloc, bytes, closed)?;
    let told = at_end(whole.stage, whole.body);
    Ok(DumpFront {
        kept: told.draft.into_kept(),
        used: whole.used,
        lines: whole.count,
    })
}
