//! Reading a text line by line, in place.

ghost use Rattle.std.specs.Prelude.{◌≡◌, ◌<◌, ◌≤◌, true, if◌then◌else◌, length, take, IfOk, IfErr};
ghost use Rattle.ss_dump.specs.Dumps.{account_lines, text_of};
ghost use Rattle.ss_dump.specs.Stages.{Comes, IsLineFault, IsReadTo, IsStopBefore, IsStopOf, is_closed, is_digest_line};
ghost use Rattle.ss_dump.specs.Stages.{kept_in, stage_state};
ghost use Rattle.ss_dump.specs.Telling.{IsToldWith, is_whole, whole};

use crate::faults::LineFault;
use crate::telling::{Draft, Stage};
use ss_lines::{Digest, Line, next_line};
use std::alloc::Global;

/// How far a text was read, in bytes and in lines, and how many bytes are the lines of the account, where these are over.
#[derive(Drop)]
pub(crate) struct Reading {
    pub(crate) stage: Stage,
    pub(crate) used: usize,
    pub(crate) body: usize,
    pub(crate) count: u64,
}

/// What a text has told: an account, the digest that it states, and how many bytes stand before the digest.
#[derive(Drop)]
pub(crate) struct Told {
    pub(crate) draft: Draft,
    pub(crate) digest: Digest,
    pub(crate) body: usize,
}

fn is_digest_line(line: &Line) -> bool
    ensures { result ≡ is_digest_line line.now }
{
    matches!(line, Line::Digest(_))
}

/// How many bytes are the lines of the account, once this line has come behind so many bytes.
fn body_with(line: &Line, used: usize, body: usize) -> usize
    ensures { result ≡ (if is_digest_line line.now then used else body) }
{
    if is_digest_line(line) { used } else { body }
}

/// Reads the next line.
pub(crate) fn step(alloc: Global, bytes: &[u8], reading: Reading) -> Result<Reading, LineFault>
    requires { IsReadTo bytes.now (stage_state reading.stage) reading.used reading.body reading.count }
    ensures read { IfOk result (λ r. IsReadTo bytes.now (stage_state r.stage) r.used r.body r.count) }
    ensures nearer { IfOk result (λ r. reading.used < r.used) }
    ensures next { IfOk result (λ r. Comes (stage_state reading.stage) (stage_state r.stage)) }
    ensures end { IfOk result (λ r. is_whole (stage_state r.stage) ≡ is_closed (stage_state reading.stage)) }
    ensures bad { IfErr result (λ fault. IsStopOf bytes.now (stage_state reading.stage) fault) }
{
    let n = reading.count + 1;
    let Some(front) = next_line(alloc, &bytes[reading.used..])? else {
        return Err(LineFault::BadLine { n });
    };
    let used = reading.used + front.used;
    let body = body_with(&front.line, reading.used, reading.body);
    match reading.stage.next(alloc, front.line)? {
        Some(stage) => Ok(Reading {
            stage,
            used,
            body,
            count: n,
        }),
        None => Err(LineFault::BadLine { n }),
    }
}

/// Reads lines up to the digest's.
pub(crate) fn read_body(alloc: Global, bytes: &[u8]) -> Result<Reading, LineFault>
    ensures read { IfOk result (λ r. IsReadTo bytes.now (stage_state r.stage) r.used r.body r.count) }
    ensures closed { IfOk result (λ r. is_closed (stage_state r.stage) ≡ true) }
    ensures bad { IfErr result (λ fault. IsStopBefore bytes.now fault) }
{
    let mut reading = Reading {
        stage: Stage::Nothing,
        used: 0,
        body: 0,
        count: 0,
    };
    'lines: while !reading.stage.is_closed() {
        reading = step(alloc, bytes, reading)?;
    }
    Ok(reading)
}

/// What is told at the end.
pub(crate) fn at_end(stage: Stage, body: usize) -> Told
    requires { is_whole (stage_state stage) ≡ true }
    ensures told { stage_state stage ≡ whole (kept_in result.draft) result.digest }
    ensures body { result.body ≡ body }
{
    match stage {
        Stage::Whole(draft, digest) => Told {
            draft,
            digest,
            body,
        },
        _ => unreachable!(),
    }
}

/// Reads a text that tells an account, to its end.
pub(crate) fn read_told(alloc: Global, bytes: &[u8]) -> Result<Told, LineFault>
    ensures told { IfOk result (λ t. IsToldWith bytes.now (kept_in t.draft) t.digest) }
    ensures inside { IfOk result (λ t. t.body ≤ length bytes.now) }
    ensures body { IfOk result (λ t. take t.body bytes.now ≡ text_of (account_lines (kept_in t.draft))) }
    ensures bad { IfErr result (λ fault. IsLineFault bytes.now fault) }
{
    let closed = read_body(alloc, bytes)?;
    let reading = step(alloc, bytes, closed)?;
    if reading.used < bytes.len() {
        return Err(LineFault::BadLine {
            n: reading.count + 1,
        });
    }
    Ok(at_end(reading.stage, reading.body))
}
