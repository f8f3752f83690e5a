//! The remote rows behind a device's file.

ghost use Rattle.std.specs.Prelude.{◌≡◌, ◌≢◌, ◌==◌, ◌<◌, ◌^◌, ◌∷◌, ◌++◌, ℕ, List, [], IfOk, IfErr, IfSome, OnOk};
ghost use Rattle.std.specs.Prelude.{MatchOption, Some, IsTrue, IsFalse, codes, option_and_then, position};
ghost use Rattle.ss_device.specs.Device.{AreById, row_ids};
ghost use Rattle.ss_record.specs.declared.readings.Sheet.{Sheet as SheetView};
ghost use Rattle.ss_device.specs.Writing.{end_line};
ghost use Rattle.ss_device_file.specs.Files.{row_in};
ghost use Rattle.ss_run_edit.specs.Remotes.{ReadsRemotes, IsNextRemote, IsRow, IsStuckBy, Stops, remote_line};

use crate::endings::Ending;
use ss_device_file::{Line, read_line};
use ss_record::Sheet;
use std::alloc::{AllocError, Global};

/// How the line of a remote row begins, and that of a row in a device's file; what comes behind is the same.
const REMOTE: &[u8] = b"[\"remote\",\"";

const ROW: &[u8] = b"[\"row\",\"";

/// The last line.
const END: &[u8] = b"[\"end\"]\n";

/// Remote rows at the front of a text, and how many bytes they are with the end behind them.
#[derive(Drop)]
pub(crate) struct Remotes {
    pub(crate) rows: Vec<Sheet>,
    pub(crate) used: usize,
}

/// What comes next, and how many bytes it is.
#[derive(Drop)]
enum Found {
    Row { row: Sheet, long: usize },
    End { long: usize },
}

/// The place of the first byte that is this one.
fn place_of(text: &[u8], byte: u8) -> Option<usize>
    ensures { result ≡ position (λ b. b == byte) text.now }
{
    text.iter().position(|b| *b == byte)
}

/// What a text is in which the tag of a remote row was put for that of a row.
fn as_row(alloc: Global, back: &[u8]) -> Result<Vec<u8>, AllocError>
    ensures { IfOk result (λ line. line.items ≡ codes "[\"row\",\"" ++ back.now) }
{
    let mut line = Vec::with_capacity(alloc, back.len() + ROW.len())?;
    line.extend_from_slice(ROW)?;
    line.extend_from_slice(back)?;
    Ok(line)
}

/// What stands in a line behind the tag of a remote row.
fn behind_tag(line: &[u8]) -> Option<&[u8]>
    ensures { MatchOption result ((back : List ℕ) → line.now ≢ codes "[\"remote\",\"" ++ back) (λ back. line.now
        ≡ codes "[\"remote\",\"" ++ back.now) }
{
    line.strip_prefix(REMOTE)
}

/// The row of a line that a device's file may have.
fn row_of(line: Option<Line>) -> Option<Sheet>
    ensures { result ≡ option_and_then row_in line }
{
    match line {
        Some(Line::Row(row)) => Some(row),
        _ => None,
    }
}

/// Reads the line of a remote row, its newline included; None exactly where it is none.
fn read_remote(alloc: Global, line: &[u8]) -> Result<Option<Sheet>, AllocError>
    ensures is { IfOk result (λ o. IfSome o (λ r. IsRow r × (remote_line r ≡ line.now))) }
    ensures all { IfOk result (λ o. (r : SheetView) → IsRow r → remote_line r ≡ line.now → o ≡ Some r) }
{
    let Some(back) = behind_tag(line) else {
        return Ok(None);
    };
    let row = as_row(alloc, back)?;
    Ok(row_of(read_line(alloc, &row)?))
}

/// Whether a row may come behind rows that stand by id.
fn comes_after(rows: &[Sheet], row: &Sheet) -> bool
    requires { AreById (row_ids rows.now) }
    ensures yes { IsTrue result → AreById (row_ids (rows.now ++ row.now ∷ [])) }
    ensures no { IsFalse result → AreById (row_ids (rows.now ++ row.now ∷ [])) → ⊥ }
{
    match rows.last() {
        Some(last) => last.id < row.id,
        None => true,
    }
}

/// Whether a line is the last one.
#[tactic(auto, unfolding(ss_device::specs::Writing::end_line))]
fn is_end(line: &[u8]) -> bool
    ensures yes { IsTrue result → line.now ≡ end_line }
    ensures no { IsFalse result → line.now ≢ end_line }
{
    line == END
}

/// The row or the end with which a text goes on, up to its first newline. `line` is the number of this line.
fn next_found(alloc: Global, rows: &[Sheet], rest: &[u8], line: u64) -> Result<Found, Ending>
    requires { AreById (row_ids rows.now) }
    ensures found { IfOk result (λ found. IsNextRemote rows.now rest.now found) }
    ensures stuck { IfErr result (λ ending. IsStuckBy rows.now rest.now line ending) }
{
    let Some(end) = place_of(rest, b'\n') else {
        return Err(Ending::Cut { line });
    };
    let long = end + 1;
    if is_end(&rest[..long]) {
        return Ok(Found::End { long });
    }
    match read_remote(alloc, &rest[..long])? {
        Some(row) if comes_after(rows, &row) => Ok(Found::Row { row, long }),
        _ => Err(Ending::BadLine { line }),
    }
}

/// Puts a row last.
fn keep(rows: &mut Vec<Sheet>, row: Sheet) -> Result<(), AllocError>
    ensures { OnOk result (rows.new.items ≡ rows.old.items ++ row ∷ []) }
{
    rows.push(row)?;
    Ok(())
}

/// Reads the remote rows at the front of a text, up to their end, behind so many lines.
pub(crate) fn read_remotes(alloc: Global, text: &[u8], before: usize) -> Result<Remotes, Ending>
    requires { before < 2 ^ 62 }
    ensures read { IfOk result (λ r. ReadsRemotes text.now r.rows.items r.used) }
    ensures stuck { IfErr result (λ ending. Stops text.now before ending) }
{
    let mut rows = Vec::new(alloc);
    let mut used = 0;
    'rows: loop {
        let line = (before + rows.len() + 1) as u64;
        match next_found(alloc, &rows, &text[used..], line) {
            Ok(Found::Row { row, long }) => match keep(&mut rows, row) {
                Ok(()) => used += long,
                Err(_) => return Err(Ending::Memory),
            },
            Ok(Found::End { long }) => {
                used += long;
                return Ok(Remotes { rows, used });
            }
            Err(ending) => return Err(ending),
        }
    }
}
