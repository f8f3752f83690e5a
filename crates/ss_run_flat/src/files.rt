//! The rows of a text, and what they come to.

ghost use Rattle.std.specs.Prelude.{◌≡◌, ◌==◌, IfOk, IfErr, position};
ghost use Rattle.ss_run_flat.specs.Files.{BeginsWithFile, IsNextFound, IsNoFile, IsStateOfFile, IsWhyNoRows, IsStuckBy};
ghost use Rattle.ss_run_flat.specs.Files.{found_in};

use crate::endings::Ending;
use crate::rows::see;
use ss_device_file::{Line, read_line};
use ss_flat::{Flat, FlatKind};
use ss_record::Sheet;
use std::alloc::Global;

/// What comes next, and how many bytes it is.
#[derive(Drop)]
enum Found {
    Row { row: Sheet, long: usize },
    End { long: usize },
}

/// The state of the rows up to the end, the number of that line, and how many bytes they are with it.
#[derive(Drop)]
struct Seen {
    flat: Flat,
    line: u64,
    used: usize,
}

/// The place of the first byte that is this one.
fn place_of(text: &[u8], byte: u8) -> Option<usize>
    ensures { result ≡ position (λ b. b == byte) text.now }
{
    text.iter().position(|b| *b == byte)
}

/// What a line of so many bytes is in a file of rows; None where it may not stand there.
fn found_in(line: Line, long: usize) -> Option<Found>
    ensures { result ≡ found_in long line }
{
    match line {
        Line::Row(row) => Some(Found::Row { row, long }),
        Line::End => Some(Found::End { long }),
        Line::Head(_) | Line::Synced(_) | Line::Item(_) | Line::Dead(_, _) => None,
    }
}

/// The row or the end with which a text goes on, up to its first newline. `number` is that of this line.
fn next_found(alloc: Global, rest: &[u8], number: u64) -> Result<Found, Ending>
    ensures found { IfOk result (λ found. IsNextFound rest.now found) }
    ensures stuck { IfErr result (λ ending. IsStuckBy rest.now number ending) }
{
    let Some(end) = place_of(rest, b'\n') else {
        return Err(Ending::Cut { line: number });
    };
    let long = end + 1;
    let Some(line) = read_line(alloc, &rest[..long])? else {
        return Err(Ending::BadLine { line: number });
    };
    match found_in(line, long) {
        Some(found) => Ok(found),
        None => Err(Ending::BadLine { line: number }),
    }
}

/// Sees the rows at the front of a text, up to their end.
fn see_rows(alloc: Global, kind: FlatKind, text: &[u8]) -> Result<Seen, Ending>
    ensures seen { IfOk result (λ seen. BeginsWithFile kind text.now seen) }
    ensures stopped { IfErr result (λ ending. IsWhyNoRows text.now ending) }
{
    let mut flat = Flat::new(alloc, kind);
    let mut line = 1;
    let mut used = 0;
    'rows: loop {
        match next_found(alloc, &text[used..], line) {
            Ok(Found::Row { row, long }) => match see(alloc, &mut flat, row) {
                Ok(()) => {
                    line += 1;
                    used += long;
                }
                Err(_) => return Err(Ending::Memory),
            },
            Ok(Found::End { long }) => {
                used += long;
                return Ok(Seen { flat, line, used });
            }
            Err(ending) => return Err(ending),
        }
    }
}

/// The state of the rows of a text.
pub fn state_of(alloc: Global, kind: FlatKind, text: &[u8]) -> Result<Flat, Ending>
    ensures state { IfOk result (λ flat. IsStateOfFile kind text.now flat) }
    ensures refused { IfErr result (λ ending. IsNoFile text.now ending) }
{
    let Seen { flat, line, used } = match see_rows(alloc, kind, text) {
        Ok(seen) => seen,
        Err(ending) => return Err(ending),
    };
    if used < text.len() {
        return Err(Ending::BadLine { line: line + 1 });
    }
    Ok(flat)
}
