//! A source in memory.

ghost use Rattle.std.specs.Prelude.{◌≡◌, ◌≤◌, [], None, Some, IfOk, IsErr, MatchBool, length, map, if◌then◌else◌};
ghost use Rattle.ss_outside.specs.Causes.{RisesOnErr};
ghost use Rattle.ss_outside.specs.Told.{EndsAt, HasRead, bytes_received};
ghost use Rattle.ss_outside.specs.Plans.{fresh_plan, is_failing, after_call};
ghost use Rattle.ss_outside.specs.Memory.{bytes_of_pieces, filled_pieces, behind, read_size, source_tells};

use crate::faults::{Faults, Never, Numbered};
use crate::source::{ReadFault, Source};
use crate::told::Told;
use std::marker::Model;

/// Bytes in pieces; a read takes at most the rest of one piece, and passes over empty ones.
#[derive(Drop, Debug)]
pub struct SourceUnder<F: Faults + Drop> {
    pieces: Vec<Vec<u8>>,
    piece: usize,
    at: usize,
    plan: F,
}

impl<F: Faults + Drop> Model for SourceUnder<F> {
    ghost use Rattle.std.specs.Prelude.{◌++◌, ◌≤◌, take, drop, length, map, None, Some};
    ghost use Rattle.ss_outside.specs.Memory.{Pieces, bytes_of_pieces, filled_pieces, behind};

    ghost Value = { Pieces };

    ghost view = { λ s. record {
      taken = bytes_of_pieces (take s.piece s.pieces.items) ++ take s.at (bytes_of_pieces (drop s.piece s.pieces.items));
      pieces = filled_pieces (behind s.at (map (λ piece. piece.items) (drop s.piece s.pieces.items)));
      plan = F.Faults.plan s.plan;
    } };

    ghost invariant = { λ s. s.at ≤ length (bytes_of_pieces (take 1 (drop s.piece s.pieces.items))) };
}

/// A source in memory, some of whose reads fail.
pub type MemSource = SourceUnder<Numbered>;

/// A source in memory that never fails.
pub type SureSource = SourceUnder<Never>;

impl SourceUnder<Numbered> {
    /// A source of these pieces; the reads with the numbers `failing` fail, counted from 1.
    pub fn new(pieces: Vec<Vec<u8>>, failing: Vec<u64>) -> MemSource
        ensures value { result ≡ record { taken = []; pieces = filled_pieces (map (λ piece. piece.items) pieces.items); plan = Some (fresh_plan failing.items) } }
        ensures told { source_tells result ≡ record { taken = Some []; left = Some (bytes_of_pieces pieces.items); read_faults = 0; written = None; write_faults = 0 } }
    {
        SourceUnder {
            pieces,
            piece: 0,
            at: 0,
            plan: Numbered::new(failing),
        }
    }
}

impl SourceUnder<Never> {
    /// A source of these pieces.
    pub fn new(pieces: Vec<Vec<u8>>) -> SureSource
        ensures value { result ≡ record { taken = []; pieces = filled_pieces (map (λ piece. piece.items) pieces.items); plan = None } }
        ensures told { source_tells result ≡ record { taken = Some []; left = Some (bytes_of_pieces pieces.items); read_faults = 0; written = None; write_faults = 0 } }
    {
        SourceUnder {
            pieces,
            piece: 0,
            at: 0,
            plan: Never,
        }
    }
}

impl<F: Faults + Drop> Told for SourceUnder<F> {
    ghost told = { source_tells };
}

impl<F: Faults + Drop> Source for SourceUnder<F> {
    fn read(&mut self, into: &mut [u8]) -> Result<usize, ReadFault>
        ensures room { length into.new ≡ length into.old }
        ensures bound { IfOk result (λ count. count ≤ length into.new) }
        ensures bytes { HasRead (bytes_received result into.new) (source_tells self.old) (source_tells self.new) }
        ensures ended { EndsAt result (length into.old) (source_tells self.old) }
        ensures cause { RisesOnErr (source_tells self.old).read_faults (source_tells self.new).read_faults result }
        ensures answer { MatchBool (is_failing self.old.plan) (IsErr result) (result ≡ Ok (read_size (length into.old) self.old.pieces)) }
        ensures pieces { self.new.pieces ≡ (if is_failing self.old.plan then self.old.pieces
            else filled_pieces (behind (read_size (length into.old) self.old.pieces) self.old.pieces)) }
        ensures plan { self.new.plan ≡ after_call self.old.plan }
    {
        if self.plan.fails() {
            return Err(ReadFault);
        }
        'pieces: while self.piece < self.pieces.len() {
            let piece = self.pieces[self.piece].as_slice();
            if self.at < piece.len() {
                let count = into.len().min(piece.len() - self.at);
                into[..count].copy_from_slice(&piece[self.at..self.at + count]);
                self.at += count;
                return Ok(count);
            }
            self.piece += 1;
            self.at = 0;
        }
        Ok(0)
    }
}
