//! Links in memory.

ghost use Rattle.std.specs.Prelude.{◌≡◌, ◌≢◌, ◌⊎◌, ◌↔◌, ◌≤◌, Some, None, IfOk, IsErr, IsTrue, MatchBool, length};
ghost use Rattle.std.specs.Prelude.{option_copied, if◌then◌else◌};
ghost use Rattle.ss_outside.specs.Causes.{RisesOnErr, RisesOnRefusal};
ghost use Rattle.ss_outside.specs.Told.{EndsAt, HasRead, HasWritten, bytes_accepted, bytes_received};
ghost use Rattle.ss_outside.specs.Plans.{fresh_plan, is_failing, after_call};
ghost use Rattle.ss_outside.specs.Memory.{behind, filled_pieces, read_size, with_piece};
ghost use Rattle.ss_links.specs.Links.{closed_link, fresh_link, link_tells};

use crate::link::Closable;
use ss_outside::{
    Faults, Never, Numbered, ReadFault, Sink, Source, SureSink, SureSource, Told, WriteFault,
};
use std::alloc::{AllocError, Global};
use std::marker::Model;

/// Bytes in pieces that come from it, and what was written to it, which is told as long as it fits the room. A read takes
/// at most the rest of one piece, and a write takes its piece whole.
#[derive(Drop, Debug)]
pub struct LinkUnder<F: Faults + Drop> {
    source: SureSource,
    sink: SureSink,
    plan: F,
    read_faults: u64,
    write_faults: u64,
    is_closed: bool,
}

impl<F: Faults + Drop> Model for LinkUnder<F> {
    ghost use Rattle.std.specs.Prelude.{◌≡◌, None};
    ghost use Rattle.ss_links.specs.Links.{Link, counted_faults};

    ghost Value = { Link };

    ghost view = { λ l. record {
      source = l.source;
      sink = l.sink;
      plan = F.Faults.plan l.plan;
      read_faults = l.read_faults;
      write_faults = l.write_faults;
      is_closed = l.is_closed;
    } };

    ghost invariant = { λ l. (l.source.plan ≡ None) × (l.sink.plan ≡ None)
        × (counted_faults (F.Faults.plan l.plan) l.read_faults ≡ l.read_faults) × (counted_faults (F.Faults.plan l.plan) l.write_faults ≡ l.write_faults) };
}

/// A link in memory, some of whose reads and writes fail.
pub type MemLink = LinkUnder<Numbered>;

/// A link in memory that never fails.
pub type SureLink = LinkUnder<Never>;

impl LinkUnder<Numbered> {
    /// A link from which these pieces come, with the memory for `room` written bytes. The calls with the numbers `failing`
    /// fail, reads and writes counted together, from 1.
    pub fn new(
        alloc: Global,
        pieces: Vec<Vec<u8>>,
        room: usize,
        failing: Vec<u64>,
    ) -> Result<MemLink, AllocError>
        ensures { IfOk result (λ link. link ≡ fresh_link pieces.items room (Some (fresh_plan failing.items))) }
    {
        Ok(LinkUnder {
            source: SureSource::new(pieces),
            sink: SureSink::new(alloc, room)?,
            plan: Numbered::new(failing),
            read_faults: 0,
            write_faults: 0,
            is_closed: false,
        })
    }
}

impl LinkUnder<Never> {
    /// A link from which these pieces come, with the memory for `room` written bytes.
    pub fn new(alloc: Global, pieces: Vec<Vec<u8>>, room: usize) -> Result<SureLink, AllocError>
        ensures { IfOk result (λ link. link ≡ fresh_link pieces.items room None) }
    {
        Ok(LinkUnder {
            source: SureSource::new(pieces),
            sink: SureSink::new(alloc, room)?,
            plan: Never,
            read_faults: 0,
            write_faults: 0,
            is_closed: false,
        })
    }
}

impl<F: Faults + Drop> LinkUnder<F> {
    /// What was written, where it is told.
    pub fn written(&self) -> Option<&[u8]>
        ensures { option_copied result ≡ self.now.sink.written }
    {
        self.sink.written()
    }

    /// Whether a read or a write failed.
    pub fn has_failed(&self) -> bool
        ensures { IsTrue result ↔ (((link_tells self.now).read_faults ≢ 0) ⊎ ((link_tells self.now).write_faults ≢ 0)) }
    {
        self.read_faults != 0 || self.write_faults != 0
    }

    /// Whether it was closed.
    pub fn is_closed(&self) -> bool
        ensures { result ≡ self.now.is_closed }
    {
        self.is_closed
    }
}

impl<F: Faults + Drop> Told for LinkUnder<F> {
    ghost told = { link_tells };
}

impl<F: Faults + Drop> Source for LinkUnder<F> {
    fn read(&mut self, into: &mut [u8]) -> Result<usize, ReadFault>
        ensures room { length into.new ≡ length into.old }
        ensures bound { IfOk result (λ count. count ≤ length into.new) }
        ensures bytes { HasRead (bytes_received result into.new) (link_tells self.old) (link_tells self.new) }
        ensures ended { EndsAt result (length into.old) (link_tells self.old) }
        ensures cause { RisesOnErr (link_tells self.old).read_faults (link_tells self.new).read_faults result }
        ensures answer { MatchBool (is_failing self.old.plan) (IsErr result) (result ≡ Ok (read_size (length into.old) self.old.source.pieces)) }
        ensures pieces { self.new.source.pieces ≡ (if is_failing self.old.plan then self.old.source.pieces
            else filled_pieces (behind (read_size (length into.old) self.old.source.pieces) self.old.source.pieces)) }
        ensures sink { self.new.sink ≡ self.old.sink }
        ensures plan { self.new.plan ≡ after_call self.old.plan }
        ensures closed { self.new.is_closed ≡ self.old.is_closed }
    {
        if self.plan.fails() {
            self.read_faults = self.read_faults.saturating_add(1);
            return Err(ReadFault);
        }
        self.source.read(into)
    }
}

impl<F: Faults + Drop> Sink for LinkUnder<F> {
    fn write(&mut self, from: &[u8]) -> Result<usize, WriteFault>
        ensures bound { IfOk result (λ count. count ≤ length from.now) }
        ensures bytes { HasWritten (bytes_accepted result from.now) (link_tells self.old) (link_tells self.new) }
        ensures cause { RisesOnRefusal (length from.now) (link_tells self.old).write_faults (link_tells self.new).write_faults result }
        ensures answer { MatchBool (is_failing self.old.plan) (IsErr result) (result ≡ Ok (length from.now)) }
        ensures written { self.new.sink.written ≡ (if is_failing self.old.plan then self.old.sink.written else with_piece self.old.sink.room self.old.sink.written from.now) }
        ensures room { self.new.sink.room ≡ self.old.sink.room }
        ensures source { self.new.source ≡ self.old.source }
        ensures plan { self.new.plan ≡ after_call self.old.plan }
        ensures closed { self.new.is_closed ≡ self.old.is_closed }
    {
        if self.plan.fails() {
            self.write_faults = self.write_faults.saturating_add(1);
            return Err(WriteFault);
        }
        self.sink.write(from)
    }
}

impl<F: Faults + Drop> Closable for LinkUnder<F> {
    ghost closed = { λ link. link.is_closed };

    fn close(&mut self)
        ensures told { link_tells self.new ≡ link_tells self.old }
        ensures closed { IsTrue self.new.is_closed }
        ensures rest { self.new ≡ closed_link self.old }
    {
        self.is_closed = true;
    }

    fn is_dismissed(&self) -> bool {
        false
    }
}
