//! A sink in memory.

ghost use Rattle.std.specs.Prelude.{◌≡◌, ◌≤◌, [], Some, None, IfOk, IsErr, MatchBool, length, option_copied};
ghost use Rattle.std.specs.Prelude.{if◌then◌else◌};
ghost use Rattle.ss_outside.specs.Causes.{RisesOnRefusal};
ghost use Rattle.ss_outside.specs.Told.{HasWritten, bytes_accepted};
ghost use Rattle.ss_outside.specs.Plans.{fresh_plan, is_failing, after_call};
ghost use Rattle.ss_outside.specs.Memory.{sink_tells, with_piece};

use crate::faults::{Faults, Never, Numbered};
use crate::sink::{Sink, WriteFault};
use crate::told::Told;
use std::alloc::{AllocError, Global};
use std::marker::Model;

/// What was written, which is told as long as it fits the room. A write takes its piece whole.
#[derive(Drop, Debug)]
pub struct SinkUnder<F: Faults + Drop> {
    written: Vec<u8>,
    room: usize,
    is_told: bool,
    plan: F,
}

impl<F: Faults + Drop> Model for SinkUnder<F> {
    ghost use Rattle.std.specs.Prelude.{◌≤◌, length, None, Some, if◌then◌else◌, vec_capacity};
    ghost use Rattle.ss_outside.specs.Memory.{Room};

    ghost Value = { Room };

    ghost view = { λ s. record {
      written = if s.is_told then Some s.written.items else None;
      room = s.room;
      plan = F.Faults.plan s.plan;
    } };

    ghost invariant = { λ s. (length s.written.items ≤ s.room) × (s.room ≤ vec_capacity s.written) };
}

/// A sink in memory, some of whose writes fail.
pub type MemSink = SinkUnder<Numbered>;

/// A sink in memory that never fails.
pub type SureSink = SinkUnder<Never>;

impl SinkUnder<Numbered> {
    /// A sink with the memory for `room` bytes; the writes with the numbers `failing` fail, counted from 1.
    pub fn new(alloc: Global, room: usize, failing: Vec<u64>) -> Result<MemSink, AllocError>
        ensures { IfOk result (λ sink. sink ≡ record { written = Some []; room = room; plan = Some (fresh_plan failing.items) }) }
    {
        Ok(SinkUnder {
            written: Vec::with_capacity(alloc, room)?,
            room,
            is_told: true,
            plan: Numbered::new(failing),
        })
    }
}

impl SinkUnder<Never> {
    /// A sink with the memory for `room` bytes.
    pub fn new(alloc: Global, room: usize) -> Result<SureSink, AllocError>
        ensures { IfOk result (λ sink. sink ≡ record { written = Some []; room = room; plan = None }) }
    {
        Ok(SinkUnder {
            written: Vec::with_capacity(alloc, room)?,
            room,
            is_told: true,
            plan: Never,
        })
    }
}

impl<F: Faults + Drop> SinkUnder<F> {
    /// What was written, where it is told.
    pub fn written(&self) -> Option<&[u8]>
        ensures { option_copied result ≡ self.now.written }
    {
        if self.is_told {
            Some(self.written.as_slice())
        } else {
            None
        }
    }
}

impl<F: Faults + Drop> Told for SinkUnder<F> {
    ghost told = { sink_tells };
}

impl<F: Faults + Drop> Sink for SinkUnder<F> {
    fn write(&mut self, from: &[u8]) -> Result<usize, WriteFault>
        ensures bound { IfOk result (λ count. count ≤ length from.now) }
        ensures bytes { HasWritten (bytes_accepted result from.now) (sink_tells self.old) (sink_tells self.new) }
        ensures cause { RisesOnRefusal (length from.now) (sink_tells self.old).write_faults (sink_tells self.new).write_faults result }
        ensures answer { MatchBool (is_failing self.old.plan) (IsErr result) (result ≡ Ok (length from.now)) }
        ensures written { self.new.written ≡ (if is_failing self.old.plan then self.old.written else with_piece self.old.room self.old.written from.now) }
        ensures room { self.new.room ≡ self.old.room }
        ensures plan { self.new.plan ≡ after_call self.old.plan }
    {
        if self.plan.fails() {
            return Err(WriteFault);
        }
        if self.room - self.written.len() < from.len() {
            self.is_told = false;
        } else if self.written.extend_from_slice(from).is_err() {
            unreachable!();
        }
        Ok(from.len())
    }
}
