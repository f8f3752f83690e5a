//! Links to a server in memory.

ghost use Rattle.std.specs.Prelude.{◌≡◌, ◌≢◌, ◌⊎◌, ◌↔◌, ◌≤◌, IsTrue, length};
ghost use Rattle.ss_outside.specs.Told.{counts_alone};

use ss_outside::{Faults, Numbered, ReadFault, Sink, Source, Told, WriteFault};
use std::alloc::Global;

/// The bytes of a response, and whether its link ends with it.
#[derive(Drop)]
pub struct Answer {
    pub bytes: Vec<u8>,
    pub last: bool,
}

/// What answers requests.
pub trait Answers {
    /// The response to the bytes of a request; None where there is none.
    fn answer(&mut self, alloc: Global, request: Vec<u8>) -> Option<Answer>;
}

/// The far end of links: a server, and which calls of links fail, reads and writes counted together, and writes by
/// themselves.
#[derive(Drop)]
pub struct Far<A: Answers + Drop> {
    pub server: A,
    pub calls: Numbered,
    pub writes: Numbered,
}

/// A link to a server, which is at its far end for as long as there is the link. It tells no bytes.
#[derive(Drop)]
pub struct Wire<A: Answers + Drop> {
    alloc: Global,
    far: Far<A>,
    // What was written since the last response was asked for.
    request: Vec<u8>,
    response: Vec<u8>,
    // How many bytes of the response were read.
    at: usize,
    is_over: bool,
    read_faults: u64,
    write_faults: u64,
}

impl<A: Answers + Drop> Wire<A> {
    pub fn new(alloc: Global, far: Far<A>) -> Wire<A>
        ensures reads { result.read_faults ≡ 0 }
        ensures writes { result.write_faults ≡ 0 }
    {
        Wire {
            alloc,
            far,
            request: Vec::new(alloc),
            response: Vec::new(alloc),
            at: 0,
            is_over: false,
            read_faults: 0,
            write_faults: 0,
        }
    }

    /// Whether a read or a write failed.
    pub fn has_failed(&self) -> bool
        ensures { IsTrue result ↔ ((self.now.read_faults ≢ 0) ⊎ (self.now.write_faults ≢ 0)) }
    {
        self.read_faults != 0 || self.write_faults != 0
    }

    pub fn into_far(self) -> Far<A> {
        let Wire {
            alloc: _,
            far,
            request,
            response,
            at: _,
            is_over: _,
            read_faults: _,
            write_faults: _,
        } = self;
        drop(request);
        drop(response);
        far
    }

    /// Has what was written answered, where all of the last response was read.
    fn ask(&mut self)
        ensures reads { self.new.read_faults ≡ self.old.read_faults }
        ensures writes { self.new.write_faults ≡ self.old.write_faults }
    {
        if self.is_over || self.request.is_empty() {
            return;
        }
        let request = std::mem::replace(&mut self.request, Vec::new(self.alloc));
        if let Some(answer) = self.far.server.answer(self.alloc, request) {
            let Answer { bytes, last } = answer;
            self.response = bytes;
            self.at = 0;
            self.is_over = last;
        }
    }

    /// Moves what is left of the response to a buffer, as much as it has room for.
    fn give(&mut self, into: &mut [u8]) -> usize
        ensures room { length into.new ≡ length into.old }
        ensures bound { result ≤ length into.new }
        ensures reads { self.new.read_faults ≡ self.old.read_faults }
        ensures writes { self.new.write_faults ≡ self.old.write_faults }
    {
        let bytes = self.response.as_slice();
        let left = bytes.get(self.at..).unwrap_or(&[]);
        let count = left.len().min(into.len());
        into[..count].copy_from_slice(&left[..count]);
        self.at = self.at.saturating_add(count);
        count
    }
}

impl<A: Answers + Drop> Told for Wire<A> {
    ghost told = { λ wire. counts_alone wire.read_faults wire.write_faults };
}

impl<A: Answers + Drop> Source for Wire<A> {
    fn read(&mut self, into: &mut [u8]) -> Result<usize, ReadFault> {
        if self.far.calls.fails() {
            self.read_faults = self.read_faults.saturating_add(1);
            return Err(ReadFault);
        }
        self.ask();
        Ok(self.give(into))
    }
}

impl<A: Answers + Drop> Sink for Wire<A> {
    fn write(&mut self, from: &[u8]) -> Result<usize, WriteFault> {
        let is_failing = self.far.writes.fails() || self.far.calls.fails();
        if is_failing || self.request.extend_from_slice(from).is_err() {
            self.write_faults = self.write_faults.saturating_add(1);
            return Err(WriteFault);
        }
        Ok(from.len())
    }
}
