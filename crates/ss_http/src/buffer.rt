//! The bytes between a source and its messages.

ghost use Rattle.std.specs.Prelude.{◌≡◌, ◌≤◌, ◌<◌, ◌+◌, ◌-◌, slice_range, [], None, Some, length, drop, vec_capacity};
ghost use Rattle.std.specs.Prelude.{IfOk, OnErr};
ghost use Rattle.ss_http.specs.declared.limits.TheConstants.{ROOM};
ghost use Rattle.ss_outside.specs.Causes.{RisesOnErr};
ghost use Rattle.ss_outside.specs.Told.{EndsAt};
ghost use Rattle.ss_http.specs.Buffers.{KeptBytes, Brings, count_of};

use crate::fault::MsgFault;
use crate::limits::{FIRST_ROOM, ROOM};
use ss_outside::{ReadFault, Source};
use std::alloc::{AllocError, Global};
use std::marker::Model;

/// Bytes that were read and belong to no message yet, and why no message will come any more, if so.
#[derive(Drop)]
pub struct Buffer {
    // There is memory for `ROOM` of them. Of it `FIRST_ROOM` is touched at the first read, and more as messages need it.
    bytes: Vec<u8>,
    start: usize,
    end: usize,
    stop: Option<MsgFault>,
}

impl Model for Buffer {
    ghost use Rattle.std.specs.Prelude.{◌≤◌, slice_range, length, vec_capacity};
    ghost use Rattle.ss_http.specs.Buffers.{KeptBytes};
    ghost use Rattle.ss_http.specs.declared.limits.TheConstants.{ROOM};

    ghost Value = { KeptBytes };

    ghost view = { λ buffer. record { bytes = slice_range buffer.bytes.items buffer.start buffer.end; stop = buffer.stop } };

    ghost invariant = { λ buffer. (buffer.start ≤ buffer.end) × (buffer.end ≤ length buffer.bytes.items) × (length buffer.bytes.items ≤ ROOM)
        × (ROOM ≤ vec_capacity buffer.bytes) };
}

impl Buffer {
    /// An empty buffer with all the memory that it ever needs.
    pub fn new(alloc: Global) -> Result<Buffer, AllocError>
        ensures { IfOk result (λ buffer. buffer ≡ record { bytes = []; stop = None }) }
    {
        Ok(Buffer {
            bytes: Vec::with_capacity(alloc, ROOM)?,
            start: 0,
            end: 0,
            stop: None,
        })
    }

    /// The bytes that are kept.
    pub fn kept(&self) -> &[u8]
        ensures bytes { result.now ≡ self.now.bytes }
        ensures room { length result.now ≤ ROOM }
    {
        &self.bytes[self.start..self.end]
    }

    /// Why no message will come any more, if so.
    pub fn stop(&self) -> Option<MsgFault>
        ensures { result ≡ self.now.stop }
    {
        self.stop
    }

    /// Notes why no message will come any more.
    pub(crate) fn stop_at(&mut self, stop: MsgFault)
        ensures { self.new ≡ record { bytes = self.old.bytes; stop = Some stop } }
    {
        self.stop = Some(stop);
    }

    /// Lets the first bytes go.
    pub(crate) fn take(&mut self, count: usize)
        requires { count ≤ length self.old.bytes }
        ensures { self.new ≡ record { bytes = drop count self.old.bytes; stop = self.old.stop } }
    {
        self.start += count;
    }

    /// Reads more bytes. What is kept is moved only where the room behind it is used up: all of it then belongs to the
    /// message that is awaited, so a byte is moved at most once a message. To find room takes no memory.
    pub(crate) fn fill<S: Source>(&mut self, source: &mut S) -> Result<usize, ReadFault>
        requires { length self.old.bytes < ROOM }
        ensures stop { self.new.stop ≡ self.old.stop }
        ensures bytes { Brings self.old.bytes self.new.bytes (S.Told.told source.old) (S.Told.told source.new) }
        ensures count { IfOk result (λ count. length self.new.bytes ≡ length self.old.bytes + count) }
        ensures room { length self.new.bytes ≤ ROOM }
        ensures err { OnErr result (self.new.bytes ≡ self.old.bytes) }
        ensures ended { EndsAt result 1 (S.Told.told source.old) }
        ensures cause { RisesOnErr (S.Told.told source.old).read_faults (S.Told.told source.new).read_faults result }
    {
        let kept = self.end - self.start;
        widen(&mut self.bytes, self.start, self.end);
        self.start = pack(self.bytes.as_mut_slice(), self.start, self.end);
        self.end = self.start + kept;
        let count = read_behind(self.bytes.as_mut_slice(), self.start, self.end, source)?;
        self.end += count;
        Ok(count)
    }
}

/// Makes the bytes twice as many, up to `ROOM`, where no room is left behind those from `start` to `end` and these are
/// more than half of them. The bytes that a buffer begins with are its first.
fn widen(bytes: &mut Vec<u8>, start: usize, end: usize)
    requires ordered { start ≤ end }
    requires within { end ≤ length bytes.old.items }
    requires most { length bytes.old.items ≤ ROOM }
    requires capacity { ROOM ≤ vec_capacity bytes.old }
    ensures kept { slice_range bytes.new.items start end ≡ slice_range bytes.old.items start end }
    ensures within { end ≤ length bytes.new.items }
    ensures most { length bytes.new.items ≤ ROOM }
    ensures capacity { ROOM ≤ vec_capacity bytes.new }
    ensures room { end - start < ROOM → end - start < length bytes.new.items }
{
    let used_up = end == bytes.len();
    let few = 0 < start && end - start <= start;
    if used_up && !few {
        let wider = (bytes.len() * 2).clamp(FIRST_ROOM, ROOM);
        let _memory_is_there = bytes.resize(wider, 0);
    }
}

/// Moves the bytes from `start` to `end` to the front where no room is left behind them, and answers where they begin.
/// Where they fit before themselves, no other byte is moved.
fn pack(bytes: &mut [u8], start: usize, end: usize) -> usize
    requires ordered { start ≤ end }
    requires within { end ≤ length bytes.old }
    ensures kept { slice_range bytes.new result (result + (end - start)) ≡ slice_range bytes.old start end }
    ensures within { result + (end - start) ≤ length bytes.new }
    ensures room { end - start < length bytes.old → result + (end - start) < length bytes.new }
    ensures length { length bytes.new ≡ length bytes.old }
{
    if end < bytes.len() {
        return start;
    }
    let kept = end - start;
    if kept <= start {
        let (front, back) = bytes.split_at_mut(start);
        front[..kept].copy_from_slice(&back[..kept]);
    } else {
        bytes.rotate_left(start);
    }
    0
}

/// Reads to the bytes behind `end`.
fn read_behind<S: Source>(
    bytes: &mut [u8],
    start: usize,
    end: usize,
    source: &mut S,
) -> Result<usize, ReadFault>
    requires ordered { start ≤ end }
    requires within { end < length bytes.old }
    ensures kept { Brings (slice_range bytes.old start end) (slice_range bytes.new start (end + count_of result))
        (S.Told.told source.old) (S.Told.told source.new) }
    ensures within { end + count_of result ≤ length bytes.new }
    ensures length { length bytes.new ≡ length bytes.old }
    ensures err { OnErr result (slice_range bytes.new start end ≡ slice_range bytes.old start end) }
    ensures ended { EndsAt result 1 (S.Told.told source.old) }
    ensures cause { RisesOnErr (S.Told.told source.old).read_faults (S.Told.told source.new).read_faults result }
{
    source.read(&mut bytes[end..])
}
