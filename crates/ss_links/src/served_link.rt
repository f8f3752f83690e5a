//! A link that a port over TCP gave: the trusted edge. It counts its faults, and tells no content.

ghost use Rattle.std.specs.Prelude.{◌≡◌, ◌≤◌, IfOk, IfSome, length};
ghost use Rattle.ss_outside.specs.Told.{counts_alone};
ghost use Rattle.ss_links.specs.Links.{idle_link};

use crate::link::Closable;
use crate::traffic::Traffic;
use crate::waiting::{SLICE_MILLIS, Transfer, is_quiet_for_long};
use ss_outside::{ReadFault, Sink, Source, Told, WriteFault};
use std::io;
use std::io::{ErrorKind, Read, Write};
use std::marker::Model;
use std::mem::replace;
use std::net::{Net, OpenStream, Shutdown};
use std::time::{Clock, Duration, Instant};

// How far a link has come with the workers.
#[derive(Clone, Copy, Debug)]
enum Phase {
    /// No worker has read it yet.
    Waiting,

    /// A worker has read it.
    Served,

    /// No worker has it any more, nor is to have it.
    Closed,
}

// What a link's client is to send.
#[derive(Clone, Copy, Debug)]
enum Awaited {
    /// A message, of which nothing was there until this moment, from this one on.
    Message { since: Instant },

    /// The rest of a message that has begun.
    Rest(Transfer),
}

impl Awaited {
    fn is_late(&self, now: Instant, is_pressed: bool) -> bool {
        match self {
            Awaited::Message { since } => is_quiet_for_long(*since, now, is_pressed),
            Awaited::Rest(message) => message.is_late(now, is_pressed),
        }
    }
}

/// A link that a port over TCP gave. It leaves its worker where its client is quiet or slow for longer than the rules
/// of waiting allow, which are stricter while others wait: between two messages it ends, and inside a message or a
/// response the read or the write fails. A write that takes its whole piece ends a response.
#[derive(Drop)]
pub struct ServedLink<'a, R: Net + Clock> {
    system: &'a R,
    traffic: &'a Traffic,
    // None once it was closed.
    stream: Option<R::Stream>,
    phase: Phase,
    is_dismissed: bool,
    awaited: Awaited,
    // The response of which a part waits to be taken.
    response: Option<Transfer>,
    read_faults: u64,
    write_faults: u64,
}

impl<'a, R: Net + Clock> Model for ServedLink<'a, R> {
    ghost use Rattle.std.specs.Prelude.{is_none};
    ghost use Rattle.ss_links.specs.Links.{Connection};

    ghost Value = { Connection };

    ghost view = { λ l. record {
      read_faults = l.read_faults;
      write_faults = l.write_faults;
      is_closed = is_none l.stream;
    } };
}

// Whether no more happened than that a slice of waiting passed.
fn has_only_waited(error: &io::Error) -> bool {
    matches!(
        error.kind(),
        ErrorKind::WouldBlock | ErrorKind::TimedOut | ErrorKind::Interrupted
    )
}

impl<'a, R: Net + Clock> ServedLink<'a, R> {
    /// A link over this stream, which waits for a worker from now on.
    pub(crate) fn new(
        system: &'a R,
        traffic: &'a Traffic,
        stream: R::Stream,
        now: Instant,
    ) -> ServedLink<'a, R>
        ensures { result ≡ idle_link }
    {
        traffic.give(system);
        ServedLink {
            system,
            traffic,
            stream: Some(stream),
            phase: Phase::Waiting,
            is_dismissed: false,
            awaited: Awaited::Message { since: now },
            response: None,
            read_faults: 0,
            write_faults: 0,
        }
    }

    // A worker reads for the first time: the link waits for none any more, and sends without delay.
    fn begin(&mut self) -> io::Result<()>
        ensures { self.new ≡ self.old }
    {
        self.phase = Phase::Served;
        self.traffic.serve();
        self.awaited = Awaited::Message {
            since: Instant::now(self.system)?,
        };
        let Some(stream) = &self.stream else {
            return Err(io::Error::from(ErrorKind::NotConnected));
        };
        let slice = Some(Duration::from_millis(SLICE_MILLIS));
        stream.set_read_timeout(slice)?;
        stream.set_write_timeout(slice)?;
        stream.set_nodelay(true)
    }

    // No worker has it any more, nor is it to have one.
    fn end(&mut self)
        ensures { self.new ≡ self.old }
    {
        match replace(&mut self.phase, Phase::Closed) {
            Phase::Waiting => self.traffic.turn_away(self.system),
            Phase::Served => self.traffic.let_go(self.system),
            Phase::Closed => {}
        }
    }

    // Reads within the rules. Ok(0) is the client's end, or where the link has to leave between two messages.
    fn read_in_time(&mut self, into: &mut [u8]) -> io::Result<usize>
        ensures room { length into.new ≡ length into.old }
        ensures bound { IfOk result (λ count. count ≤ length into.new) }
        ensures same { self.new ≡ self.old }
    {
        if matches!(self.phase, Phase::Waiting) {
            self.begin()?;
        }
        for _slice in 0..u64::MAX {
            let now = Instant::now(self.system)?;
            if self
                .awaited
                .is_late(now, self.traffic.is_pressed(self.system))
            {
                self.is_dismissed = true;
                return match self.awaited {
                    Awaited::Message { .. } => Ok(0),
                    Awaited::Rest(_) => Err(io::Error::from(ErrorKind::TimedOut)),
                };
            }
            if let Some(count) = self.read_slice(into)? {
                return Ok(count);
            }
        }
        Err(io::Error::from(ErrorKind::TimedOut))
    }

    // Reads what comes within a slice of waiting; None where nothing does.
    fn read_slice(&mut self, into: &mut [u8]) -> io::Result<Option<usize>>
        ensures room { length into.new ≡ length into.old }
        ensures bound { IfOk result (λ moved. IfSome moved (λ count. count ≤ length into.new)) }
        ensures same { self.new ≡ self.old }
    {
        let Some(stream) = &mut self.stream else {
            return Err(io::Error::from(ErrorKind::NotConnected));
        };
        match stream.read(into) {
            Ok(count) => {
                self.note_read(count)?;
                Ok(Some(count))
            }
            Err(error) if has_only_waited(&error) => Ok(None),
            Err(error) => Err(error),
        }
    }

    // So many bytes of a message came.
    fn note_read(&mut self, count: usize) -> io::Result<()>
        ensures { self.new ≡ self.old }
    {
        let now = Instant::now(self.system)?;
        let mut message = match self.awaited {
            Awaited::Message { .. } => Transfer::at(now),
            Awaited::Rest(message) => message,
        };
        message.add(count, now);
        self.awaited = Awaited::Rest(message);
        Ok(())
    }

    // Writes within the rules.
    fn write_in_time(&mut self, from: &[u8]) -> io::Result<usize>
        ensures bound { IfOk result (λ count. count ≤ length from.now) }
        ensures same { self.new ≡ self.old }
    {
        for _slice in 0..u64::MAX {
            if self.is_response_late()? {
                self.is_dismissed = true;
                return Err(io::Error::from(ErrorKind::TimedOut));
            }
            if let Some(count) = self.write_slice(from)? {
                return Ok(count);
            }
        }
        Err(io::Error::from(ErrorKind::TimedOut))
    }

    // Whether a response is taken so late or so slowly that the link has to leave.
    fn is_response_late(&self) -> io::Result<bool> {
        match self.response {
            Some(response) => {
                let now = Instant::now(self.system)?;
                Ok(response.is_late(now, self.traffic.is_pressed(self.system)))
            }
            None => Ok(false),
        }
    }

    // Writes what is taken of a response within a slice of waiting; None where nothing is.
    fn write_slice(&mut self, from: &[u8]) -> io::Result<Option<usize>>
        ensures bound { IfOk result (λ moved. IfSome moved (λ count. count ≤ length from.now)) }
        ensures same { self.new ≡ self.old }
    {
        let Some(stream) = &mut self.stream else {
            return Err(io::Error::from(ErrorKind::NotConnected));
        };
        match stream.write(from) {
            Ok(count) => {
                self.note_written(count, count == from.len())?;
                Ok(Some(count))
            }
            Err(error) if has_only_waited(&error) => {
                self.note_written(0, false)?;
                Ok(None)
            }
            Err(error) => Err(error),
        }
    }

    // So many bytes of a response were taken; where it is whole, the next message is awaited.
    fn note_written(&mut self, count: usize, is_whole: bool) -> io::Result<()>
        ensures { self.new ≡ self.old }
    {
        let now = Instant::now(self.system)?;
        if is_whole {
            self.response = None;
            self.awaited = Awaited::Message { since: now };
            return Ok(());
        }
        match &mut self.response {
            Some(response) => response.add(count, now),
            None => self.response = Some(Transfer::at(now)),
        }
        Ok(())
    }
}

impl<'a, R: Net + Clock> Told for ServedLink<'a, R> {
    ghost told = { λ link. counts_alone link.read_faults link.write_faults };
}

impl<'a, R: Net + Clock> Source for ServedLink<'a, R> {
    fn read(&mut self, into: &mut [u8]) -> Result<usize, ReadFault> {
        match self.read_in_time(into) {
            Ok(count) => Ok(count),
            Err(_) => {
                self.read_faults = self.read_faults.saturating_add(1);
                Err(ReadFault)
            }
        }
    }
}

impl<'a, R: Net + Clock> Sink for ServedLink<'a, R> {
    fn write(&mut self, from: &[u8]) -> Result<usize, WriteFault> {
        match self.write_in_time(from) {
            Ok(0) if !from.is_empty() => {
                self.write_faults = self.write_faults.saturating_add(1);
                Ok(0)
            }
            Ok(count) => Ok(count),
            Err(_) => {
                self.write_faults = self.write_faults.saturating_add(1);
                Err(WriteFault)
            }
        }
    }
}

impl<'a, R: Net + Clock> Closable for ServedLink<'a, R> {
    ghost closed = { λ link. link.is_closed };

    fn close(&mut self) {
        self.end();
        if let Some(stream) = &self.stream {
            let _ = stream.shutdown(Shutdown::Both);
        }
        self.stream = None;
    }

    fn is_dismissed(&self) -> bool {
        self.is_dismissed
    }
}
