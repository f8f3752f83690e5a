//! A link of a client's over TCP: the trusted edge. It counts its faults, and tells no content.

ghost use Rattle.std.specs.Prelude.{◌≡◌, ◌≢◌, ◌⊎◌, ◌↔◌, ◌≤◌, IfOk, IsTrue, length};
ghost use Rattle.ss_outside.specs.Told.{counts_alone};
ghost use Rattle.ss_links.specs.Links.{idle_link};

use crate::link::Closable;
use crate::waiting::{Awaited, WAIT_SECONDS};
use libc::net::{POLLIN, POLLRDHUP, poll};
use libc::types::pollfd;
use ss_outside::{ReadFault, Sink, Source, Told, WriteFault};
use std::io;
use std::io::{ErrorKind, Read, Write};
use std::marker::Model;
use std::net::{Net, OpenStream, Shutdown, SocketAddr};
use std::os::fd::AsRawFd;
use std::time::{Clock, Duration};

/// A link of a client's over TCP. A read fails where the response isn't there in time, and a write where the request
/// isn't taken in time (`WAIT_SECONDS`). A write that takes its whole piece ends a request. Where the server has closed
/// the connection since the last response, it is dialled anew before a further request is written.
#[derive(Drop)]
pub struct TcpLink<'a, R: Net + Clock> {
    system: &'a R,
    address: SocketAddr,
    // None once it was closed.
    stream: Option<R::Stream>,
    response: Awaited,
    request: Option<Awaited>,
    // Whether bytes of a response were read since the last request.
    is_answered: bool,
    read_faults: u64,
    write_faults: u64,
}

impl<'a, R: Net + Clock> Model for TcpLink<'a, R> {
    ghost use Rattle.std.specs.Prelude.{is_none};
    ghost use Rattle.ss_links.specs.Links.{Connection};

    ghost Value = { Connection };

    ghost view = { λ l. record {
      read_faults = l.read_faults;
      write_faults = l.write_faults;
      is_closed = is_none l.stream;
    } };
}

/// A connection to this address, which sends without delay.
fn connect<R: Net>(system: &R, address: SocketAddr) -> io::Result<R::Stream> {
    let stream = system.connect_timeout(address, Duration::from_secs(WAIT_SECONDS))?;
    stream.set_nodelay(true)?;
    Ok(stream)
}

/// Whether something is there of a stream of which nothing is awaited, as its end is.
fn has_come<S: AsRawFd>(stream: &S) -> bool {
    let mut asked = [pollfd {
        fd: stream.as_raw_fd(),
        events: POLLIN | POLLRDHUP,
        revents: 0,
    }];
    poll(&mut asked, 0) > 0
}

impl<'a, R: Net + Clock> TcpLink<'a, R> {
    /// A link to this address. The host must answer within `WAIT_SECONDS`.
    pub(crate) fn dial(system: &'a R, address: SocketAddr) -> io::Result<TcpLink<'a, R>>
        ensures { IfOk result (λ link. link ≡ idle_link) }
    {
        Ok(TcpLink {
            system,
            address,
            stream: Some(connect(system, address)?),
            response: Awaited::from_now(system)?,
            request: None,
            is_answered: false,
            read_faults: 0,
            write_faults: 0,
        })
    }

    /// Whether a read or a write failed.
    pub(crate) fn has_failed(&self) -> bool
        ensures { IsTrue result ↔ ((self.now.read_faults ≢ 0) ⊎ (self.now.write_faults ≢ 0)) }
    {
        self.read_faults != 0 || self.write_faults != 0
    }

    fn read_in_time(&mut self, into: &mut [u8]) -> io::Result<usize>
        ensures room { length into.new ≡ length into.old }
        ensures bound { IfOk result (λ count. count ≤ length into.new) }
        ensures same { self.new ≡ self.old }
    {
        let Some(stream) = &mut self.stream else {
            return Err(io::Error::from(ErrorKind::NotConnected));
        };
        let Some(left) = self.response.time_left(self.system)? else {
            return Err(io::Error::from(ErrorKind::TimedOut));
        };
        stream.set_read_timeout(Some(left))?;
        self.is_answered = true;
        stream.read(into)
    }

    // Before a further request: where the server closed the connection meanwhile, another one takes its place.
    fn renew(&mut self) -> io::Result<()>
        ensures { self.new ≡ self.old }
    {
        if let Some(stream) = &mut self.stream {
            if self.is_answered && has_come(&*stream) {
                *stream = connect(self.system, self.address)?;
            }
        }
        self.is_answered = false;
        Ok(())
    }

    fn write_in_time(&mut self, from: &[u8]) -> io::Result<usize>
        ensures bound { IfOk result (λ count. count ≤ length from.now) }
        ensures same { self.new ≡ self.old }
    {
        self.renew()?;
        let Some(stream) = &mut self.stream else {
            return Err(io::Error::from(ErrorKind::NotConnected));
        };
        let request = match self.request {
            Some(request) => request,
            None => Awaited::from_now(self.system)?,
        };
        let left = request.time_left(self.system)?;
        self.request = Some(request);
        let Some(left) = left else {
            return Err(io::Error::from(ErrorKind::TimedOut));
        };
        stream.set_write_timeout(Some(left))?;
        let count = stream.write(from)?;
        if count == from.len() {
            self.request = None;
            if let Ok(next) = Awaited::from_now(self.system) {
                self.response = next;
            }
        }
        Ok(count)
    }
}

impl<'a, R: Net + Clock> Told for TcpLink<'a, R> {
    ghost told = { λ link. counts_alone link.read_faults link.write_faults };
}

impl<'a, R: Net + Clock> Source for TcpLink<'a, R> {
    fn read(&mut self, into: &mut [u8]) -> Result<usize, ReadFault> {
        match self.read_in_time(into) {
            Ok(count) => Ok(count),
            Err(_) => {
                self.read_faults = self.read_faults.saturating_add(1);
                Err(ReadFault)
            }
        }
    }
}

impl<'a, R: Net + Clock> Sink for TcpLink<'a, R> {
    fn write(&mut self, from: &[u8]) -> Result<usize, WriteFault> {
        match self.write_in_time(from) {
            Ok(0) if !from.is_empty() => {
                self.write_faults = self.write_faults.saturating_add(1);
                Ok(0)
            }
            Ok(count) => Ok(count),
            Err(_) => {
                self.write_faults = self.write_faults.saturating_add(1);
                Err(WriteFault)
            }
        }
    }
}

impl<'a, R: Net + Clock> Closable for TcpLink<'a, R> {
    ghost closed = { λ link. link.is_closed };

    fn close(&mut self) {
        if let Some(stream) = &self.stream {
            let _ = stream.shutdown(Shutdown::Both);
        }
        self.stream = None;
    }

    fn is_dismissed(&self) -> bool {
        false
    }
}
