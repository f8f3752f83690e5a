//! A port over TCP: the trusted edge. It counts its faults, its links and how often it rested.

ghost use Rattle.std.specs.Prelude.{◌≡◌, IfOk, IfSome};
ghost use Rattle.ss_links.specs.Links.{idle_link};
ghost use Rattle.ss_links.specs.Ports.{idle_port};

use crate::port::{Accepted, Port, PortFault};
use crate::served_link::ServedLink;
use crate::traffic::Traffic;
use crate::waiting::WAIT_SECONDS;
use libc::net::{POLLIN, POLLRDHUP, listen, poll};
use libc::types::pollfd;
use std::alloc::Global;
use std::io::ErrorKind;
use std::marker::Model;
use std::mem::replace;
use std::net::{Net, OpenListener, OpenStream, SocketAddr, TcpListener, ToSocketAddrs};
use std::os::fd::AsRawFd;
use std::time::{Clock, Duration, Instant};
use std::{io, thread};

/// How many accepted connections a port holds that haven't sent anything yet. For one more the oldest is closed (this
/// project).
pub const MOST_HELD: usize = 1_000;

// How many connections the system keeps until the port accepts them.
const BACKLOG: i32 = 1_024;

// A wait lasts so many milliseconds at most, after which a wish for a rest is seen.
const WAIT_MILLIS: i32 = 100;

// Where room or a descriptor is wanting, a connection that is silent for so many milliseconds is closed for a new one.
// Where there is none, no connection is accepted for as long.
const PAUSE_MILLIS: u64 = 100;

// The errors of a system that has no descriptor or no memory for one more connection (Linux).
const ENFILE: i32 = 23;

const ENOBUFS: i32 = 105;

// The errors of a connection that was lost before it was accepted, beside ECONNABORTED (accept(2) of Linux).
const LOST: [i32; 9] = [1, 64, 71, 92, 95, 100, 101, 112, 113];

/// An accepted connection that hasn't sent anything yet.
#[derive(Drop)]
struct Held<S> {
    stream: S,
    since: Instant,
}

/// A port over TCP. It never ends by itself. It holds a connection until bytes of it are there, at most 30 seconds, and
/// it rests where its traffic wants it, or where nobody serves the links that it gave. No wait of its own is longer
/// than a tenth of a second.
#[derive(Drop)]
pub struct TcpPort<'a, R: Net + Clock> {
    system: &'a R,
    traffic: &'a Traffic,
    listener: R::Listener,
    // The oldest first.
    held: Vec<Held<R::Stream>>,
    // What the system is asked for each of them, in this order, and then for the listener.
    asked: Vec<pollfd>,
    // Since when no connection is accepted for want of descriptors.
    paused: Option<Instant>,
    has_rested: bool,
    faults: u64,
    links: u64,
    rests: u64,
}

impl<'a, R: Net + Clock> Model for TcpPort<'a, R> {
    ghost use Rattle.ss_links.specs.Ports.{Accepts};

    ghost Value = { Accepts };

    ghost view = { λ p. record { faults = p.faults; ends = 0; links = p.links; rests = p.rests } };
}

/// Whether no connection could be accepted for want of descriptors or memory.
fn is_want(error: &io::Error) -> bool {
    error.kind() == ErrorKind::OutOfMemory
        || match error.raw_os_error() {
            Some(libc::EMFILE | ENFILE | ENOBUFS) => true,
            _ => false,
        }
}

/// Whether there was no connection to be accepted, or it was lost.
fn is_passing(error: &io::Error) -> bool {
    match error.kind() {
        ErrorKind::WouldBlock | ErrorKind::ConnectionAborted | ErrorKind::Interrupted => true,
        _ => match error.raw_os_error() {
            Some(number) => LOST.contains(&number),
            None => false,
        },
    }
}

/// What the system is asked for a descriptor: whether bytes are there.
fn asked_for(fd: i32) -> pollfd {
    pollfd {
        fd,
        events: POLLIN | POLLRDHUP,
        revents: 0,
    }
}

/// Whether bytes of a socket are there, of which the system says that something is.
fn has_bytes<S: OpenStream>(stream: &S) -> bool {
    let mut byte = [0u8; 1];
    match stream.peek(&mut byte) {
        Ok(count) => count != 0,
        Err(_) => false,
    }
}

impl<'a, R: Net + Clock> TcpPort<'a, R> {
    /// A port that listens at this address, as `127.0.0.1:8000`. It takes the memory for `MOST_HELD` connections.
    pub fn listen(
        system: &'a R,
        alloc: Global,
        traffic: &'a Traffic,
        address: &str,
    ) -> io::Result<TcpPort<'a, R>>
        ensures { IfOk result (λ port. port ≡ idle_port) }
    {
        let listener = TcpListener::bind(system, address)?;
        listener.set_nonblocking(true)?;
        let _ = listen(listener.as_raw_fd(), BACKLOG);
        Ok(TcpPort {
            system,
            traffic,
            listener,
            held: Vec::with_capacity(alloc, MOST_HELD)?,
            asked: Vec::with_capacity(alloc, MOST_HELD + 1)?,
            paused: None,
            has_rested: false,
            faults: 0,
            links: 0,
            rests: 0,
        })
    }

    /// The address at which it listens.
    pub fn address(&self) -> io::Result<SocketAddr> {
        self.listener.local_addr()
    }

    // Writes down what the system is asked.
    fn ask(&mut self) -> io::Result<()>
        ensures { self.new ≡ self.old }
    {
        self.asked.clear();
        for held in &self.held {
            self.asked.push(asked_for(held.stream.as_raw_fd()))?;
        }
        if let Some(since) = self.paused {
            if since.elapsed(self.system)? < Duration::from_millis(PAUSE_MILLIS) {
                return Ok(());
            }
            self.paused = None;
        }
        self.asked.push(asked_for(self.listener.as_raw_fd()))?;
        Ok(())
    }

    // The place of the oldest connection of which something is there, or of the oldest silent one.
    fn oldest(&self, is_silent: bool) -> Option<usize> {
        for at in 0..self.held.len() {
            match self.asked.get(at) {
                Some(asked) if (asked.revents == 0) == is_silent => return Some(at),
                _ => {}
            }
        }
        None
    }

    // Takes the connection at a place, with what the system said of it.
    fn take(&mut self, at: usize) -> Option<(R::Stream, i16)>
        ensures { self.new ≡ self.old }
    {
        if at >= self.held.len() || at >= self.asked.len() {
            return None;
        }
        let asked = self.asked.remove(at);
        let held = self.held.remove(at);
        Some((held.stream, asked.revents))
    }

    // Takes the oldest connection of which something is there: bytes. One that is gone is passed over.
    fn take_speaker(&mut self) -> Option<R::Stream>
        ensures { self.new ≡ self.old }
    {
        let at = self.oldest(false)?;
        let (stream, said) = self.take(at)?;
        if said == POLLIN || has_bytes(&stream) {
            Some(stream)
        } else {
            None
        }
    }

    // Closes the oldest silent connection where it has been there for at least so long; whether there was one.
    fn close_silent(&mut self, now: Instant, least: Duration) -> bool
        ensures { self.new ≡ self.old }
    {
        let Some(at) = self.oldest(true) else {
            return false;
        };
        match self.held.get(at) {
            Some(held) if now.duration_since(held.since) >= least => self.take(at).is_some(),
            _ => false,
        }
    }

    // Closes a silent connection so that there is room for a new one, or lets new ones wait for a while.
    fn make_room(&mut self, now: Instant) -> bool
        ensures { self.new ≡ self.old }
    {
        let has_room = self.close_silent(now, Duration::from_millis(PAUSE_MILLIS));
        if !has_room {
            self.paused = Some(now);
        }
        has_room
    }

    // Whether the system says that a connection can be accepted.
    fn is_called(&self) -> bool {
        match self.asked.get(self.held.len()) {
            Some(asked) => asked.revents != 0,
            None => false,
        }
    }

    // Accepts a connection and holds it. Where room or a descriptor is wanting, the oldest silent one is closed.
    fn hold_next(&mut self, now: Instant) -> io::Result<()>
        ensures { self.new ≡ self.old }
    {
        if self.held.len() >= MOST_HELD && !self.make_room(now) {
            return Ok(());
        }
        match self.listener.accept() {
            Ok((stream, _)) => {
                if self.held.push(Held { stream, since: now }).is_err() {
                    self.traffic.tell_no_descriptors(self.system);
                }
                Ok(())
            }
            Err(error) if is_want(&error) => {
                self.traffic.tell_no_descriptors(self.system);
                let _ = self.make_room(now);
                Ok(())
            }
            Err(error) if is_passing(&error) => Ok(()),
            Err(error) => Err(error),
        }
    }

    // One wait: a link of which bytes are there, if there is one.
    fn wait_once(&mut self) -> io::Result<Option<ServedLink<'a, R>>>
        ensures link { IfOk result (λ given. IfSome given (λ link. link ≡ idle_link)) }
        ensures same { self.new ≡ self.old }
    {
        self.ask()?;
        if poll(self.asked.as_mut_slice(), WAIT_MILLIS) < 0 {
            thread::sleep(self.system, Duration::from_millis(PAUSE_MILLIS));
            return Ok(None);
        }
        let now = Instant::now(self.system)?;
        let speaker = self.take_speaker();
        if self.is_called() {
            self.hold_next(now)?;
        } else {
            let _ = self.close_silent(now, Duration::from_secs(WAIT_SECONDS));
        }
        match speaker {
            Some(stream) => Ok(Some(ServedLink::new(self.system, self.traffic, stream, now))),
            None => Ok(None),
        }
    }

    // Whether the port is to rest: that is wanted, or nobody serves the links that it gave.
    fn is_to_rest(&self) -> bool {
        if self.traffic.is_rest_wanted() {
            return true;
        }
        let is_unserved = self.traffic.is_unserved(self.system);
        if is_unserved {
            self.traffic.tell_no_worker(self.system);
        }
        is_unserved
    }

    // Waits for the next link of which bytes are there; None where the port is to rest.
    fn next_link(&mut self) -> io::Result<Option<ServedLink<'a, R>>>
        ensures link { IfOk result (λ given. IfSome given (λ link. link ≡ idle_link)) }
        ensures same { self.new ≡ self.old }
    {
        for _ in 0..u64::MAX {
            if self.is_to_rest() {
                return Ok(None);
            }
            if let Some(link) = self.wait_once()? {
                return Ok(Some(link));
            }
        }
        Err(io::Error::from(ErrorKind::TimedOut))
    }
}

impl<'a, R: Net + Clock> Port for TcpPort<'a, R> {
    type Link = ServedLink<'a, R>;

    ghost counts = { λ port. port };

    fn accept(&mut self) -> Result<Accepted<ServedLink<'a, R>>, PortFault> {
        let has_rested = replace(&mut self.has_rested, false);
        self.traffic.enter(self.system, has_rested);
        let given = self.next_link();
        self.traffic.leave(self.system);
        match given {
            Ok(Some(link)) => {
                self.links = self.links.saturating_add(1);
                Ok(Accepted::Link(link))
            }
            Ok(None) => {
                self.has_rested = true;
                self.rests = self.rests.saturating_add(1);
                Ok(Accepted::Rest)
            }
            Err(_) => {
                self.faults = self.faults.saturating_add(1);
                Err(PortFault::Fault)
            }
        }
    }
}
