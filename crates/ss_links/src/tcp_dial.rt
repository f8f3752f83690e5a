//! A dial over TCP: the trusted edge. It counts its faults, and tells no content.

ghost use Rattle.std.specs.Prelude.{◌≡◌, None, IfOk};
ghost use Rattle.ss_links.specs.Links.{idle_link};

use crate::dial::{Dial, DialFault};
use crate::tcp_link::TcpLink;
use std::io;
use std::io::ErrorKind;
use std::marker::Model;
use std::net::{Net, ToSocketAddrs};
use std::time::Clock;

/// A dial over TCP. A host must answer within 30 seconds, as a message of its links must be there.
#[derive(Drop)]
pub struct TcpDial<'a, R: Net + Clock> {
    system: &'a R,
    faults: u64,
}

impl<'a, R: Net + Clock> Model for TcpDial<'a, R> {
    ghost use Rattle.std.specs.Prelude.{ℕ};

    ghost Value = { ℕ };

    ghost view = { λ dial. dial.faults };
}

impl<'a, R: Net + Clock> TcpDial<'a, R> {
    pub fn new(system: &'a R) -> TcpDial<'a, R>
        ensures { result ≡ 0 }
    {
        TcpDial { system, faults: 0 }
    }

    // A link to the first address of the host that answers.
    fn connect(&self, host: &str, port: u16) -> io::Result<TcpLink<'a, R>>
        ensures { IfOk result (λ link. link ≡ idle_link) }
    {
        let mut last = io::Error::from(ErrorKind::NotFound);
        'addresses: for address in (host, port).to_socket_addrs(self.system)? {
            match TcpLink::dial(self.system, address) {
                Ok(link) => return Ok(link),
                Err(error) => last = error,
            }
        }
        Err(last)
    }
}

impl<'a, R: Net + Clock> Dial for TcpDial<'a, R> {
    type Link = TcpLink<'a, R>;

    ghost dial_faults = { λ dial. dial };

    ghost asked = { λ dial. None };

    ghost hung = { λ dial. None };

    fn dial(&mut self, host: &str, port: u16) -> Result<TcpLink<'a, R>, DialFault> {
        match self.connect(host, port) {
            Ok(link) => Ok(link),
            Err(error) if error.kind() == ErrorKind::OutOfMemory => Err(DialFault::Memory),
            Err(_) => {
                self.faults = self.faults.saturating_add(1);
                Err(DialFault::Fault)
            }
        }
    }

    fn hang_up(&mut self, link: TcpLink<'a, R>) {
        if link.has_failed() {
            self.faults = self.faults.saturating_add(1);
        }
        drop(link);
    }
}
