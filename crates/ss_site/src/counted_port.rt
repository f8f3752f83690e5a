//! Ports that tell what they counted.

ghost use Rattle.std.specs.Prelude.{◌≡◌};
ghost use Rattle.ss_links.specs.Ports.{HasAccepted, idle_port};

use ss_links::{Accepted, Port, PortFault};

/// A port, and counts of its answers since it was given.
#[derive(Drop, Debug)]
pub struct CountedPort<P> {
    port: P,
    faults: u64,
    ends: u64,
    links: u64,
    rests: u64,
}

impl<P> CountedPort<P> {
    ghost use Rattle.ss_site.specs.Counted.{accepts_of, port_in};

    pub fn new(port: P) -> CountedPort<P>
        ensures port { port_in result ≡ port }
        ensures idle { accepts_of result ≡ idle_port }
    {
        CountedPort {
            port,
            faults: 0,
            ends: 0,
            links: 0,
            rests: 0,
        }
    }

    /// How many of its calls failed.
    pub fn faults(&self) -> u64
        ensures { result ≡ (accepts_of self.now).faults }
    {
        self.faults
    }

    /// How many of its calls found its end.
    pub fn ends(&self) -> u64
        ensures { result ≡ (accepts_of self.now).ends }
    {
        self.ends
    }

    /// How many links it gave.
    pub fn links(&self) -> u64
        ensures { result ≡ (accepts_of self.now).links }
    {
        self.links
    }

    /// How often it rested.
    pub fn rests(&self) -> u64
        ensures { result ≡ (accepts_of self.now).rests }
    {
        self.rests
    }
}

impl<P: Port> Port for CountedPort<P> {
    ghost use Rattle.ss_site.specs.Counted.{accepts_of};

    type Link = P::Link;

    ghost counts = { λ p. accepts_of p };

    fn accept(&mut self) -> Result<Accepted<P::Link>, PortFault> {
        match self.port.accept() {
            Ok(Accepted::Link(link)) => {
                self.links = self.links.saturating_add(1);
                Ok(Accepted::Link(link))
            }
            Ok(Accepted::Rest) => {
                self.rests = self.rests.saturating_add(1);
                Ok(Accepted::Rest)
            }
            Ok(Accepted::End) => {
                self.ends = self.ends.saturating_add(1);
                Ok(Accepted::End)
            }
            Err(PortFault::Fault) => {
                self.faults = self.faults.saturating_add(1);
                Err(PortFault::Fault)
            }
            Err(PortFault::Memory) => Err(PortFault::Memory),
        }
    }
}
