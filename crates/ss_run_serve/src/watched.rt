//! A port that remembers whether it ended.

ghost use Rattle.std.specs.Prelude.{◌≡◌, ◌≢◌, ◌↔◌, IsTrue};
ghost use Rattle.ss_links.specs.Ports.{idle_port};

use ss_links::{Accepted, Port, PortFault};

/// A port, and whether one of its calls found its end since it was given.
pub(crate) struct Watched<P: Port> {
    port: P,
    has_ended: bool,
    ghost seen: { IsTrue has_ended ↔ ((P.counts port).ends ≢ 0) },
}

impl<P: Port> Watched<P> {
    ghost use Rattle.ss_run_serve.specs.Watched.{port_in};

    pub(crate) fn new(port: P) -> Watched<P>
        requires idle { P.counts port ≡ idle_port }
        ensures { port_in result ≡ port }
    {
        Watched {
            port,
            has_ended: false,
        }
    }

    /// Whether the port ended.
    pub(crate) fn has_ended(&self) -> bool
        ensures { IsTrue result ↔ ((P.counts (port_in self.now)).ends ≢ 0) }
    {
        self.has_ended
    }

    /// The port itself.
    pub(crate) fn into_port(self) -> P
        ensures { result ≡ port_in self }
    {
        let Watched { port, has_ended: _ } = self;
        port
    }
}

impl<P: Port> Port for Watched<P> {
    ghost use Rattle.ss_run_serve.specs.Watched.{port_in};

    type Link = P::Link;

    ghost counts = { λ p. P.counts (port_in p) };

    fn accept(&mut self) -> Result<Accepted<P::Link>, PortFault> {
        let given = self.port.accept();
        if let Ok(Accepted::End) = &given {
            self.has_ended = true;
        }
        given
    }
}
