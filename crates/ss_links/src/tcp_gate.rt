//! The gate of a server over TCP: the trusted edge.

use crate::gate::Gate;
use crate::traffic::Traffic;
use std::time::Clock;

/// The gate of a server over TCP. While others wait, each response closes its link. A full journal makes the port rest,
/// and want of memory at links is said on standard error, once a minute.
#[derive(Drop)]
pub struct TcpGate<'a, R: Clock> {
    system: &'a R,
    traffic: &'a Traffic,
}

impl<'a, R: Clock> TcpGate<'a, R> {
    /// The gate for the links of the port over this traffic.
    pub fn new(system: &'a R, traffic: &'a Traffic) -> TcpGate<'a, R> {
        TcpGate { system, traffic }
    }
}

impl<'a, R: Clock> Gate for TcpGate<'a, R> {
    ghost says = { λ gate worker turn closes. Unit {0} };

    fn pass(&self, _worker: u32, _turn: u64) -> bool {
        self.traffic.is_pressed(self.system)
    }

    fn fills(&self) {
        self.traffic.want_rest();
    }

    fn starves(&self) {
        self.traffic.tell_no_memory(self.system);
    }
}
