//! Links and where they come from: ports that accept them, dials that make them, and the gate before an answer; and stores
//! of named files. Each in memory, where it is told what a call does, and over the system, where faults alone are counted.
//! Their contracts: what a call gave or kept where that is told, and that a fault is answered only where a count rose.
#![tactic(auto)]

mod dial;
mod file_store;
mod gate;
mod link;
mod memory_dial;
mod memory_link;
mod memory_port;
mod memory_store;
mod notice;
mod port;
mod served_link;
mod store;
mod tcp_dial;
mod tcp_gate;
mod tcp_link;
mod tcp_port;
mod traffic;
mod waiting;

pub use dial::{Dial, DialFault};
pub use file_store::FileStore;
pub use gate::{Gate, OpenGate};
pub use link::Closable;
pub use memory_dial::{Asked, DialUnder, MemDial};
pub use memory_link::{LinkUnder, MemLink, SureLink};
pub use memory_port::{MemPort, PortUnder, SurePort};
pub use memory_store::{MemStore, StoreUnder, SureStore};
pub use port::{Accepted, Port, PortFault};
pub use served_link::ServedLink;
pub use store::{Store, StoreFault};
pub use tcp_dial::TcpDial;
pub use tcp_gate::TcpGate;
pub use tcp_link::TcpLink;
pub use tcp_port::{MOST_HELD, TcpPort};
pub use traffic::Traffic;
pub use waiting::{GRACE_MILLIS, LEAST_RATE, PRESSED_QUIET_MILLIS, QUIET_MILLIS, WAIT_SECONDS};
