//! Sites: where a server's links, keepers, clocks and logs come from and go back to, and what it tells of each of its
//! terms. One in memory, where all of it is told; and keepers, ports and stores that count, of which any can be made. Their
//! contracts: what a call gave or kept where that is told, and that a fault is answered only where a count rose.
#![tactic(auto)]

mod counted_keeper;
mod counted_port;
mod counted_store;
mod memory_site;
mod site;
mod table;

pub use counted_keeper::CountedKeeper;
pub use counted_port::CountedPort;
pub use counted_store::CountedStore;
pub use memory_site::{KeptTerm, MemSite};
pub use site::{NoKeeper, Site, SiteFault};
