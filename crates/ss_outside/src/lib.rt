//! The outside: where bytes come from and go to, and clocks, each with what it tells and how many of its calls failed.
//! Everything above is generic over these traits; it is run over memory in tests, and over the real thing in programs.
//! Their contracts: what a call moved where its content is told, and that a fault is answered only where a count rose.
#![tactic(auto)]

mod clock;
mod faults;
mod memory_clock;
mod memory_sink;
mod memory_source;
mod sink;
mod source;
mod standard;
mod system_clock;
mod told;

pub use clock::Clock;
pub use faults::{Faults, Never, Numbered};
pub use memory_clock::{CountClock, MemClock};
pub use memory_sink::{MemSink, SinkUnder, SureSink};
pub use memory_source::{MemSource, SourceUnder, SureSource};
pub use sink::{Sink, WriteFault, write_all};
pub use source::{ReadFault, Source};
pub use standard::{StdSink, StdSource};
pub use system_clock::SystemClock;
pub use told::Told;
