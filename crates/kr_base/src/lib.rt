//! What the crates share with the outside: sources, sinks and quorums that count their faults, clocks, gates, and a counter
//! of steps; and what they share among themselves.
#![tactic(auto)]

mod adapters;
mod answers;
mod clock;
mod gate;
mod history;
mod memory;
mod outside;
mod quorum;
mod shared;
mod steps;

pub use adapters::{ReadSource, WriteSink};
pub use answers::{Failed, NoEpoch, NoMemory};
pub use clock::{Clock, MemoryClock, SystemClock};
pub use gate::{CountingGate, Gate, OpenGate};
pub use history::History;
pub use memory::{MemorySink, MemorySource, copy_front};
pub use outside::{Sink, Source};
pub use quorum::{MemoryQuorum, Quorum};
pub use shared::Shared;
pub use steps::Steps;
