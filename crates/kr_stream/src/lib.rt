//! A session's bytes, frame by frame: events are read from any source, outputs are written to any sink.
#![tactic(auto)]

mod bodies;
mod fault;
mod filling;
mod frame;
mod head;
mod kind;
pub mod laws;
mod opening;
mod output;
mod reader;
mod refusal_numbers;
mod stage;

pub use fault::{StreamFault, WriteFault};
pub use frame::Frame;
pub use kind::FrameKind;
pub use output::write_frame;
pub use reader::Reader;
