//! Tapes: what a store was seen to change, and what links and their daemons did, in one order; and which line is the first that no link
//! that keeps its rules can have brought about.
#![tactic(auto)]

mod batch;
mod fault;
mod laws;
mod line;

pub use batch::{AppendCall, HeldLeadership, Image, Keep, TapeBatch};
pub use fault::Fault;
pub use laws::{allowed_tapes_are_safe, verdicts_are_exact};
pub use line::{Line, LinkAct, SeenKeys, StoreChange};
