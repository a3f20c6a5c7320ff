//! The event queue: the jobs of the host's link and of the clients, in one order, for the one worker.
#![tactic(auto)]

mod jobs;
mod laws;
mod passes;
mod queue;
mod rule;

pub use jobs::Job;
pub use laws::each_step_keeps_the_rule;
pub use passes::{ClientPasses, Pass, Passes, Role, View};
pub use queue::{Queue, open};
