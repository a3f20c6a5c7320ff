//! The tool's one call: a command by its words.
#![tactic(auto)]

mod making;
mod percents;
mod running;
mod seeds;

pub use kr_process::Status;
pub use running::{refuse, run, serves_session};
