//! What the daemon is told when it starts: the words of its command line, read.
#![tactic(auto)]

mod command;
mod numbers;
mod reading;
mod told;

pub use reading::{help, settings};
pub use told::{Settings, SettingsFault};
