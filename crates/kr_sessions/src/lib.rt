//! The brokers that a leading controller hears of, and those of them that are stopping.
#![tactic(auto)]

mod context;
mod lists;
mod sessions;

pub use context::Context;
pub use sessions::Sessions;
