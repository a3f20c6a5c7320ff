//! Moves that are drawn from a number, made with several controllers over one list, and what came of them.
#![tactic(auto)]

mod driving;
mod summary;
mod turns;

pub use driving::drive;
pub use summary::{NodesSummary, summary_text};
