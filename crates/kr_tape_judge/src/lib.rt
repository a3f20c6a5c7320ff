//! Which line of a tape is the first that no link that keeps its rules can have brought about.
#![tactic(auto)]

mod daemon;
mod link;
mod lists;
mod seat;
mod store;
mod verdict;

pub use verdict::{RefusedLine, judge};
