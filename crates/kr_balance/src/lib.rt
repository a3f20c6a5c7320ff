//! Which partitions are to be given back to their preferred leaders.
#![tactic(auto)]

mod counts;
mod planning;

pub use planning::{Named, plan, plan_of};
