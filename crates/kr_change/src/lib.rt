//! Changes of partitions: what one makes of a partition, and which one follows from the active brokers.
#![tactic(auto)]

mod building;
mod completing;
mod conditions;
mod differing;
mod electing;
mod eligible;
mod lists;
mod merging;

pub use building::{build, build_under};
pub use completing::completes;
pub use conditions::Conditions;
pub use electing::elect;
pub use eligible::eligible_after;
pub use kr_defs::{Choice, Facts, Mode, Want};
pub use merging::{merge, target_of};
