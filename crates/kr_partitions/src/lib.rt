//! What is decided of partitions: a leader's reports, elections that are asked for, and reassignments; and which reassignments go
//! on.
#![tactic(auto)]

mod alter_partition;
mod alter_partition_reassignments;
mod elect_leaders;
mod elections;
mod groups;
pub mod list_partition_reassignments;
mod lists;
mod members;
mod reassignments;
mod reports;
mod request_keys;
mod showing;

pub use alter_partition::AlterPartitionHandler;
pub use alter_partition_reassignments::AlterPartitionReassignmentsHandler;
pub use elect_leaders::ElectLeadersHandler;
