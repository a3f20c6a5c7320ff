//! Which partitions each broker has a replica of, at least.
#![tactic(auto)]

mod brokers;
mod keys;
mod standing;

pub use brokers::BrokerPartitions;
pub use keys::PartitionKeys;
pub use standing::has_standing_by;
