//! What requests on partitions and reads share: what the entries of an image give, in the order of a walk; lists of replicas; the
//! record of a change; and the records that make an image, in the order in which it is written.
#![tactic(auto)]

mod changes;
mod contents;
mod gathering;
mod part_records;
mod replicas;

pub use changes::change_records;
pub use contents::records_of;
pub use gathering::{
    BrokerPart, ConfigPart, FeaturePart, PartitionPart, TopicPart, add_image, add_partitions,
    gather_brokers, gather_partitions, gather_topics,
};
pub use replicas::{are_registered, are_targets, without};
