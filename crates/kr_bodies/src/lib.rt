//! The bodies of requests, from bytes, and of replies, to bytes: a file for each request.
#![tactic(auto)]

mod alter_partition;
mod alter_partition_reassignments;
mod broker_heartbeat;
mod broker_registration;
mod create_partitions;
mod create_topics;
mod delete_topics;
mod elect_leaders;
mod incremental_alter_configs;
mod list_partition_reassignments;
mod metadata;
mod unregister_broker;

pub use alter_partition::{put_alter_partition, read_alter_partition};
pub use alter_partition_reassignments::{
    put_alter_partition_reassignments, read_alter_partition_reassignments,
};
pub use broker_heartbeat::{put_broker_heartbeat, read_broker_heartbeat};
pub use broker_registration::{put_broker_registration, read_broker_registration};
pub use create_partitions::{put_create_partitions, read_create_partitions};
pub use create_topics::{put_create_topics, read_create_topics};
pub use delete_topics::{put_delete_topics, read_delete_topics};
pub use elect_leaders::{put_elect_leaders, read_elect_leaders};
pub use incremental_alter_configs::{
    put_incremental_alter_configs, read_incremental_alter_configs,
};
pub use list_partition_reassignments::{
    put_list_partition_reassignments, read_list_partition_reassignments,
};
pub use metadata::{put_metadata, read_metadata};
pub use unregister_broker::{put_unregister_broker, read_unregister_broker};

/// Marks the layouts of this crate: `Get` and `Put` are the layout crate's traits, and the data are another crate's.
#[derive(Drop)]
struct Mine;
