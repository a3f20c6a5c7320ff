//! Requests on topics: they are created, deleted, grown and shown.
#![tactic(auto)]

mod assigning;
mod create_partitions;
mod create_topics;
mod delete_topics;
pub mod metadata;
mod named_topics;
mod naming;
mod partitions;
mod racks;
mod settings;
mod topic_rows;

pub use create_partitions::CreatePartitionsHandler;
pub use create_topics::CreateTopicsHandler;
pub use delete_topics::DeleteTopicsHandler;
