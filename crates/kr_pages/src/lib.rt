//! A paged description of topics, after Kafka's DescribeTopicPartitions: its request from bytes, its reply to bytes, and what
//! its pages are.
#![tactic(auto)]

mod describe;
pub mod laws;
mod nullable;
mod reply;
mod request;

pub use describe::{
    Describe, DescribeAsk, Described, DescribedPart, DescribedParts, DescribedTopic,
    DescribedTopics, LineKey,
};
pub use reply::encode;
pub use request::decode;

/// Marks the layouts of this crate: `Get` and `Put` are the layout crate's traits.
#[derive(Drop)]
struct Mine;
