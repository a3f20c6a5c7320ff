//! ElectLeaders (key 43, version 2): the request and its reply. Fields are those of Kafka's schemas, without timeouts, throttle times
//! and messages.

use kr_defs::{Ids, Rows, Text};

/// Partitions of a topic that are to get leaders (TopicPartitions of ElectLeadersRequest).
#[derive(Drop)]
pub struct ElectLeadersTopic {
    /// The topic's name.
    pub topic: Text,
    /// The indices of its partitions.
    pub partitions: Ids,
}

/// A list of topics to elect in, in the order of the request.
pub type ElectLeadersTopics = Rows<ElectLeadersTopic>;

/// Leaders are to be elected (ElectLeadersRequest, version 2).
#[derive(Drop)]
pub struct ElectLeaders {
    /// 0 the preferred leaders, 1 any replica where there is no leader.
    pub kind: i8,
    /// The partitions, or null for all.
    pub topics: Option<ElectLeadersTopics>,
}

/// The answer for one partition (PartitionResult).
#[derive(Drop)]
pub struct PartitionElectionResult {
    /// The partition's index in its topic, from 0.
    pub index: i32,
    /// Kafka's error number, 0 for none.
    pub error: i16,
}

/// A list of answers, in order.
pub type PartitionElectionResults = Rows<PartitionElectionResult>;

/// The answers for one topic (ReplicaElectionResult).
#[derive(Drop)]
pub struct ReplicaElectionResult {
    /// The topic's name.
    pub topic: Text,
    /// An answer for each.
    pub partitions: PartitionElectionResults,
}

/// A list of answers by topic, in order.
pub type ReplicaElectionResults = Rows<ReplicaElectionResult>;

/// The reply to an ElectLeaders (ElectLeadersResponse, version 2).
#[derive(Drop)]
pub struct ElectLeadersReply {
    /// Kafka's error number for the whole request, 0 for none.
    pub error: i16,
    /// The answers, by topic.
    pub results: ReplicaElectionResults,
}
