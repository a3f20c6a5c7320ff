//! AlterPartitionReassignments (key 45, version 0): the request and its reply. Fields are those of Kafka's schemas, without timeouts, throttle times
//! and messages.

use kr_defs::{Ids, Rows, Text};

/// A partition whose replicas are to change (ReassignablePartition).
#[derive(Drop)]
pub struct ReassignablePartition {
    /// The partition's index in its topic, from 0.
    pub index: i32,
    /// The replicas that it is to have, or null to give up the present reassignment.
    pub replicas: Option<Ids>,
}

/// A list of partitions to reassign, in the order of the request.
pub type ReassignablePartitions = Rows<ReassignablePartition>;

/// The partitions of one topic that are to be reassigned (ReassignableTopic).
#[derive(Drop)]
pub struct ReassignableTopic {
    /// The topic's name.
    pub name: Text,
    /// What each is to have.
    pub partitions: ReassignablePartitions,
}

/// A list of topics with partitions to reassign, in the order of the request.
pub type ReassignableTopics = Rows<ReassignableTopic>;

/// Partitions are to get other replicas (AlterPartitionReassignmentsRequest, version 0).
#[derive(Drop)]
pub struct AlterPartitionReassignments {
    /// The partitions, by topic.
    pub topics: ReassignableTopics,
}

/// The answer for one partition (ReassignablePartitionResponse).
#[derive(Drop)]
pub struct ReassignablePartitionResponse {
    /// The partition's index in its topic, from 0.
    pub index: i32,
    /// Kafka's error number, 0 for none.
    pub error: i16,
}

/// A list of answers, in the order of the request.
pub type ReassignablePartitionResponses = Rows<ReassignablePartitionResponse>;

/// The answers for one topic (ReassignableTopicResponse).
#[derive(Drop)]
pub struct ReassignableTopicResponse {
    /// The topic's name.
    pub name: Text,
    /// An answer for each.
    pub partitions: ReassignablePartitionResponses,
}

/// A list of answers by topic, in the order of the request.
pub type ReassignableTopicResponses = Rows<ReassignableTopicResponse>;

/// The reply to an AlterPartitionReassignments (AlterPartitionReassignmentsResponse, version 0).
#[derive(Drop)]
pub struct AlterPartitionReassignmentsReply {
    /// Kafka's error number for the whole request, 0 for none.
    pub error: i16,
    /// The answers, by topic.
    pub responses: ReassignableTopicResponses,
}
