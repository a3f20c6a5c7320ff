//! ListPartitionReassignments (key 46, version 0): the request and its reply. Fields are those of Kafka's schemas, without timeouts, throttle times
//! and messages.

use kr_defs::{Ids, Rows, Text};

/// Partitions of a topic that are asked for (ListPartitionReassignmentsTopics).
#[derive(Drop)]
pub struct ListedTopic {
    /// The topic's name.
    pub name: Text,
    /// The indices of its partitions.
    pub partitions: Ids,
}

/// A list of topics that are asked for, in the order of the request.
pub type ListedTopics = Rows<ListedTopic>;

/// Which reassignments go on (ListPartitionReassignmentsRequest, version 0).
#[derive(Drop)]
pub struct ListPartitionReassignments {
    /// The partitions that are asked for, or null for all.
    pub topics: Option<ListedTopics>,
}

/// A partition that is being reassigned (OngoingPartitionReassignment).
#[derive(Drop)]
pub struct OngoingPartitionReassignment {
    /// The partition's index in its topic, from 0.
    pub index: i32,
    /// All its replicas, as they are now.
    pub replicas: Ids,
    /// Those that are being added.
    pub adding: Ids,
    /// Those that will go.
    pub removing: Ids,
}

/// A list of partitions that are being reassigned.
pub type OngoingPartitionReassignments = Rows<OngoingPartitionReassignment>;

/// The partitions of one topic that are being reassigned (OngoingTopicReassignment).
#[derive(Drop)]
pub struct OngoingTopicReassignment {
    /// The topic's name.
    pub name: Text,
    /// Those that are being reassigned.
    pub partitions: OngoingPartitionReassignments,
}

/// A list of reassignments by topic.
pub type OngoingTopicReassignments = Rows<OngoingTopicReassignment>;

/// The reply to a ListPartitionReassignments (ListPartitionReassignmentsResponse, version 0).
#[derive(Drop)]
pub struct ListPartitionReassignmentsReply {
    /// Kafka's error number, 0 for none.
    pub error: i16,
    /// The reassignments, by topic.
    pub topics: OngoingTopicReassignments,
}
