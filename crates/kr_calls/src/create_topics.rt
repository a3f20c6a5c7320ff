//! CreateTopics (key 19, version 7): the request and its reply. Fields are those of Kafka's schemas, without timeouts, throttle times
//! and messages.

use kr_defs::{Ids, Rows, Text};

/// Where one partition of a new topic is to be (CreatableReplicaAssignment).
#[derive(Drop)]
pub struct CreatableReplicaAssignment {
    /// The partition's index in its topic, from 0.
    pub index: i32,
    /// The ids of its replicas' brokers, the preferred leader first.
    pub brokers: Ids,
}

/// A list of assignments, in the order of the request.
pub type CreatableReplicaAssignments = Rows<CreatableReplicaAssignment>;

/// One setting of a new topic (CreatableTopicConfig).
#[derive(Drop)]
pub struct CreatableTopicConfig {
    /// The key, as `min.insync.replicas`.
    pub name: Text,
    /// Its value; null is refused.
    pub value: Option<Text>,
}

/// A list of settings, in the order of the request.
pub type CreatableTopicConfigs = Rows<CreatableTopicConfig>;

/// A topic to create (CreatableTopic).
#[derive(Drop)]
pub struct CreatableTopic {
    /// The name that it is to have.
    pub name: Text,
    /// How many partitions, or -1 for the default.
    pub partitions: i32,
    /// How many replicas of each partition, or -1 for the default.
    pub factor: i16,
    /// Where the partitions are to be, or none where the controller places them.
    pub assignments: CreatableReplicaAssignments,
    /// Its settings.
    pub configs: CreatableTopicConfigs,
}

/// A list of topics to create, in the order of the request.
pub type CreatableTopics = Rows<CreatableTopic>;

/// Topics are to be made (CreateTopicsRequest, version 7).
#[derive(Drop)]
pub struct CreateTopics {
    /// The topics, each judged alone.
    pub topics: CreatableTopics,
    /// The request is judged, and nothing is changed.
    pub validate_only: bool,
}

/// The answer for one topic to create (CreatableTopicResult). A refused one has id 0, -1 and -1.
#[derive(Drop)]
pub struct CreatableTopicResult {
    /// As it was asked for.
    pub name: Text,
    /// The new topic's id.
    pub topic: u128,
    /// Kafka's error number, 0 for none.
    pub error: i16,
    /// How many partitions it has.
    pub partitions: i32,
    /// How many replicas each of them has.
    pub factor: i16,
}

/// A list of answers, in the order of the request.
pub type CreatableTopicResults = Rows<CreatableTopicResult>;

/// The reply to a CreateTopics (CreateTopicsResponse, version 7).
#[derive(Drop)]
pub struct CreateTopicsReply {
    /// An answer for each topic.
    pub topics: CreatableTopicResults,
}
