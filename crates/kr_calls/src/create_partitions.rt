//! CreatePartitions (key 37, version 3): the request and its reply. Fields are those of Kafka's schemas, without timeouts, throttle times
//! and messages.

use kr_defs::{Ids, Rows, Text};

/// Where one new partition is to be (CreatePartitionsAssignment).
#[derive(Drop)]
pub struct CreatePartitionsAssignment {
    /// The ids of its replicas' brokers, the preferred leader first.
    pub brokers: Ids,
}

/// A list of assignments, in the order of the request.
pub type CreatePartitionsAssignments = Rows<CreatePartitionsAssignment>;

/// A topic to grow (CreatePartitionsTopic).
#[derive(Drop)]
pub struct CreatePartitionsTopic {
    /// The topic's name.
    pub name: Text,
    /// How many partitions there are to be.
    pub count: i32,
    /// Where the new ones are to be, or null where the controller places them.
    pub assignments: Option<CreatePartitionsAssignments>,
}

/// A list of topics to grow, in the order of the request.
pub type CreatePartitionsTopics = Rows<CreatePartitionsTopic>;

/// Topics are to get more partitions (CreatePartitionsRequest, version 3).
#[derive(Drop)]
pub struct CreatePartitions {
    /// The topics, each judged alone.
    pub topics: CreatePartitionsTopics,
    /// The request is judged, and nothing is changed.
    pub validate_only: bool,
}

/// The answer for one topic to grow (CreatePartitionsTopicResult).
#[derive(Drop)]
pub struct CreatePartitionsTopicResult {
    /// The topic's name.
    pub name: Text,
    /// Kafka's error number, 0 for none.
    pub error: i16,
}

/// A list of answers, in the order of the request.
pub type CreatePartitionsTopicResults = Rows<CreatePartitionsTopicResult>;

/// The reply to a CreatePartitions (CreatePartitionsResponse, version 3).
#[derive(Drop)]
pub struct CreatePartitionsReply {
    /// An answer for each topic.
    pub results: CreatePartitionsTopicResults,
}
