//! AlterPartition (key 56, version 3): the request and its reply. Fields are those of Kafka's schemas, without timeouts, throttle times
//! and messages.

use kr_defs::{Ids, Rows};

/// A replica that is in sync, with its broker's epoch (BrokerState).
#[derive(Drop)]
pub struct BrokerState {
    /// The broker's id.
    pub broker: i32,
    /// The epoch of its registration that the leader knows, or -1 where it knows none.
    pub epoch: i64,
}

/// A list of replicas in sync, in the order of the request.
pub type BrokerStates = Rows<BrokerState>;

/// What a leader reports of one partition (PartitionData of AlterPartitionRequest).
#[derive(Drop)]
pub struct PartitionReport {
    /// The partition's index in its topic, from 0.
    pub index: i32,
    /// The leader epoch in which the broker leads.
    pub leader_epoch: i32,
    /// The replicas that are to be in sync.
    pub in_sync: BrokerStates,
    /// 1 while the leader recovers from an unclean election, else 0.
    pub recovery: i8,
    /// The partition epoch that the leader knows.
    pub partition_epoch: i32,
}

/// A list of reports, in the order of the request.
pub type PartitionReports = Rows<PartitionReport>;

/// The reports on one topic's partitions (TopicData of AlterPartitionRequest).
#[derive(Drop)]
pub struct AlterPartitionTopic {
    /// The topic's id, a UUID (KIP-516).
    pub topic: u128,
    /// A report on each.
    pub partitions: PartitionReports,
}

/// A list of reports by topic, in the order of the request.
pub type AlterPartitionTopics = Rows<AlterPartitionTopic>;

/// A broker reports which replicas are in sync with it (AlterPartitionRequest, version 3).
#[derive(Drop)]
pub struct AlterPartition {
    /// The id of the reporting broker.
    pub broker: i32,
    /// The epoch of its registration.
    pub epoch: i64,
    /// The reports, by topic.
    pub topics: AlterPartitionTopics,
}

/// The answer to one report (PartitionData of AlterPartitionResponse).
#[derive(Drop)]
pub struct AlterPartitionResult {
    /// The partition's index in its topic, from 0.
    pub index: i32,
    /// Kafka's error number, 0 for none.
    pub error: i16,
    /// The leader's id, -1 where there is none.
    pub leader: i32,
    /// How many leaders there have been: it rises with each new one (KIP-101).
    pub leader_epoch: i32,
    /// The replicas in sync.
    pub in_sync: Ids,
    /// `LeaderRecoveryState` (KIP-704): 1 while the leader recovers from an unclean election, else 0.
    pub recovery: i8,
    /// How many changes there have been: it rises with each of them (KIP-497).
    pub partition_epoch: i32,
}

/// A list of answers, in the order of the request.
pub type AlterPartitionResults = Rows<AlterPartitionResult>;

/// The answers on one topic's partitions (TopicData of AlterPartitionResponse).
#[derive(Drop)]
pub struct AlterPartitionTopicResult {
    /// The topic's id, a UUID (KIP-516).
    pub topic: u128,
    /// An answer to each report.
    pub partitions: AlterPartitionResults,
}

/// A list of answers by topic, in the order of the request.
pub type AlterPartitionTopicResults = Rows<AlterPartitionTopicResult>;

/// The reply to an AlterPartition (AlterPartitionResponse, version 3).
#[derive(Drop)]
pub struct AlterPartitionReply {
    /// Kafka's error number for the whole request, 0 for none.
    pub error: i16,
    /// The answers, by topic.
    pub topics: AlterPartitionTopicResults,
}
