//! Metadata (key 3, version 12): the request and its reply. Fields are those of Kafka's schemas, without timeouts, throttle times
//! and messages.

use kr_defs::{Ids, Rows, Text};

/// A topic that is asked for, by its id or by its name (MetadataRequestTopic).
#[derive(Drop)]
pub struct MetadataRequestTopic {
    /// Its id, 0 where it is given by its name.
    pub topic: u128,
    /// Its name, or null where it is given by its id.
    pub name: Option<Text>,
}

/// A list of topics that are asked for, in the order of the request.
pub type MetadataRequestTopics = Rows<MetadataRequestTopic>;

/// The brokers and topics of the cluster (MetadataRequest, version 12).
#[derive(Drop)]
pub struct Metadata {
    /// The topics that are asked for, or null for all.
    pub topics: Option<MetadataRequestTopics>,
}

/// A broker that clients can reach (MetadataResponseBroker).
#[derive(Drop)]
pub struct MetadataBroker {
    /// The broker's id.
    pub id: i32,
    /// The host of its first endpoint.
    pub host: Text,
    /// The TCP port of its first endpoint.
    pub port: i32,
    /// Its rack, where it has one.
    pub rack: Option<Text>,
}

/// A list of brokers.
pub type MetadataBrokers = Rows<MetadataBroker>;

/// A partition as clients see it (MetadataResponsePartition).
#[derive(Drop)]
pub struct MetadataPartition {
    /// Kafka's error number, 0 for none.
    pub error: i16,
    /// The partition's index in its topic, from 0.
    pub index: i32,
    /// The leader's id, -1 where there is none.
    pub leader: i32,
    /// How many leaders there have been: it rises with each new one (KIP-101).
    pub leader_epoch: i32,
    /// The brokers that keep a copy.
    pub replicas: Ids,
    /// The replicas in sync.
    pub in_sync: Ids,
    /// The replicas whose brokers can't be reached.
    pub offline: Ids,
}

/// A list of partitions.
pub type MetadataPartitions = Rows<MetadataPartition>;

/// A topic as clients see it (MetadataResponseTopic).
#[derive(Drop)]
pub struct MetadataTopic {
    /// Kafka's error number, 0 for none.
    pub error: i16,
    /// Its name; of a refused one as it was given.
    pub name: Option<Text>,
    /// The topic's id, a UUID (KIP-516).
    pub topic: u128,
    /// A topic of Kafka's own: never here.
    pub internal: bool,
    /// Its partitions.
    pub partitions: MetadataPartitions,
    /// What the client may do with the topic, as bits.
    pub operations: i32,
}

/// A list of topics.
pub type MetadataTopics = Rows<MetadataTopic>;

/// The reply to a Metadata (MetadataResponse, version 12).
#[derive(Drop)]
pub struct MetadataReply {
    /// The brokers that aren't fenced.
    pub brokers: MetadataBrokers,
    /// The id of the cluster.
    pub cluster: Option<Text>,
    /// The id of the controller, or -1.
    pub controller: i32,
    /// The topics that were asked for.
    pub topics: MetadataTopics,
}
