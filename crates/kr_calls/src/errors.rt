//! Kafka's error numbers that a reply may bear, by their names in Kafka's `Errors`.

/// There is no such topic, or no such partition of it.
pub const UNKNOWN_TOPIC_OR_PARTITION: i16 = 3;

/// Nobody leads the partition.
pub const LEADER_NOT_AVAILABLE: i16 = 5;

/// No topic may be named so, or one whose name agrees with it is there.
pub const INVALID_TOPIC_EXCEPTION: i16 = 17;

/// The request's key or version isn't served.
pub const UNSUPPORTED_VERSION: i16 = 35;

/// A topic of that name is there.
pub const TOPIC_ALREADY_EXISTS: i16 = 36;

/// The number of partitions is none that a topic may have.
pub const INVALID_PARTITIONS: i16 = 37;

/// The number of replicas isn't from 1 to that of the active brokers, or is too great.
pub const INVALID_REPLICATION_FACTOR: i16 = 38;

/// The replicas that were given can't be a partition's.
pub const INVALID_REPLICA_ASSIGNMENT: i16 = 39;

/// A setting's key or value is none.
pub const INVALID_CONFIG: i16 = 40;

/// This node doesn't lead the metadata log.
pub const NOT_CONTROLLER: i16 = 41;

/// The request contradicts itself, or can't be read.
pub const INVALID_REQUEST: i16 = 42;

/// A limit of this controller's own would be passed.
pub const POLICY_VIOLATION: i16 = 44;

/// The reporting broker led the partition in an earlier leader epoch.
pub const FENCED_LEADER_EPOCH: i16 = 74;

/// The reported leader epoch has not come yet.
pub const UNKNOWN_LEADER_EPOCH: i16 = 75;

/// The broker isn't registered under that epoch.
pub const STALE_BROKER_EPOCH: i16 = 77;

/// The preferred leader can't lead.
pub const PREFERRED_LEADER_NOT_AVAILABLE: i16 = 80;

/// No replica can lead.
pub const ELIGIBLE_LEADERS_NOT_AVAILABLE: i16 = 83;

/// The partition has the leader that was asked for.
pub const ELECTION_NOT_NEEDED: i16 = 84;

/// There is no reassignment to give up.
pub const NO_REASSIGNMENT_IN_PROGRESS: i16 = 85;

/// The report speaks of another partition epoch.
pub const INVALID_UPDATE_VERSION: i16 = 95;

/// No topic has that id.
pub const UNKNOWN_TOPIC_ID: i16 = 100;

/// Another process is registered under the broker's id, and is alive.
pub const DUPLICATE_BROKER_REGISTRATION: i16 = 101;

/// No broker is registered under that id.
pub const BROKER_ID_NOT_REGISTERED: i16 = 102;

/// The broker belongs to another cluster.
pub const INCONSISTENT_CLUSTER_ID: i16 = 104;

/// A broker that was reported in sync isn't registered so, is fenced or stops.
pub const INELIGIBLE_REPLICA: i16 = 107;

/// The partition has another leader than the one that reported, by its own report.
pub const NEW_LEADER_ELECTED: i16 = 108;
