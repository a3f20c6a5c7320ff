//! BrokerRegistration (key 62, version 3): the request and its reply. Fields are those of Kafka's schemas, without timeouts, throttle times
//! and messages.

use kr_defs::{Endpoints, Ranges, Text};

/// A broker registers with the controller (BrokerRegistrationRequest, version 3). Its log directories are not kept.
#[derive(Drop)]
pub struct BrokerRegistration {
    /// The broker's id.
    pub broker: i32,
    /// The id of the cluster that the broker belongs to.
    pub cluster: Text,
    /// A UUID that the broker process draws as it starts.
    pub incarnation: u128,
    /// Where the broker listens.
    pub listeners: Endpoints,
    /// The feature levels that the broker supports.
    pub features: Ranges,
    /// Its rack, where it has one.
    pub rack: Option<Text>,
    /// The broker comes from a cluster over ZooKeeper.
    pub migrating: bool,
    /// The epoch before a clean shutdown, or -1.
    pub previous_epoch: i64,
}

/// The reply to a BrokerRegistration (BrokerRegistrationResponse, version 3).
#[derive(Drop)]
pub struct BrokerRegistrationReply {
    /// Kafka's error number, 0 for none.
    pub error: i16,
    /// The broker's epoch, or -1.
    pub epoch: i64,
}
