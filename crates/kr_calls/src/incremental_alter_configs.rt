//! IncrementalAlterConfigs (key 44, version 1): the request and its reply. Fields are those of Kafka's schemas, without timeouts, throttle times
//! and messages.

use kr_defs::{Rows, Text};

/// One setting that a request names, with what is to be done with it (AlterableConfig).
#[derive(Drop)]
pub struct ConfigOperation {
    /// The key, as `min.insync.replicas`.
    pub name: Text,
    /// 0 set, 1 delete, 2 append, 3 subtract.
    pub operation: i8,
    /// The value of set, the parts of append and subtract.
    pub value: Option<Text>,
}

/// A list of operations, in the order of the request.
pub type ConfigOperations = Rows<ConfigOperation>;

/// A resource whose settings a request changes (AlterConfigsResource).
#[derive(Drop)]
pub struct ConfigResource {
    /// 2 a topic, 4 a broker.
    pub kind: i8,
    /// The topic's name, or the broker's id; the empty name is the default of all brokers.
    pub name: Text,
    /// What is to be done, in order.
    pub configs: ConfigOperations,
}

/// A list of resources, in the order of the request.
pub type ConfigResources = Rows<ConfigResource>;

/// Settings are to be changed (IncrementalAlterConfigsRequest, version 1).
#[derive(Drop)]
pub struct IncrementalAlterConfigs {
    /// The resources, each judged alone.
    pub resources: ConfigResources,
    /// The request is judged, and nothing is changed.
    pub validate_only: bool,
}

/// The answer for one resource (AlterConfigsResourceResponse).
#[derive(Drop)]
pub struct ConfigResponse {
    /// Kafka's error number, 0 for none.
    pub error: i16,
    /// The type of the resource, by Kafka's numbers: 2 a topic, 4 a broker.
    pub kind: i8,
    /// The topic's name, or the broker's id in decimal; empty for the default of all brokers.
    pub name: Text,
}

/// A list of answers, in the order of the request.
pub type ConfigResponses = Rows<ConfigResponse>;

/// The reply to an IncrementalAlterConfigs (IncrementalAlterConfigsResponse, version 1).
#[derive(Drop)]
pub struct IncrementalAlterConfigsReply {
    /// An answer for each resource.
    pub responses: ConfigResponses,
}
