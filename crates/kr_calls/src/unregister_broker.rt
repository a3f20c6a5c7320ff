//! UnregisterBroker (key 64, version 0): the request and its reply. Fields are those of Kafka's schemas, without timeouts, throttle times
//! and messages.

/// A broker is to be forgotten (UnregisterBrokerRequest, version 0).
#[derive(Drop)]
pub struct UnregisterBroker {
    /// The broker's id.
    pub broker: i32,
}

/// The reply to an UnregisterBroker (UnregisterBrokerResponse, version 0).
#[derive(Drop)]
pub struct UnregisterBrokerReply {
    /// Kafka's error number, 0 for none.
    pub error: i16,
}
