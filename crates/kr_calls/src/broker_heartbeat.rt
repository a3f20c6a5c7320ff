//! BrokerHeartbeat (key 63, version 0): the request and its reply. Fields are those of Kafka's schemas, without timeouts, throttle times
//! and messages.

/// A registered broker is alive (BrokerHeartbeatRequest, version 0).
#[derive(Drop)]
pub struct BrokerHeartbeat {
    /// The broker's id.
    pub broker: i32,
    /// The epoch that its registration was answered with.
    pub epoch: i64,
    /// The highest metadata offset that the broker has reached.
    pub offset: i64,
    /// The broker asks to be fenced, or to stay so.
    pub want_fence: bool,
    /// The broker asks to shut down (a controlled shutdown).
    pub want_shutdown: bool,
}

/// The reply to a BrokerHeartbeat (BrokerHeartbeatResponse, version 0).
#[derive(Drop)]
pub struct BrokerHeartbeatReply {
    /// Kafka's error number, 0 for none.
    pub error: i16,
    /// The broker has read the metadata log up to its own registration.
    pub caught_up: bool,
    /// The broker is fenced.
    pub fenced: bool,
    /// The broker leads nothing any more, and may stop.
    pub should_shut_down: bool,
}
