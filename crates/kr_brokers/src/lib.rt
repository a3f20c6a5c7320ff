//! The requests of brokers: registration, heartbeats and their end; and the fencing of a broker that isn't heard of.
#![tactic(auto)]

mod broker_heartbeat;
mod broker_registration;
mod contacts;
mod elections;
mod expiry;
mod unregister_broker;

pub use broker_heartbeat::BrokerHeartbeatHandler;
pub use broker_registration::BrokerRegistrationHandler;
pub use contacts::hear;
pub use expiry::fence;
pub use unregister_broker::UnregisterBrokerHandler;
