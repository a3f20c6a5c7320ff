//! Registered brokers.

use crate::{Rows, Text};

/// Where a broker listens.
#[derive(Debug, Drop, PartialEq, Eq)]
pub struct Endpoint {
    /// The listener's name, as `PLAINTEXT`.
    pub name: Text,
    /// The host name or address.
    pub host: Text,
    /// The TCP port.
    pub port: u16,
    /// The security protocol, by Kafka's numbers: 0 plaintext, 1 TLS, 2 SASL, 3 SASL over TLS.
    pub protocol: i16,
}

/// The endpoints of a broker, in the order of its registration.
pub type Endpoints = Rows<Endpoint>;

/// The levels of one feature that a broker supports.
#[derive(Debug, Drop, PartialEq, Eq)]
pub struct Range {
    /// The feature's name, as `metadata.version` (KIP-584).
    pub name: Text,
    /// The lowest level.
    pub min: i16,
    /// The highest level.
    pub max: i16,
}

/// The features of a broker, in the order of its registration.
pub type Ranges = Rows<Range>;

/// The registration of a broker.
#[derive(Debug, Drop, PartialEq, Eq)]
pub struct Broker {
    /// The offset of its registration in the metadata log, which tells it from earlier ones (KIP-631).
    pub epoch: i64,
    /// A UUID that the broker process draws as it starts.
    pub incarnation: u128,
    /// Where it listens.
    pub endpoints: Endpoints,
    /// The levels that it supports.
    pub features: Ranges,
    /// Its rack, where it has one (KIP-36).
    pub rack: Option<Text>,
    /// It leads nothing, and clients don't see it.
    pub fenced: bool,
    /// `InControlledShutdown`: it asked to shut down, and gives up what it leads.
    pub stopping: bool,
}
