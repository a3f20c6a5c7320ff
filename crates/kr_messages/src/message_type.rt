//! The requests of which messages are known.

ghost use Rattle.std.specs.Prelude.{◌≡◌};
ghost use Rattle.kr_messages.specs.MessageTypes.{known_by};

use kr_req::ApiKey;

/// A request of which messages are known, and of what they are made (Kafka's ApiMessageType).
#[derive(Clone, Copy, Debug, Drop, PartialEq, Eq)]
pub enum ApiMessageType {
    /// One of the requests that are served.
    Served(ApiKey),
    /// Key 75, version 0 (KIP-966).
    DescribeTopicPartitions,
}

impl ApiMessageType {
    /// The request of that number and version, where its messages are known.
    pub fn known_by(number: i16, version: i16) -> Option<ApiMessageType>
        ensures { result ≡ known_by number version }
    {
        if number == 75 && version == 0 {
            return Some(ApiMessageType::DescribeTopicPartitions);
        }
        match ApiKey::served_by(&number, &version) {
            Some(api) => Some(ApiMessageType::Served(api)),
            None => None,
        }
    }
}
