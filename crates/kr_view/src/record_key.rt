//! Records of an image by their keys.

ghost use Rattle.std.specs.Prelude.{◌≡◌};
ghost use Rattle.kr_view.specs.RecordPages.{rank_of_key, record_key_order};

use kr_defs::Text;
use std::cmp::Ordering;

/// Which record of an image it is. The keys are ordered as an image's records are written: features by name, brokers by id,
/// topics by name with the partitions of each by index behind it, and settings by type, resource name and key.
#[derive(Debug, Drop)]
pub enum RecordKey {
    /// The level of a feature.
    Feature {
        /// The feature's name.
        name: Text,
    },
    /// A broker's registration.
    Broker {
        /// The broker's id.
        id: i32,
    },
    /// A topic.
    Topic {
        /// The topic's name.
        name: Text,
    },
    /// A partition.
    Partition {
        /// The name of its topic.
        topic: Text,
        /// Its index in the topic.
        index: i32,
    },
    /// A setting.
    Setting {
        /// The type of its resource: 2 a topic, 4 a broker.
        kind: i8,
        /// The name of the resource.
        name: Text,
        /// The setting's name.
        key: Text,
    },
}

impl RecordKey {
    /// Which of two records stands first in an image, by the order in which its records are written.
    pub fn compare(&self, other: &RecordKey) -> Ordering
        ensures { result ≡ record_key_order self.now other.now }
    {
        let section = self.section().cmp(&other.section());
        let kind = self.kind().cmp(&other.kind());
        let name = self.name().cmp(other.name());
        let key = self.key().cmp(other.key());
        let number = self.number().cmp(&other.number());
        section.then(kind.then(name.then(key.then(number))))
    }

    fn section(&self) -> u8
        ensures { result ≡ (rank_of_key self.now).section }
    {
        match self {
            RecordKey::Feature { .. } => 0,
            RecordKey::Broker { .. } => 1,
            RecordKey::Topic { .. } | RecordKey::Partition { .. } => 2,
            RecordKey::Setting { .. } => 3,
        }
    }

    fn kind(&self) -> i8
        ensures { result ≡ (rank_of_key self.now).kind }
    {
        match self {
            RecordKey::Setting { kind, .. } => *kind,
            _ => 0,
        }
    }

    fn name(&self) -> &[u8]
        ensures { result.now ≡ (rank_of_key self.now).name }
    {
        match self {
            RecordKey::Feature { name } | RecordKey::Topic { name } => name.as_bytes(),
            RecordKey::Broker { .. } => b"",
            RecordKey::Partition { topic, .. } => topic.as_bytes(),
            RecordKey::Setting { name, .. } => name.as_bytes(),
        }
    }

    fn key(&self) -> &[u8]
        ensures { result.now ≡ (rank_of_key self.now).key }
    {
        match self {
            RecordKey::Setting { key, .. } => key.as_bytes(),
            _ => b"",
        }
    }

    fn number(&self) -> Option<i32>
        ensures { result ≡ (rank_of_key self.now).number }
    {
        match self {
            RecordKey::Broker { id } => Some(*id),
            RecordKey::Partition { index, .. } => Some(*index),
            _ => None,
        }
    }
}
