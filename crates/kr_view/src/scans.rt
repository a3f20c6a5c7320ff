//! Pages of partitions, as scans give them.

use kr_defs::{Partition, Rows, Text};

/// A partition by the name of its topic and its index.
#[derive(Debug, Drop)]
pub struct ScanKey {
    /// The topic's name.
    pub topic: Text,
    /// The partition's index in its topic.
    pub index: i32,
}

/// A partition with its key.
#[derive(Debug, Drop)]
pub struct PageRow {
    /// The topic's name and the index.
    pub key: ScanKey,
    /// The partition's state.
    pub partition: Partition,
}

/// Partitions in walking order: by the name of their topic in bytes, then by index.
pub type Page = Rows<PageRow>;

/// Why there is no answer at a place of the log.
#[derive(Clone, Copy, Debug, Drop, PartialEq, Eq)]
pub enum ScanFault {
    /// All places that are kept are later ones.
    Gone {
        /// The place that was asked for.
        asked: i64,
        /// The oldest kept place.
        oldest: i64,
    },
    /// The place isn't kept, and an earlier one is.
    NotKept {
        /// The place that was asked for.
        asked: i64,
    },
    /// The reader crate gave the seat no copy.
    NoCopy,
    /// There was no memory for the answer.
    NoMemory,
}
