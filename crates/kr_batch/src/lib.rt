//! Record batches: framing, CRC-32C, encoding and decoding.
#![tactic(auto)]

mod checksum;
mod decoding;
mod encoding;
mod fault;
mod framing;
mod heading;
mod laws;
mod table;

pub use checksum::crc32c;
pub use decoding::decode;
pub use encoding::{encode, put_batch, put_numbered};
pub use fault::{BatchFault, Cause};
pub use heading::{Heading, LEAST_SIZE, START, head};
use kr_defs::Items;
pub use laws::round_trip;

/// Records of consecutive offsets.
#[derive(Debug, Drop)]
pub struct Batch {
    /// The offset of the first record.
    pub base: i64,
    /// The epoch of the leader that wrote it.
    pub epoch: i32,
    /// The greatest time that the leader had seen, in milliseconds.
    pub time: i64,
    /// The records, or the one control record.
    pub items: Items,
}
