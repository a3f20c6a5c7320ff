//! Where a record stands.

/// Where a record stands in the log, as its batch tells it.
#[derive(Clone, Copy, Debug, Drop, PartialEq, Eq)]
pub struct Place {
    /// The offset of the batch's first record.
    pub base: i64,
    /// The record's number in the batch, from 0.
    pub number: u32,
    /// The epoch of the leader that wrote the batch.
    pub epoch: i32,
    /// The batch's base timestamp, in milliseconds.
    pub time: i64,
}
