//! Places of the log that clients keep.

/// A place that a client's seat keeps, or gives back.
#[derive(Clone, Copy, Debug, Drop, PartialEq, Eq)]
pub struct Pin {
    /// The client's number, from 1.
    pub seat: u32,
    /// The number of the call among those of the client.
    pub ticket: u64,
    /// The place in the log.
    pub place: i64,
}
