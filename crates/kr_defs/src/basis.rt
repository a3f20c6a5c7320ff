//! What a controller remembers of time and of brokers besides the image.

use crate::Rows;

/// An unfenced broker, as it was heard of last.
#[derive(Clone, Copy, Debug, Drop, PartialEq, Eq)]
pub struct Contact {
    /// The broker's id.
    pub broker: i32,
    /// When it was heard of, in milliseconds.
    pub time: i64,
    /// The place of the log up to which it said that it had read, -1 before it said any.
    pub offset: i64,
}

/// The unfenced brokers, the one first that was heard of longest ago.
pub type Contacts = Rows<Contact>;

/// A broker that is stopping.
#[derive(Clone, Copy, Debug, Drop, PartialEq, Eq)]
pub struct Stopping {
    /// The broker's id.
    pub broker: i32,
    /// The tip of the log when it began to stop.
    pub tip: i64,
}

/// The stopping brokers, the one first that began longest ago.
pub type Stops = Rows<Stopping>;

/// What decisions rest on besides the image.
#[derive(Debug, Drop)]
pub struct Basis {
    /// The greatest time of any event so far, in milliseconds.
    pub time: i64,
    /// The place at which this node began to lead, 0 before it ever did.
    pub led: i64,
    /// Whom it hears of.
    pub contacts: Contacts,
    /// Of them those that are stopping.
    pub stopping: Stops,
}
