//! What a controller is told, and what it gives out.

use crate::{Answer, Ask, Pin, Reply};
use kr_defs::{Bytes, Ill, Item, Records};
use thiserror::Error;

/// What happens to a controller.
#[derive(Drop)]
pub enum Event {
    /// The quorum made this node the leader of the metadata log.
    Lead {
        /// The epoch of the leadership.
        epoch: i32,
        /// The first place of the log that this leader writes.
        next: i64,
        /// The time in milliseconds.
        now: i64,
    },
    /// The quorum committed this leader's log up to a place.
    Commit {
        /// The epoch of the leadership.
        epoch: i32,
        /// The first place that isn't committed.
        end: i64,
    },
    /// The quorum took the leadership back.
    Lost {
        /// The epoch of the leadership.
        epoch: i32,
    },
    /// A committed record batch of another leader came.
    Batch {
        /// A record batch in Kafka's format, version 2.
        bytes: Bytes,
    },
    /// A committed image came in place of batches.
    Load {
        /// The image's text.
        bytes: Bytes,
    },
    /// Time went on.
    Tick {
        /// The time in milliseconds.
        now: i64,
    },
    /// A client's message came.
    Request {
        /// The client's number, which its reply repeats.
        client: u32,
        /// The time in milliseconds.
        now: i64,
        /// What is asked.
        ask: Ask,
    },
    /// The committed image is asked for.
    Image,
}

impl Event {
    ghost use Rattle.std.specs.Prelude.{◌≡◌};
    ghost use Rattle.kr_calls.specs.LinkEvents as links;

    /// Whether a link brings it: no request, and no question for the image.
    pub fn is_of_link(&self) -> bool
        ensures { result ≡ links.is_link_event self.now }
    {
        match self {
            Event::Request { .. } | Event::Image => false,
            _ => true,
        }
    }
}

/// Why an event is refused. Kafka has no such reasons, they are this controller's own; each has a number in a frame.
#[derive(Clone, Copy, Debug, Drop, PartialEq, Eq, Error)]
pub enum Reason {
    /// The node leads.
    #[error("the node leads, in epoch {ours}")]
    AlreadyLeading {
        /// The led epoch.
        ours: i32,
    },
    /// The node doesn't lead in the epoch that the event is of.
    #[error("epoch {asked} isn't led; the led one is {ours}")]
    NotLeading {
        /// The epoch that the event is of.
        asked: i32,
        /// The led epoch, -1 on standby.
        ours: i32,
    },
    /// The leadership is of no later epoch than an earlier one.
    #[error("epoch {asked} isn't above {greatest}")]
    OldEpoch {
        /// The epoch that the event is of.
        asked: i32,
        /// The greatest epoch that was led, -1 where none was.
        greatest: i32,
    },
    /// The leadership begins elsewhere than at the committed end or one place behind it.
    #[error("the log ends at {end}, so no leader begins at {asked}")]
    BadNext {
        /// The place at which the leadership is to begin.
        asked: i64,
        /// The committed end.
        end: i64,
    },
    /// No batch of the log ends where it is to be committed, or it is committed already.
    #[error("nothing between {committed} and {tip} can be committed up to {asked}")]
    BadCommit {
        /// The place up to which the log is to be committed.
        asked: i64,
        /// The committed end.
        committed: i64,
        /// The tip.
        tip: i64,
    },
    /// The batch begins elsewhere than at the committed end.
    #[error("the batch begins at {found} and not at {expected}")]
    Gap {
        /// The place at which it has to begin.
        expected: i64,
        /// The place at which it begins.
        found: i64,
    },
    /// The bytes are no record batch.
    #[error("no record batch: {0}")]
    BadBatch(BatchRefusal),
    /// A record of the batch has no meaning where it stands.
    #[error("the record at {place} has no meaning: {cause:?}")]
    IllFormed {
        /// The record's place.
        place: i64,
        /// Why it has none.
        cause: Ill,
    },
    /// The image is of an earlier place than the committed end.
    #[error("the image of {asked} is older than the committed end {committed}")]
    OlderImage {
        /// The image's offset.
        asked: i64,
        /// The committed end.
        committed: i64,
    },
    /// The bytes are no image.
    #[error("no image: {0}")]
    BadImage(ImageRefusal),
    /// The log would pass its last place.
    #[error("no event of this kind fits behind {place}")]
    Exhausted {
        /// For a Lead its `next`, for a Batch its end, for a Load its offset, for a Tick and a Request the tip.
        place: i64,
    },
}

/// The first fault of bytes that are no record batch.
#[derive(Clone, Copy, Debug, Drop, PartialEq, Eq, Error)]
pub enum BatchRefusal {
    /// The bytes end before the fields do, or the length is too small or goes past the bytes.
    #[error("it ends too early")]
    Short,
    /// Bytes are left behind the batch.
    #[error("bytes are left behind it")]
    Trailing,
    /// The magic isn't 2.
    #[error("its magic isn't 2")]
    Magic,
    /// The CRC-32C isn't that of the bytes.
    #[error("its CRC is wrong")]
    Crc,
    /// The records are compressed.
    #[error("its records are compressed")]
    Compressed,
    /// The count of records and the last offset delta don't agree.
    #[error("its count of records is wrong")]
    BadCount,
    /// The base is negative, or the record of this number has another offset delta.
    #[error("the base or the offset of record {at} is wrong")]
    BadOffset {
        /// The record's number in the batch, from 0.
        at: u32,
    },
    /// A record's framing or value is wrong.
    #[error("record {at} is wrong")]
    Record {
        /// The record's number in the batch, from 0.
        at: u32,
    },
}

/// The first fault of bytes that are no image. A place is the number of records before.
#[derive(Clone, Copy, Debug, Drop, PartialEq, Eq, Error)]
pub enum ImageRefusal {
    /// The head or a batch is wrong.
    #[error("the batch behind record {place} is wrong")]
    Batch {
        /// The number of records before the batch.
        place: i64,
    },
    /// The records aren't as many as the head says.
    #[error("the count of records is wrong")]
    NoEnd,
    /// The record isn't one of an image, or isn't later in the order than the one before.
    #[error("record {place} is out of order")]
    Order {
        /// The number of records before it.
        place: i64,
    },
    /// The record has no meaning behind those before it.
    #[error("record {place} has no meaning")]
    IllFormed {
        /// The number of records before it.
        place: i64,
    },
}

/// What a controller gives out.
#[derive(Drop)]
pub enum Output {
    /// A record batch that the quorum is to append.
    Append {
        /// In Kafka's format, version 2.
        bytes: Bytes,
    },
    /// A reply to a client.
    Reply {
        /// The client's number.
        client: u32,
        /// The request's correlation id.
        correlation: i32,
        /// What the client is told.
        reply: Reply,
    },
    /// An event had no effect.
    Refused {
        /// The number of the event, from 1.
        event: u64,
        /// Why.
        reason: Reason,
    },
    /// The committed image.
    Image {
        /// The image's text.
        bytes: Bytes,
    },
}

/// What the log gained, with its place; and what the worker tells its clients besides.
pub enum Entry {
    /// An item of the log.
    Item {
        /// The item's offset in the log.
        place: i64,
        /// What stands there.
        item: Item,
    },
    /// An image in place of all that was before.
    Load {
        /// The first place behind the image.
        offset: i64,
        /// The image's records, in the order in which an image's text has them.
        records: Records,
    },
    /// The end of the log is kept for a client, with its image.
    Pin {
        /// For which one, and which place that is.
        pin: Pin,
    },
    /// A client gives a place back.
    Unpin {
        /// Which one, and which place.
        pin: Pin,
    },
    /// A client's write is answered.
    Answer {
        /// By this.
        answer: Answer,
    },
    /// The worker stops.
    Stop {
        /// Which stop it is.
        number: u64,
    },
}

// By hand: a crate that drops one calls this, where a derived drop is made and proved in each such crate anew.
impl Drop for Entry {
    fn drop(self) {
        match self {
            Entry::Item { place, item } => {}
            Entry::Load { offset, records } => {}
            Entry::Pin { pin } => {}
            Entry::Unpin { pin } => {}
            Entry::Answer { answer } => {}
            Entry::Stop { number } => {}
        }
    }
}
