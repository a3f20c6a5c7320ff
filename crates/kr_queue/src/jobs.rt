//! What the worker is to do.

use kr_calls::{Call, Event};

/// What the worker is to do next. The first two kinds are the link's jobs, and the others name their client's seat.
#[derive(Drop)]
pub enum Job {
    /// The quorum or the clock has an event for the controller: no request, and no question for the image.
    Link {
        event: Event,
    },
    /// The worker is to stop.
    Stop {
        /// Which stop it is.
        number: u64,
    },
    /// A client's write.
    Write {
        /// The client's number, from 1.
        seat: u32,
        /// The number of this call among those of the seat.
        ticket: u64,
        /// The place in the log up to which the client has seen it.
        floor: i64,
        /// What is asked: one of the requests that may give records.
        call: Call,
    },
    /// A client wants the end of the log to be kept, with its image.
    Pin {
        /// The client's number, from 1.
        seat: u32,
        /// The number of this call among those of the seat.
        ticket: u64,
        /// The place in the log up to which the client has seen it.
        floor: i64,
    },
    /// A client gives a place back.
    Unpin {
        /// The client's number, from 1.
        seat: u32,
        /// The number of this call among those of the seat.
        ticket: u64,
        /// The place in the log up to which the client has seen it.
        floor: i64,
        /// The place that was kept.
        place: i64,
    },
}
