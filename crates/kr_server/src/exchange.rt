//! What a client asked, and what it was replied.

use kr_base::Shared;
use kr_calls::{Answered, Call, Reply};
use kr_pages::{Describe, Described};

/// What a client asked with one message, and what it was replied.
#[derive(Drop)]
pub enum Exchange {
    /// A write, and what was decided of it.
    Write(Shared<Answered>),
    /// A read, and its reply.
    Read {
        call: Call,
        reply: Reply,
    },
    /// A page of the description of topics: of the image at the place, and what it shows.
    Page {
        correlation: i32,
        place: i64,
        describe: Describe,
        described: Described,
    },
    /// A message that was no call and no page, and the error with which it was replied.
    Bare {
        correlation: i32,
        error: i16,
    },
}
