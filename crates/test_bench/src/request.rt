//! Request messages with one list of the smallest elements, and what they ask.

ghost use Rattle.std.specs.Prelude.{◌^◌, ◌<◌, ◌≤◌, IfOk};
ghost use Rattle.kr_req.specs.Messages.{IsAsk};

use kr_base::NoMemory;
use kr_calls::{Ask, Request};
use kr_req::decode;
use kr_wire::put_count;
use std::alloc::{AllocError, Global};

/// How many topics the longest message has: it is of 8,388,608 bytes.
pub(crate) const TOPICS: u32 = 2_796_195;

// ElectLeaders (key 43, version 2) under the correlation id 1 from the client `kr`, for type 0.
const HEAD: [u8; 14] = [0, 43, 0, 2, 0, 0, 0, 1, 0, 2, 0x6B, 0x72, 0, 0];

// A topic with an empty name and no partition.
const TOPIC: [u8; 3] = [1, 1, 0];

// The timeout, and no tagged field.
const TAIL: [u8; 5] = [0; 5];

/// What a request message is.
#[derive(Clone, Copy, Debug, PartialEq, Eq)]
pub(crate) enum Form {
    /// The longest.
    Whole,
    /// Of half as many topics.
    Half,
    /// It promises more topics than it has.
    Promising,
}

impl Form {
    pub(crate) fn name(self) -> &'static str {
        match self {
            Form::Whole => "request",
            Form::Half => "half a request",
            Form::Promising => "short request",
        }
    }

    /// The message.
    pub(crate) fn message(self, alloc: Global) -> Result<Vec<u8>, AllocError> {
        match self {
            Form::Whole => message_of(alloc, TOPICS, TOPICS),
            Form::Half => message_of(alloc, TOPICS / 2, TOPICS / 2),
            Form::Promising => message_of(alloc, TOPICS, 3 * TOPICS),
        }
    }

    /// How many topics its request has, where it is one.
    pub(crate) fn topics(self) -> Option<usize> {
        match self {
            Form::Whole => Some(TOPICS as usize),
            Form::Half => Some(TOPICS as usize / 2),
            Form::Promising => None,
        }
    }
}

/// The message that elects leaders in so many topics, and promises `promised` of them.
fn message_of(alloc: Global, topics: u32, promised: u32) -> Result<Vec<u8>, AllocError>
    requires topics { topics ≤ TOPICS }
    requires promised { promised < 2 ^ 31 }
{
    let mut bytes = Vec::with_capacity(alloc, 3 * topics as usize + 23)?;
    bytes.extend_from_slice(&HEAD)?;
    put_count(&mut bytes, promised)?;
    for _topic in 0..topics {
        bytes.extend_from_slice(&TOPIC)?;
    }
    bytes.extend_from_slice(&TAIL)?;
    Ok(bytes)
}

/// What the message asks.
pub(crate) fn ask(alloc: Global, message: &[u8]) -> Result<Ask, AllocError>
    ensures { IfOk result (λ ask. IsAsk ask message.now) }
{
    match decode(alloc, message) {
        Ok(ask) => Ok(ask),
        Err(NoMemory) => Err(AllocError),
    }
}

/// How many topics leaders are to be elected in, where that is asked.
pub(crate) fn topics_of(ask: &Ask) -> Option<usize> {
    match ask {
        Ask::Call(call) => match &call.request {
            Request::ElectLeaders(request) => match &request.topics {
                Some(topics) => Some(topics.len()),
                None => None,
            },
            _ => None,
        },
        Ask::Bare { .. } => None,
    }
}
