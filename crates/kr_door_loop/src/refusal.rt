//! Why a question isn't answered.

ghost use Rattle.std.specs.Prelude.{◌≡◌};
ghost use Rattle.kr_door_loop.specs.declared.refusal.DoorRefusal.TheVariants as refusals;
ghost use Rattle.kr_door_loop.specs.Refusals as named;

use kr_base::NoMemory;
use kr_batch::BatchFault;
use kr_lines::fault_name;
use std::alloc::AllocError;
use thiserror::Error;

/// Why a question isn't answered.
#[derive(Clone, Copy, Debug, Drop, PartialEq, Eq, Error)]
pub enum DoorRefusal {
    /// No kind has this number.
    #[error("no kind has this number")]
    UnknownKind,
    /// The body stands for no question of its kind.
    #[error("the body stands for no question of its kind")]
    BadBody,
    /// The body doesn't begin with the two numbers of an image.
    #[error("no head of an image")]
    NoHead,
    /// No batch begins with this byte of the body.
    #[error("no batch at {at}: {cause}")]
    NoBatch { at: u64, cause: BatchFault },
    /// No batch that may stand there, or no part of an image, begins with this byte.
    #[error("malformed at {at}")]
    Malformed { at: u64 },
    /// A number is below its least.
    #[error("a number is below its least")]
    BadNumber,
    /// A broker stands twice.
    #[error("a broker stands twice")]
    Repeated,
    /// More brokers are asked for than there are.
    #[error("more brokers are asked for than there are")]
    TooFew,
    /// The text is no JSON.
    #[error("the text is no JSON")]
    NotJson,
    /// No request of this key and version is served.
    #[error("no request of this key and version is served")]
    UnknownRequest,
    /// A field is absent, or its JSON has no value of its type.
    #[error("a field is absent or has no value of its type")]
    BadField,
    #[error("out of memory")]
    NoMemory,
}

impl From<NoMemory> for DoorRefusal {
    ghost from_gives = { λ _ refusal. refusal ≡ refusals.NoMemory };

    fn from(_refused: NoMemory) -> DoorRefusal {
        DoorRefusal::NoMemory
    }
}

impl From<AllocError> for DoorRefusal {
    ghost from_gives = { λ _ refusal. refusal ≡ refusals.NoMemory };

    fn from(_refused: AllocError) -> DoorRefusal {
        DoorRefusal::NoMemory
    }
}

/// The place in the body that is at fault, 0 where that is none.
pub(crate) fn refusal_place(refusal: &DoorRefusal) -> u64
    ensures { result ≡ named.refusal_place refusal.now }
{
    match refusal {
        DoorRefusal::NoBatch { at, .. } | DoorRefusal::Malformed { at } => *at,
        _ => 0,
    }
}

/// The name.
pub(crate) fn refusal_name(refusal: &DoorRefusal) -> &'static str
    ensures { result.now ≡ named.refusal_name refusal.now }
{
    match refusal {
        DoorRefusal::UnknownKind => "UnknownKind",
        DoorRefusal::BadBody => "BadBody",
        DoorRefusal::NoHead => "Head",
        DoorRefusal::NoBatch { cause, .. } => fault_name(cause),
        DoorRefusal::Malformed { .. } => "Malformed",
        DoorRefusal::BadNumber => "BadNumber",
        DoorRefusal::Repeated => "Repeated",
        DoorRefusal::TooFew => "TooFew",
        DoorRefusal::NotJson => "NotJson",
        DoorRefusal::UnknownRequest => "UnknownRequest",
        DoorRefusal::BadField => "BadField",
        DoorRefusal::NoMemory => "NoMemory",
    }
}
