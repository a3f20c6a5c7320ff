//! Why an entry of a request gives no draft.

ghost use Rattle.std.specs.Prelude.{◌≡◌};
ghost use Rattle.kr_rules.specs.declared.refusal.Refusal.TheVariants as refusals;

use kr_base::NoMemory;
use std::alloc::{AllocError, AllocFailed};

/// An entry is refused with Kafka's error number, or there is no memory.
#[derive(Clone, Copy, Debug, Drop, PartialEq, Eq)]
pub enum Refusal {
    /// Kafka's error number.
    Error(i16),
    /// There was no memory.
    NoMemory,
}

impl From<NoMemory> for Refusal {
    ghost from_gives = { λ _ refusal. refusal ≡ refusals.NoMemory };

    fn from(_refused: NoMemory) -> Refusal {
        Refusal::NoMemory
    }
}

impl From<AllocError> for Refusal {
    ghost from_gives = { λ _ refusal. refusal ≡ refusals.NoMemory };

    fn from(_refused: AllocError) -> Refusal {
        Refusal::NoMemory
    }
}

impl<T: Drop> From<AllocFailed<T>> for Refusal {
    ghost from_gives = { λ _ refusal. refusal ≡ refusals.NoMemory };

    fn from(_refused: AllocFailed<T>) -> Refusal {
        Refusal::NoMemory
    }
}
