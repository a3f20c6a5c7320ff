//! The answers that every crate shares.

ghost use Rattle.std.specs.Prelude.{◌≡◌};

use std::alloc::{AllocError, AllocFailed};

/// A growth was refused: there was no memory for it.
#[derive(Clone, Copy, Debug, Drop, PartialEq, Eq)]
pub struct NoMemory;

impl From<AllocError> for NoMemory {
    ghost from_gives = { λ _ answer. answer ≡ record {} };

    fn from(_refused: AllocError) -> NoMemory {
        NoMemory
    }
}

impl<T: Drop> From<AllocFailed<T>> for NoMemory {
    ghost from_gives = { λ _ answer. answer ≡ record {} };

    fn from(_refused: AllocFailed<T>) -> NoMemory {
        NoMemory
    }
}

/// The epoch isn't kept.
#[derive(Clone, Copy, Debug, Drop, PartialEq, Eq)]
pub struct NoEpoch;

/// A call of an outside object failed, and the object counted the fault.
#[derive(Clone, Copy, Debug, Drop, PartialEq, Eq)]
pub struct Failed;
