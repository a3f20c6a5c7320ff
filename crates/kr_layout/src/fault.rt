//! Why bytes are no value.

ghost use Rattle.std.specs.Prelude.{◌≡◌};
ghost use Rattle.kr_layout.specs.declared.fault.ReadFault.TheVariants as reads;

use kr_wire::WireFault;
use std::alloc::{AllocError, AllocFailed};
use thiserror::Error;

/// The first fault of bytes at whose front no value stands, or want of memory.
#[derive(Clone, Copy, Debug, Drop, PartialEq, Eq, Error)]
pub enum ReadFault {
    #[error("{0}")]
    Wire(WireFault),
    #[error("out of memory")]
    NoMemory,
}

/// The first fault of bytes that stand for no value, or want of memory.
#[derive(Clone, Copy, Debug, Drop, PartialEq, Eq, Error)]
pub enum BodyFault {
    #[error("{0}")]
    Wire(WireFault),
    /// Bytes are left behind the value.
    #[error("bytes are left behind the value")]
    Trailing,
    #[error("out of memory")]
    NoMemory,
}

impl From<WireFault> for ReadFault {
    ghost from_gives = { λ f e. e ≡ reads.Wire f };

    fn from(fault: WireFault) -> ReadFault {
        ReadFault::Wire(fault)
    }
}

impl From<AllocError> for ReadFault {
    ghost from_gives = { λ _ e. e ≡ reads.NoMemory };

    fn from(_refused: AllocError) -> ReadFault {
        ReadFault::NoMemory
    }
}

impl<T: Drop> From<AllocFailed<T>> for ReadFault {
    ghost from_gives = { λ _ e. e ≡ reads.NoMemory };

    fn from(_refused: AllocFailed<T>) -> ReadFault {
        ReadFault::NoMemory
    }
}
