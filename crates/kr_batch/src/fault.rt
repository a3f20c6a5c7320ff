//! Why bytes are no batch.

ghost use Rattle.std.specs.Prelude.{◌≡◌};
ghost use Rattle.kr_batch.specs.declared.fault.BatchFault.TheVariants as faults;

use kr_record::RecordFault;
use kr_wire::WireFault;
use std::alloc::{AllocError, AllocFailed};
use thiserror::Error;

/// The first fault of bytes that stand for no batch, or want of memory.
#[derive(Clone, Copy, Debug, Drop, PartialEq, Eq, Error)]
pub enum BatchFault {
    /// The bytes end before the fields do, or the length is too small or goes past the bytes.
    #[error("the batch ends too early")]
    Short,
    /// Bytes are left behind the batch.
    #[error("bytes are left behind the batch")]
    Trailing,
    #[error("the magic is {found} and not 2")]
    Magic { found: i8 },
    #[error("the CRC is {stored}, that of the bytes is {counted}")]
    Crc { stored: u32, counted: u32 },
    #[error("the records are compressed, kind {kind}")]
    Compressed { kind: u8 },
    #[error("the count is {count}, the last offset delta {delta}")]
    BadCount { count: i32, delta: i32 },
    /// The base is negative, or the record of this number has another offset delta.
    #[error("the base or the offset of record {at} is wrong")]
    BadOffset { at: u32 },
    #[error("record {at}: {cause}")]
    Record { at: u32, cause: Cause },
    #[error("out of memory")]
    NoMemory,
}

/// What is wrong with a record.
#[derive(Clone, Copy, Debug, Drop, PartialEq, Eq, Error)]
pub enum Cause {
    /// Its lengths, its headers, or bytes left behind the last one.
    #[error("its lengths or its headers are wrong")]
    Framing,
    #[error("its value is wrong: {0:?}")]
    Value(RecordFault),
}

impl From<WireFault> for BatchFault {
    ghost from_gives = { λ _ e. e ≡ faults.Short };

    fn from(_fault: WireFault) -> BatchFault {
        BatchFault::Short
    }
}

impl From<AllocError> for BatchFault {
    ghost from_gives = { λ _ e. e ≡ faults.NoMemory };

    fn from(_refused: AllocError) -> BatchFault {
        BatchFault::NoMemory
    }
}

impl<T: Drop> From<AllocFailed<T>> for BatchFault {
    ghost from_gives = { λ _ e. e ≡ faults.NoMemory };

    fn from(_refused: AllocFailed<T>) -> BatchFault {
        BatchFault::NoMemory
    }
}
