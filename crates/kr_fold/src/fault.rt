//! Why a word of the tool isn't done.

ghost use Rattle.std.specs.Prelude.{◌≡◌};
ghost use Rattle.kr_fold.specs.declared.fault.ToolFault.TheVariants as faults;

use kr_base::NoMemory;
use std::alloc::AllocError;
use thiserror::Error;

/// Why a log isn't folded or an image isn't dumped.
#[derive(Clone, Copy, Debug, Drop, PartialEq, Eq, Error)]
pub enum ToolFault {
    /// No batch that may stand there, or no part of an image, begins with this byte of the input.
    #[error("malformed at {at}")]
    Malformed { at: u64 },
    #[error("a read failed")]
    ReadFault,
    #[error("a write failed")]
    WriteFault,
    #[error("out of memory")]
    NoMemory,
    /// The most bytes of a log were taken without its end.
    #[error("the input is too long")]
    TooLong,
}

impl From<NoMemory> for ToolFault {
    ghost from_gives = { λ _ fault. fault ≡ faults.NoMemory };

    fn from(_refused: NoMemory) -> ToolFault {
        ToolFault::NoMemory
    }
}

impl From<AllocError> for ToolFault {
    ghost from_gives = { λ _ fault. fault ≡ faults.NoMemory };

    fn from(_refused: AllocError) -> ToolFault {
        ToolFault::NoMemory
    }
}
