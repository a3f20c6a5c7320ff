//! Why not all of the input is shown.

ghost use Rattle.std.specs.Prelude.{◌≡◌};
ghost use Rattle.kr_lines.specs.declared.fault.ShowFault.TheVariants as faults;

use kr_base::NoMemory;
use kr_batch::BatchFault;
use std::alloc::AllocError;
use thiserror::Error;

/// Why batches aren't shown to the end of the input.
#[derive(Clone, Copy, Debug, Drop, PartialEq, Eq, Error)]
pub enum ShowFault {
    /// The input doesn't begin with the two numbers of an image.
    #[error("no head of an image")]
    BadHead,
    /// No batch begins with this byte of the input.
    #[error("malformed at {at}: {cause}")]
    Malformed { at: u64, cause: BatchFault },
    #[error("a read failed")]
    ReadFault,
    #[error("a write failed")]
    WriteFault,
    #[error("out of memory")]
    NoMemory,
    /// 1,099,511,627,776 bytes were taken without the end of the input.
    #[error("the input is too long")]
    TooLong,
}

impl From<NoMemory> for ShowFault {
    ghost from_gives = { λ _ fault. fault ≡ faults.NoMemory };

    fn from(_refused: NoMemory) -> ShowFault {
        ShowFault::NoMemory
    }
}

impl From<AllocError> for ShowFault {
    ghost from_gives = { λ _ fault. fault ≡ faults.NoMemory };

    fn from(_refused: AllocError) -> ShowFault {
        ShowFault::NoMemory
    }
}
