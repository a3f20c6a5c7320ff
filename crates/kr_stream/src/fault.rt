//! Why a frame isn't read or written.

ghost use Rattle.std.specs.Prelude.{◌≡◌};
ghost use Rattle.kr_stream.specs.declared.fault.WriteFault.TheVariants.{NoMemory as MemoryRanOut};

use kr_base::NoMemory;
use thiserror::Error;

/// Why no frame is read.
#[derive(Clone, Copy, Debug, Drop, PartialEq, Eq, Error)]
pub enum StreamFault {
    /// No frame that may stand here begins with the byte at this place of the stream.
    #[error("no frame stands at byte {at}")]
    Malformed { at: u64 },
    #[error("a read failed")]
    ReadFault,
    /// The most bytes of one stream were taken, and the last frame isn't whole.
    #[error("the stream is too long")]
    TooLong,
    #[error("out of memory")]
    NoMemory,
}

/// Why an output isn't written.
#[derive(Clone, Copy, Debug, Drop, PartialEq, Eq, Error)]
pub enum WriteFault {
    #[error("a write failed")]
    Failed,
    /// Memory ran out before anything was written, or the frame is longer than its size field can say.
    #[error("out of memory")]
    NoMemory,
}

impl From<NoMemory> for WriteFault {
    ghost from_gives = { λ _ fault. fault ≡ MemoryRanOut };

    fn from(_refused: NoMemory) -> WriteFault {
        WriteFault::NoMemory
    }
}
