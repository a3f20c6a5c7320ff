//! Why bytes are no record.

ghost use Rattle.std.specs.Prelude.{◌≡◌};
ghost use Rattle.kr_record.specs.Answers.{of_read_fault};

use kr_layout::ReadFault;
use kr_wire::WireFault;
use thiserror::Error;

/// The first fault of bytes that stand for no record, or want of memory.
#[derive(Clone, Copy, Debug, Drop, PartialEq, Eq, Error)]
pub enum RecordFault {
    #[error("{0}")]
    Wire(WireFault),
    #[error("the frame version is {found} and not 1")]
    FrameVersion { found: u32 },
    #[error("no record has the key {key}")]
    UnknownKey { key: u32 },
    #[error("the record of key {key} has no version {version}")]
    UnknownVersion { key: u32, version: u32 },
    /// Bytes are left behind the record.
    #[error("bytes are left behind the record")]
    Trailing,
    #[error("out of memory")]
    NoMemory,
}

impl From<ReadFault> for RecordFault {
    ghost from_gives = { λ f e. e ≡ of_read_fault f };

    fn from(fault: ReadFault) -> RecordFault {
        match fault {
            ReadFault::Wire(fault) => RecordFault::Wire(fault),
            ReadFault::NoMemory => RecordFault::NoMemory,
        }
    }
}
