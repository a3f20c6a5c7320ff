//! How a connection ended.

ghost use Rattle.std.specs.Prelude.{◌≡◌};
ghost use Rattle.kr_server.specs.inner.Serving.{copy_end, refusal_end};

use kr_shared::SubmitFault;
use kr_view::CopyFault;

/// How a connection ended.
#[derive(Clone, Copy, Debug, Drop, PartialEq, Eq)]
pub enum ServeEnd {
    /// The source ended between messages.
    Closed,
    /// The size that begins with the byte at this place of the connection is negative or past the limit, or its message is
    /// cut off.
    Malformed {
        at: u64,
    },
    /// A read failed.
    ReadFault,
    /// A write failed.
    WriteFault,
    /// The most bytes of one connection were taken without its end.
    TooLong,
    /// The worker stops.
    Ended {
        /// Which stop it is.
        number: u64,
    },
    /// The seat has seen more of the log than the controller has.
    Ahead {
        /// The place up to which the seat had seen it.
        floor: i64,
        /// The end of the controller's log.
        tip: i64,
    },
    /// The log takes no more.
    Exhausted {
        /// The end of the log.
        tip: i64,
    },
    /// The seat got no copy to read from.
    NoCopy,
    /// There was no memory.
    NoMemory,
}

/// How a write that the seat refuses ends the connection.
pub(crate) fn refusal_end(fault: SubmitFault) -> ServeEnd
    ensures { result ≡ refusal_end fault }
{
    match fault {
        SubmitFault::Ended { number } => ServeEnd::Ended { number },
        SubmitFault::Ahead { floor, tip } => ServeEnd::Ahead { floor, tip },
        SubmitFault::Exhausted { tip } => ServeEnd::Exhausted { tip },
        SubmitFault::NoMemory => ServeEnd::NoMemory,
    }
}

/// How a read that the seat refuses ends it.
pub(crate) fn copy_end(fault: CopyFault) -> ServeEnd
    ensures { result ≡ copy_end fault }
{
    match fault {
        CopyFault::NoCopy => ServeEnd::NoCopy,
        CopyFault::NoMemory => ServeEnd::NoMemory,
    }
}
