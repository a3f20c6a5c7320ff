//! What a client's seat is told.

ghost use Rattle.std.specs.Prelude.{◌≡◌, IfOk};
ghost use Rattle.kr_calls.specs.SeatList.{entry_seat, entry_ticket};

use crate::{Answer, Pin};
use kr_base::NoMemory;

/// What the call of a client's seat came to.
#[derive(Drop)]
pub enum SeatEntry {
    /// A write, or what was refused of the others, is answered.
    Answer {
        /// By this.
        answer: Answer,
    },
    /// A place is kept for the seat.
    Pin {
        /// Which one.
        pin: Pin,
    },
    /// A place is kept for the seat no more.
    Unpin {
        /// Which one.
        pin: Pin,
    },
}

impl SeatEntry {
    /// The client's number, from 1.
    pub fn seat(&self) -> u32
        ensures { result ≡ entry_seat self.now }
    {
        match self {
            SeatEntry::Answer { answer } => answer.seat,
            SeatEntry::Pin { pin } | SeatEntry::Unpin { pin } => pin.seat,
        }
    }

    /// The number of the call among those of the client.
    pub fn ticket(&self) -> u64
        ensures { result ≡ entry_ticket self.now }
    {
        match self {
            SeatEntry::Answer { answer } => answer.ticket,
            SeatEntry::Pin { pin } | SeatEntry::Unpin { pin } => pin.ticket,
        }
    }

    /// The same once more. It takes no memory, and is refused only where as many hold the answer as can be counted.
    pub fn again(&self) -> Result<SeatEntry, NoMemory>
        ensures { IfOk result (λ entry. entry ≡ self.now) }
    {
        match self {
            SeatEntry::Answer { answer } => {
                let answer = answer.again()?;
                Ok(SeatEntry::Answer { answer })
            }
            SeatEntry::Pin { pin } => Ok(SeatEntry::Pin { pin: *pin }),
            SeatEntry::Unpin { pin } => Ok(SeatEntry::Unpin { pin: *pin }),
        }
    }
}
