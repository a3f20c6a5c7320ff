//! The quorum at the other end of the link.

use crate::events::rest;
use crate::line::{Line, copy_of};
use crate::link_images::LinkImages;
use kr_base::{Failed, NoMemory, Quorum};
use kr_calls::{Output, Reason};
use kr_shared::ClientSeat;
use kr_stream::WriteFault;
use std::alloc::Global;
use std::net::TcpStream;
use std::sync::Wait;
use std::time;

/// The quorum at the other end of the link.
#[derive(Drop)]
pub struct LinkQuorum<R: Wait + time::Clock + Copy> {
    rt: R,
    alloc: Global,
    line: Line,
    faults: u64,
}

impl<R: Wait + time::Clock + Copy> LinkQuorum<R> {
    /// A quorum that is written to by this stream.
    pub fn new(rt: R, alloc: Global, stream: TcpStream) -> Result<LinkQuorum<R>, NoMemory> {
        Ok(LinkQuorum {
            rt,
            alloc,
            line: Line::new(alloc, stream)?,
            faults: 0,
        })
    }

    /// What the quorum's questions for images are answered from: this seat, and the line.
    pub fn images(&self, seat: ClientSeat) -> Result<LinkImages, NoMemory> {
        LinkImages::new(self.alloc, self.line.again()?, seat)
    }

    // The batch's frame.
    fn put_batch(&self, bytes: &[u8]) -> Result<(), WriteFault> {
        let bytes = copy_of(self.alloc, bytes)?;
        self.line.put(&self.rt, &Output::Append { bytes })
    }

    // The same, again and again where there is no memory for it: nothing was put then, and a failed append ends a leadership.
    fn send_batch(&self, bytes: &[u8]) -> Result<(), Failed> {
        for _ in self.rt.forever() {
            match self.put_batch(bytes) {
                Ok(()) => return Ok(()),
                Err(WriteFault::NoMemory) => rest(&self.rt),
                Err(WriteFault::Failed) => return Err(Failed),
            }
        }
        unreachable!()
    }

    /// Tells the quorum that its event of this number was refused. A write that fails is passed over, since the link then
    /// ends anyway.
    pub fn refuse(&self, event: u64, reason: Reason) -> Result<(), NoMemory> {
        match self.line.put(&self.rt, &Output::Refused { event, reason }) {
            Err(WriteFault::NoMemory) => Err(NoMemory),
            _ => Ok(()),
        }
    }
}

impl<R: Wait + time::Clock + Copy> Quorum for LinkQuorum<R> {
    ghost use Rattle.std.specs.Prelude.{None};

    ghost pieces = { λ _. None };

    ghost faults = { λ s. s.faults };

    fn append(&mut self, bytes: &[u8]) -> Result<(), Failed> {
        match self.send_batch(bytes) {
            Ok(()) => Ok(()),
            Err(fault) => {
                self.faults = self.faults.saturating_add(1);
                Err(fault)
            }
        }
    }

    fn faults(&self) -> u64 {
        self.faults
    }
}
