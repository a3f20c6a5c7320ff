//! The images that the quorum asks for.

use crate::asked_images::AskedImages;
use crate::events::rest;
use crate::line::{Line, copy_of};
use kr_base::{MemorySink, NoMemory};
use kr_calls::Output;
use kr_defs::Bytes;
use kr_shared::{ClientSeat, ImageWriteFault, PinFault, SubmitFault, write_image};
use kr_stream::WriteFault;
use kr_view::ScanFault;
use std::alloc::Global;
use std::io::Eprint;
use std::sync::{Arc, Wait};
use std::thread::{JoinHandle, Threads};
use std::{thread, time};
use thiserror::Error;

// How many bytes the first image may have.
const FIRST_ROOM: usize = 1 << 20;

// How many puts an image may have: its head, and one for each batch.
const MOST_PUTS: usize = 1 << 20;

/// A seat of its own, from which images are made, and the line by which they go out.
#[derive(Drop)]
pub struct LinkImages {
    alloc: Global,
    line: Line,
    seat: ClientSeat,
    asked: Arc<AskedImages, Global>,
    // How many were sent.
    made: u64,
    // How many bytes an image may have: as many as the one before had room for.
    room: usize,
}

// How one try to make an image ended.
#[derive(Drop)]
enum Attempt {
    Whole(Bytes),
    // An image took the place of all while it was made, so it is of none.
    Overtaken,
    // It has more bytes than there was room for.
    TooLarge,
}

/// Why no image was sent.
#[derive(Clone, Copy, Debug, Drop, PartialEq, Eq, Error)]
enum ImageFault {
    #[error("the worker was stopped")]
    Stopped,
    #[error("it can't be written to the link")]
    Unwritten,
    #[error("out of memory")]
    NoMemory,
}

impl From<NoMemory> for ImageFault {
    fn from(_refused: NoMemory) -> ImageFault {
        ImageFault::NoMemory
    }
}

impl LinkImages {
    pub(crate) fn new(alloc: Global, line: Line, seat: ClientSeat) -> Result<LinkImages, NoMemory> {
        Ok(LinkImages {
            alloc,
            line,
            seat,
            asked: Arc::new(alloc, AskedImages::new())?,
            made: 0,
            room: FIRST_ROOM,
        })
    }

    /// By which the link's thread asks for images.
    pub(crate) fn questions(&self) -> Result<Arc<AskedImages, Global>, NoMemory> {
        Ok(Arc::try_clone(&self.asked)?)
    }

    // Sends one image after the other, as they are asked for, until the link has ended.
    fn send_all<R: Wait + time::Clock>(&mut self, rt: &R) -> Result<(), ImageFault> {
        for _ in rt.forever() {
            if !self.asked.is_wanted(rt, self.made) {
                return Ok(());
            }
            self.send(rt)?;
            self.made = self.made.wrapping_add(1);
        }
        unreachable!()
    }

    // Sends the image at the closed end as one frame. Where one took the place of all meanwhile, or the room was too small,
    // it is made anew, in the second case with twice the room; where memory ran out, too, after a rest.
    fn send<R: Wait + time::Clock>(&mut self, rt: &R) -> Result<(), ImageFault> {
        for _ in rt.forever() {
            match self.attempt(rt) {
                Ok(Attempt::Whole(bytes)) => match self.put(rt, bytes) {
                    Err(ImageFault::NoMemory) => rest(rt),
                    sent => return sent,
                },
                Ok(Attempt::Overtaken) => {}
                Ok(Attempt::TooLarge) => self.room = self.room.saturating_mul(2),
                Err(ImageFault::NoMemory) => rest(rt),
                Err(fault) => return Err(fault),
            }
        }
        unreachable!()
    }

    fn put<R: Wait>(&self, rt: &R, bytes: Bytes) -> Result<(), ImageFault> {
        match self.line.put(rt, &Output::Image { bytes }) {
            Ok(()) => Ok(()),
            Err(WriteFault::Failed) => Err(ImageFault::Unwritten),
            Err(WriteFault::NoMemory) => Err(ImageFault::NoMemory),
        }
    }

    // Pins the closed end while the image is made.
    fn attempt<R: Wait + time::Clock>(&mut self, rt: &R) -> Result<Attempt, ImageFault> {
        let place = match self.seat.pin(rt) {
            Ok(place) => place,
            Err(PinFault::Submit(SubmitFault::NoMemory)) => return Err(ImageFault::NoMemory),
            Err(_) => return Err(ImageFault::Stopped),
        };
        let attempt = self.image_at(place);
        self.unpin(rt, place)?;
        attempt
    }

    // Gives the pin back: again and again where there is no memory for it.
    fn unpin<R: Wait + time::Clock>(&mut self, rt: &R, place: i64) -> Result<(), ImageFault> {
        for _ in rt.forever() {
            match self.seat.unpin(rt, place) {
                Ok(()) => return Ok(()),
                Err(SubmitFault::NoMemory) => rest(rt),
                Err(_) => return Err(ImageFault::Stopped),
            }
        }
        unreachable!()
    }

    fn image_at(&mut self, place: i64) -> Result<Attempt, ImageFault> {
        let mut sink = MemorySink::new(self.alloc, self.room, MOST_PUTS, Vec::new(self.alloc))?;
        match write_image(self.alloc, &mut self.seat, place, &mut sink) {
            Ok(()) => Ok(Attempt::Whole(copy_of(self.alloc, sink.written())?)),
            Err(ImageWriteFault::WriteFault) => Ok(Attempt::TooLarge),
            Err(ImageWriteFault::Scan(ScanFault::NoMemory) | ImageWriteFault::NoMemory) => {
                Err(ImageFault::NoMemory)
            }
            Err(ImageWriteFault::Scan(_) | ImageWriteFault::Loaded { .. }) => {
                Ok(Attempt::Overtaken)
            }
        }
    }
}

// Sends images until the link has ended; where one can't be sent, it tells why, on standard error.
fn serve<R: Wait + Eprint + time::Clock>(rt: &R, images: LinkImages) {
    let mut images = images;
    if let Err(fault) = images.send_all(rt) {
        let _ = eprintln!(rt; "kr_daemon: no image was sent: {fault}");
    }
}

/// A thread that sends the quorum the images that it asks for, while the link's own goes on.
pub fn spawn_images<R: Threads + Wait + Eprint + time::Clock + Send + Copy + 'static>(
    rt: R,
    images: LinkImages,
) -> Result<JoinHandle<()>, NoMemory> {
    match thread::spawn(&rt, move || serve(&rt, images)) {
        Ok(thread) => Ok(thread),
        Err(_) => Err(NoMemory),
    }
}
