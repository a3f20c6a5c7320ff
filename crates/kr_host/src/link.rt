//! What comes in from the quorum.

use crate::asked_images::AskedImages;
use crate::door::Door;
use crate::events::link_event;
use crate::link_images::LinkImages;
use kr_base::{NoMemory, ReadSource, Source};
use kr_calls::Event;
use kr_flow::HeldSource;
use kr_stream::{Frame, FrameKind, Reader, StreamFault};
use std::alloc::Global;
use std::io::Eprint;
use std::net::TcpStream;
use std::sync::{Arc, Wait};
use std::thread::{JoinHandle, Threads};
use std::{thread, time};

// How the link ended.
#[derive(Clone, Copy, Debug, Drop, PartialEq, Eq)]
enum LinkEnd {
    // By an End frame.
    Ended,
    // The quorum closed it, or cut off a frame.
    Closed,
    // A frame came that is no event of a link.
    Misplaced,
    // No frame was read.
    Fault(StreamFault),
}

// How many bytes stand before a frame's body: its size and its kind.
const HEAD: usize = 5;

// The length of the body of the frame that begins with these bytes, where a link may bring it.
fn body_of(held: &[u8]) -> Option<usize> {
    let [a, b, c, d, number, ..] = held else {
        return None;
    };
    let size = u32::from_be_bytes([*a, *b, *c, *d]);
    let len = (size as usize).checked_sub(1)?;
    let kind = FrameKind::with_number(*number)?;
    if kind.may_stand(true) && len <= kind.longest_body() {
        Some(len)
    } else {
        None
    }
}

// Takes the bytes of the next frame, so that its room is taken as they come and not by its size.
fn hold_frame<S: Source>(source: &mut HeldSource<S>) -> Result<(), NoMemory> {
    source.hold(HEAD)?;
    match body_of(source.held()) {
        Some(len) => source.hold(HEAD.saturating_add(len)),
        None => Ok(()),
    }
}

// The next frame.
fn next_frame<S: Source>(
    frames: &mut Reader,
    source: &mut HeldSource<S>,
) -> Result<Frame, StreamFault> {
    if hold_frame(source).is_err() {
        return Err(StreamFault::NoMemory);
    }
    frames.next(source)
}

// Pushes an event once it has room, or passes on a question for an image; where the link ended by the frame, it answers how.
fn take_frame<R: Wait + time::Clock>(
    rt: &R,
    frame: Frame,
    door: &Door,
    images: &AskedImages,
) -> Option<LinkEnd> {
    match frame {
        Frame::Event(Event::Image) => images.ask(rt),
        Frame::Event(event) => match link_event(event) {
            Some(event) => door.push(rt, event),
            None => return Some(LinkEnd::Misplaced),
        },
        Frame::End => return Some(LinkEnd::Ended),
        Frame::Open(_) => return Some(LinkEnd::Misplaced),
    }
    None
}

// Takes one frame after the other until the link ends. While an event waits for room nothing is read.
fn push_all<R: Wait + time::Clock, S: Source>(
    rt: &R,
    alloc: Global,
    source: &mut HeldSource<S>,
    door: &Door,
    images: &AskedImages,
) -> LinkEnd {
    let mut frames = Reader::link(alloc);
    for _ in rt.forever() {
        match next_frame(&mut frames, source) {
            Ok(frame) => {
                if let Some(end) = take_frame(rt, frame, door, images) {
                    return end;
                }
            }
            Err(StreamFault::Malformed { .. }) if source.is_at_end() => return LinkEnd::Closed,
            Err(fault) => return LinkEnd::Fault(fault),
        }
    }
    unreachable!()
}

// Tells why the link ended, on standard error.
fn tell<R: Eprint>(rt: &R, end: LinkEnd) {
    let _ = match end {
        LinkEnd::Ended => eprintln!(rt; "kr_daemon: the link ended: the quorum ended it"),
        LinkEnd::Closed => eprintln!(rt; "kr_daemon: the link ended: the quorum closed it"),
        LinkEnd::Misplaced => {
            eprintln!(rt; "kr_daemon: the link ended: a frame came that is no event of a link")
        }
        LinkEnd::Fault(fault) => eprintln!(rt; "kr_daemon: the link ended: {fault}"),
    };
}

// Takes the quorum's events until the link ends, and then stops the worker.
fn take_all<R: Wait + Eprint + time::Clock>(
    rt: &R,
    alloc: Global,
    stream: TcpStream,
    door: &Door,
    images: &AskedImages,
) {
    let mut source = HeldSource::new(alloc, ReadSource::new(stream));
    let end = push_all(rt, alloc, &mut source, door, images);
    tell(rt, end);
    images.end(rt);
    door.stop(rt);
}

/// A thread that takes the quorum's events from the stream and pushes them, and passes on its questions for images, until the
/// link ends; then it stops the worker.
pub fn spawn_link<R: Threads + Wait + Eprint + time::Clock + Send + Copy + 'static>(
    rt: R,
    alloc: Global,
    stream: TcpStream,
    door: &Arc<Door, Global>,
    images: &LinkImages,
) -> Result<JoinHandle<()>, NoMemory> {
    let door = Arc::try_clone(door)?;
    let asked = images.questions()?;
    match thread::spawn(&rt, move || take_all(&rt, alloc, stream, &door, &asked)) {
        Ok(thread) => Ok(thread),
        Err(_) => Err(NoMemory),
    }
}
