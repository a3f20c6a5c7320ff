//! A quorum at the other end of a link: it leads, has an event refused, commits each batch, and asks for an image meanwhile.

use kr_base::{MemorySink, MemorySource, NoMemory};
use kr_fold::fold;
use std::alloc::Global;
use std::io;
use std::io::{Read, Write};
use std::net::{TcpListener, TcpStream};

/// How many clients there are, each with one write that appends a batch.
pub(crate) const CLIENTS: u8 = 3;

// Lead in epoch 1 from place 0 at time 0, a Commit in an epoch that isn't led, a question for the image, and End.
const LEAD: [u8; 25] =
    *b"\x00\x00\x00\x15\x02\x00\x00\x00\x01\x00\x00\x00\x00\x00\x00\x00\x00\x00\x00\x00\x00\x00\x00\x00\x00";

const BAD_COMMIT: [u8; 17] =
    *b"\x00\x00\x00\x0d\x03\x00\x00\x00\x09\x00\x00\x00\x00\x00\x00\x00\x00";

const IMAGE: [u8; 5] = *b"\x00\x00\x00\x01\x09";

const END: [u8; 5] = *b"\x00\x00\x00\x01\x0a";

// The bodies of the refusals of the link's events number 2 and 6: epoch 9 isn't led, 1 is. A question for an image has no
// number.
const REFUSED: [u8; 33] =
    *b"\x00\x00\x00\x00\x00\x00\x00\x02\x02\x00\x00\x00\x00\x00\x00\x00\x09\x00\x00\x00\x00\x00\x00\x00\x01\x00\x00\x00\x00\x00\x00\x00\x00";

const REFUSED_AGAIN: [u8; 33] =
    *b"\x00\x00\x00\x00\x00\x00\x00\x06\x02\x00\x00\x00\x00\x00\x00\x00\x09\x00\x00\x00\x00\x00\x00\x00\x01\x00\x00\x00\x00\x00\x00\x00\x00";

// Kinds of frames.
const APPEND: u8 = 0x81;

const REFUSAL: u8 = 0x83;

const IMAGE_TEXT: u8 = 0x84;

// An image of one setting has fewer bytes.
const ROOM: usize = 4_096;

// The Commit that goes up to a place.
fn commit(place: u8) -> [u8; 17] {
    let mut frame = *b"\x00\x00\x00\x0d\x03\x00\x00\x00\x01\x00\x00\x00\x00\x00\x00\x00\x00";
    frame[16] = place;
    frame
}

// What came over the link: the batches one behind the other, where each begins and the last ends, images, and refusals.
#[derive(Drop)]
struct Seen {
    // How many batches came, each of them committed.
    place: u8,
    log: Vec<u8>,
    ends: Vec<usize>,
    images: Vec<Vec<u8>>,
    refusals: Vec<Vec<u8>>,
}

impl Seen {
    fn nothing(alloc: Global) -> Seen {
        Seen {
            place: 0,
            log: Vec::new(alloc),
            ends: Vec::new(alloc),
            images: Vec::new(alloc),
            refusals: Vec::new(alloc),
        }
    }
}

// The kind of the frame that comes next, and what follows it.
fn next_frame(alloc: Global, mut stream: &TcpStream) -> io::Result<(u8, Vec<u8>)> {
    let mut head = [0; 5];
    stream.read_exact(&mut head)?;
    let size = u32::from_be_bytes([head[0], head[1], head[2], head[3]]);
    let mut body = vec![in alloc; 0; size.saturating_sub(1) as usize]?;
    stream.read_exact(body.as_mut_slice())?;
    Ok((head[4], body))
}

// The batch is committed. Behind the first of them an image is asked for, behind the last another.
fn commit_batch(seen: &mut Seen, mut stream: &TcpStream, batch: &[u8]) -> io::Result<()> {
    seen.log.extend_from_slice(batch)?;
    seen.ends.push(seen.log.len())?;
    seen.place = seen.place.saturating_add(1);
    stream.write_all(&commit(seen.place))?;
    if seen.place == 1 || seen.place == CLIENTS {
        stream.write_all(&IMAGE)?;
    }
    Ok(())
}

// A batch, an image or a refusal.
fn take_frame(alloc: Global, stream: &TcpStream, seen: &mut Seen) -> io::Result<()> {
    let (kind, body) = next_frame(alloc, stream)?;
    match kind {
        APPEND => commit_batch(seen, stream, body.as_slice()),
        IMAGE_TEXT => Ok(seen.images.push(body)?),
        REFUSAL => Ok(seen.refusals.push(body)?),
        _ => Ok(()),
    }
}

// Commits each batch as it comes. A client may write before the wrong event is taken, and an image is made beside all else,
// so that the three batches, the two images and the refusal come in any order.
fn commit_all(alloc: Global, stream: &TcpStream, seen: &mut Seen) -> io::Result<()> {
    for _ in 0..CLIENTS + 3 {
        take_frame(alloc, stream, seen)?;
    }
    Ok(())
}

// The one refusal so far is the first.
fn is_refused_once(seen: &Seen) -> bool {
    match seen.refusals.first() {
        Some(told) => seen.refusals.len() == 1 && told.as_slice() == REFUSED.as_slice(),
        None => false,
    }
}

// Nothing else is to come: the next frame is the refusal of a wrong event.
fn is_refused_again(alloc: Global, mut stream: &TcpStream) -> io::Result<bool> {
    stream.write_all(&BAD_COMMIT)?;
    let (kind, told) = next_frame(alloc, stream)?;
    Ok(kind == REFUSAL && told.as_slice() == REFUSED_AGAIN.as_slice())
}

// An image is the fold of the batches up to its place, byte for byte.
fn is_folded(alloc: Global, seen: &Seen, image: &[u8]) -> Result<bool, NoMemory> {
    let place = image.get(7).map_or(0, |place| *place as usize);
    let end = seen.ends.get(place).map_or(0, |end| *end);
    let Some(log) = seen.log.get(..end) else {
        return Ok(false);
    };
    let mut input = MemorySource::new(log.to_vec(alloc)?, Vec::new(alloc));
    let mut output = MemorySink::new(alloc, ROOM, 1, Vec::new(alloc))?;
    let is_whole = fold(alloc, &mut input, &mut output).is_ok();
    Ok(is_whole && output.written() == image)
}

// Leads, sends an event that is refused, commits all, sends another that is refused, and ends the link.
fn lead(alloc: Global, mut stream: &TcpStream, seen: &mut Seen) -> io::Result<bool> {
    seen.ends.push(0)?;
    stream.write_all(&LEAD)?;
    stream.write_all(&BAD_COMMIT)?;
    commit_all(alloc, stream, seen)?;
    let is_told = is_refused_again(alloc, stream)? && is_refused_once(seen);
    stream.write_all(&END)?;
    Ok(is_told)
}

// Each image is a fold of what was committed.
fn are_folded(alloc: Global, seen: &Seen) -> Result<bool, NoMemory> {
    let mut holds = seen.images.len() == 2 && seen.ends.len() == CLIENTS as usize + 1;
    for image in &seen.images {
        holds = is_folded(alloc, seen, image.as_slice())? && holds;
    }
    Ok(holds)
}

/// Is the quorum of the daemon that connects to the listener, and answers whether all was as it should be.
pub(crate) fn be_quorum(alloc: Global, listener: &TcpListener) -> bool {
    let Ok((stream, _)) = listener.accept() else {
        return false;
    };
    let mut seen = Seen::nothing(alloc);
    let is_told = lead(alloc, &stream, &mut seen).unwrap_or(false);
    is_told && are_folded(alloc, &seen).unwrap_or(false)
}
