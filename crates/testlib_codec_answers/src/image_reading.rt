//! An image is read from bytes in pieces.

ghost use Rattle.std.specs.Prelude.{◌<◌, IfSome, length};
ghost use Rattle.kr_snapshot.specs.ReaderState.{Restores};
ghost use Rattle.kr_snapshot.specs.Reading.{image_of};

use kr_image::ImageStore;
use kr_snapshot::{ImageFault, Reader};
use std::alloc::Global;

// The bytes of the offset and the count.
const HEAD: usize = 16;

// The bytes of the base and the size of a batch.
const START: usize = 12;

/// What a reader answers that is fed the bytes in pieces of at most so many.
pub(crate) fn read_in(
    alloc: Global,
    bytes: &[u8],
    most: usize,
) -> Result<(i64, ImageStore), ImageFault>
    ensures { Restores result (image_of bytes.now) }
{
    let mut reader = Reader::new(alloc);
    let mut rest = bytes;
    while !rest.is_empty() {
        let (piece, behind) = rest.split_at(most.max(1).min(rest.len()));
        reader.feed(piece)?;
        rest = behind;
    }
    reader.finish()
}

/// The first byte of the batch that a reader refuses: 0 for the head, and the end where batches are missing. The reader
/// is fed the head and then batch by batch.
pub(crate) fn first_byte(alloc: Global, bytes: &[u8]) -> usize {
    if bytes.len() < HEAD {
        return 0;
    }
    let mut reader = Reader::new(alloc);
    let (head, batches) = bytes.split_at(HEAD);
    if reader.feed(head).is_err() {
        return 0;
    }
    let mut rest = batches;
    while let Some((batch, behind)) = split_batch(rest) {
        if reader.feed(batch).is_err() {
            break;
        }
        rest = behind;
    }
    bytes.len() - rest.len()
}

// The batch at the front and what is behind it, where it is whole.
fn split_batch(bytes: &[u8]) -> Option<(&[u8], &[u8])>
    ensures { IfSome result (λ parts. length parts.1.now < length bytes.now) }
{
    if bytes.len() < START {
        return None;
    }
    let size = u32::from_be_bytes([bytes[8], bytes[9], bytes[10], bytes[11]]) as usize + START;
    if bytes.len() < size {
        return None;
    }
    Some(bytes.split_at(size))
}
