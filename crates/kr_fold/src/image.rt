//! An image from its bytes, or the first byte of what is at fault.

ghost use Rattle.std.specs.Prelude.{◌≡◌, ◌≤◌, ◌<◌, ◌++◌, [], length, take, None, IfOk, IfErr, IfSome, List, ℕ};
ghost use Rattle.kr_snapshot.specs.Grammar.{IsImage};
ghost use Rattle.kr_snapshot.specs.Reading.{so_far};
ghost use Rattle.kr_wire.specs.Laws.{IsBytes};
ghost use Rattle.kr_snapshot.specs.ReaderState.{StandsFor};
ghost use Rattle.kr_fold.specs.inner.ImageParts as parts;
ghost use Rattle.kr_fold.specs.inner.ImageParts.{IsFed, IsImageFault, IsNoBatch, IsPart};
ghost use Rattle.kr_fold.specs.SourceBytes.{IsSized};

use crate::batch::read_size;
use crate::fault::ToolFault;
use kr_batch::START;
use kr_image::ImageStore;
use kr_snapshot::{HEAD, ImageFault, Reader};
use std::alloc::Global;

// How many bytes the batch at the front has, where it is whole.
fn batch_len(bytes: &[u8]) -> Option<usize>
    requires { 0 < length bytes.now }
    ensures some { IfSome result (λ len. (len ≤ length bytes.now) × IsSized (take len bytes.now)) }
    ensures none { result ≡ None → IsNoBatch bytes.now }
{
    if bytes.len() < START {
        return None;
    }
    let len = match read_size(bytes) {
        Ok(size) => size as usize + START,
        Err(_) => return None,
    };
    if bytes.len() < len {
        return None;
    }
    Some(len)
}

// Feeds a reader a part that begins with the byte at this place.
fn feed(reader: &mut Reader, part: &[u8], at: usize) -> Result<(), ToolFault>
    ensures { (fed : List ℕ) → StandsFor reader.old fed → IsFed (so_far (fed ++ part.now)) reader.new at result }
{
    match reader.feed(part) {
        Ok(()) => Ok(()),
        Err(fault) => Err(fault_as(fault, at)),
    }
}

// A fault of the part at this place.
fn fault_as(fault: ImageFault, at: usize) -> ToolFault
    ensures { result ≡ parts.fault_as fault at }
{
    match fault {
        ImageFault::NoMemory => ToolFault::NoMemory,
        _ => ToolFault::Malformed { at: at as u64 },
    }
}

// A byte is below 256.
fn are_bytes(bytes: &[u8])
    ensures { IsBytes bytes.now }
{
    let _len = bytes.len();
}

// Feeds the head.
fn feed_head(reader: &mut Reader, bytes: &[u8]) -> Result<usize, ToolFault>
    requires { StandsFor reader.old [] }
    ensures next { IfOk result (λ next. IsPart bytes.now reader.new next) }
    ensures fault { IfErr result (λ fault. IsImageFault bytes.now fault) }
{
    if bytes.len() < HEAD {
        return Err(ToolFault::Malformed { at: 0 });
    }
    let (head, _) = bytes.split_at(HEAD);
    match feed(reader, head, 0) {
        Ok(()) => Ok(HEAD),
        Err(fault) => Err(fault),
    }
}

// Feeds the batch that begins with the byte at this place, and answers where it ends.
fn feed_batch(reader: &mut Reader, bytes: &[u8], at: usize) -> Result<usize, ToolFault>
    requires part { IsPart bytes.now reader.old at }
    requires more { at < length bytes.now }
    ensures next { IfOk result (λ next. IsPart bytes.now reader.new next) }
    ensures further { IfOk result (λ next. at < next) }
    ensures fault { IfErr result (λ fault. IsImageFault bytes.now fault) }
{
    let (_, rest) = bytes.split_at(at);
    let len = match batch_len(rest) {
        Some(len) => len,
        None => return Err(ToolFault::Malformed { at: at as u64 }),
    };
    let (batch, _) = rest.split_at(len);
    match feed(reader, batch, at) {
        Ok(()) => Ok(at + len),
        Err(fault) => Err(fault),
    }
}

// The image that a reader was fed.
fn close(reader: Reader, bytes: &[u8]) -> Result<(i64, ImageStore), ToolFault>
    requires { IsPart bytes.now reader (length bytes.now) }
    ensures image { IfOk result (λ x. IsImage x.0 x.1.tip bytes.now) }
    ensures fault { IfErr result (λ fault. IsImageFault bytes.now fault) }
{
    are_bytes(bytes);
    match reader.finish() {
        Ok(image) => Ok(image),
        Err(fault) => Err(fault_as(fault, bytes.len())),
    }
}

/// The offset and the store of the image that all of the bytes stand for.
pub(crate) fn read_image(alloc: Global, bytes: &[u8]) -> Result<(i64, ImageStore), ToolFault>
    ensures image { IfOk result (λ x. IsImage x.0 x.1.tip bytes.now) }
    ensures fault { IfErr result (λ fault. IsImageFault bytes.now fault) }
{
    let mut reader = Reader::new(alloc);
    let mut at = match feed_head(&mut reader, bytes) {
        Ok(at) => at,
        Err(fault) => return Err(fault),
    };
    while at < bytes.len() {
        at = match feed_batch(&mut reader, bytes, at) {
            Ok(next) => next,
            Err(fault) => return Err(fault),
        };
    }
    close(reader, bytes)
}
