//! What the reader of images answers, in words, with what the writer writes for the image that was read.

ghost use Rattle.std.specs.Prelude.{◌≡◌, ◌≤ℤ◌, pos, IfOk, string_bytes};
ghost use Rattle.kr_snapshot.specs.Reading.{image_of};
ghost use Rattle.kr_snapshot.specs.ImageText.{image_text};
ghost use Rattle.testlib_codec_answers.specs.ImageWords.{TellsImage, image_words};

use crate::image_reading::{first_byte, read_in};
use crate::image_words::fault_text;
use kr_image::ImageStore;
use kr_snapshot::{images, write};
use kr_store::At;
use std::alloc::{AllocError, Global};
use testlib_words::join_by_space;

/// The bytes are read as one piece, and then in pieces of so many bytes.
const PIECES: [usize; 4] = [1, 7, 61, 1_000];

/// Why an image has no answer.
#[derive(Clone, Copy, Drop)]
pub enum Unanswered {
    /// In pieces of so many bytes the answer is another one.
    Differs { most: usize },
    /// There was no memory.
    NoMemory,
}

impl From<AllocError> for Unanswered {
    fn from(_refused: AllocError) -> Unanswered {
        Unanswered::NoMemory
    }
}

/// The offset and what is written for the image that the bytes stand for, or their first fault, in any pieces.
pub fn image_answer(alloc: Global, bytes: &[u8]) -> Result<String, Unanswered>
    ensures { IfOk result (λ text. TellsImage (string_bytes text) (image_of bytes.now)) }
{
    let answer = answer_in(alloc, bytes, bytes.len())?;
    for most in PIECES {
        let other = answer_in(alloc, bytes, most)?;
        if other != answer {
            return Err(Unanswered::Differs { most });
        }
    }
    Ok(answer)
}

// The answer to the bytes in pieces of at most so many.
fn answer_in(alloc: Global, bytes: &[u8], most: usize) -> Result<String, AllocError>
    ensures { IfOk result (λ text. TellsImage (string_bytes text) (image_of bytes.now)) }
{
    images();
    match read_in(alloc, bytes, most) {
        Ok((offset, store)) => image_in_words(alloc, offset, &store),
        Err(fault) => {
            let at = first_byte(alloc, bytes);
            fault_text(alloc, fault, at)
        }
    }
}

fn image_in_words(alloc: Global, offset: i64, store: &ImageStore) -> Result<String, AllocError>
    requires { pos 0 ≤ℤ offset }
    ensures { IfOk result (λ text. string_bytes text ≡ image_words offset store.now.tip) }
{
    let bytes = write_again(alloc, offset, store)?;
    let digits = hex::encode(alloc, bytes.as_slice())?;
    let head = format!(in alloc; "ok {offset}")?;
    join_by_space(alloc, &head, &digits)
}

// What is written for the present image.
fn write_again(alloc: Global, offset: i64, store: &ImageStore) -> Result<Vec<u8>, AllocError>
    requires { pos 0 ≤ℤ offset }
    ensures { IfOk result (λ bytes. bytes.items ≡ image_text offset store.now.tip) }
{
    let mut out = Vec::new(alloc);
    match write(alloc, store, At::Tip, offset, &mut out) {
        Ok(()) => Ok(out),
        Err(_) => Err(AllocError),
    }
}
