//! Bytes and their checksum.

ghost use Rattle.std.specs.Prelude.{◌≡◌, vec_len, IfOk};

use kr_batch::crc32c;
use std::alloc::{AllocError, Global};

/// How many bytes the checksum is over.
const SUMMED: u32 = 8 << 20;

/// The numbers from 0 to 250, over and over.
pub(crate) fn numbers(alloc: Global) -> Result<Vec<u8>, AllocError>
    ensures { IfOk result (λ bytes. vec_len bytes ≡ SUMMED) }
{
    let mut bytes = Vec::with_capacity(alloc, SUMMED as usize)?;
    for number in 0..SUMMED {
        bytes.push((number % 251) as u8)?;
    }
    Ok(bytes)
}

/// Sums the bytes so often, each time with another one in front. Whether the sum is the same where that is 0, as at first, and
/// another where it isn't.
pub(crate) fn are_summed(alloc: Global, rounds: u32) -> Result<bool, AllocError> {
    let mut bytes = numbers(alloc)?;
    let sum = crc32c(&bytes);
    for round in 0..rounds {
        begin_with(&mut bytes, (round % 251) as u8);
        if (crc32c(&bytes) == sum) != (round % 251 == 0) {
            return Ok(false);
        }
    }
    Ok(true)
}

fn begin_with(bytes: &mut [u8], number: u8) {
    if let Some(first) = bytes.first_mut() {
        *first = number;
    }
}
