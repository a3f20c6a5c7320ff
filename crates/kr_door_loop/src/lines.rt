//! The lines of a log's batches, or of an image.

ghost use Rattle.std.specs.Prelude.{◌≡◌};
ghost use Rattle.kr_lines.specs.Endings.{IsImageHead, IsLogHead};
ghost use Rattle.kr_door_loop.specs.Answers.{ShowsLines};
ghost use Rattle.kr_door_loop.specs.inner.Calls.{of_lines};

use crate::{Answer, DoorRefusal};
use kr_defs::Bytes;
use kr_lines::{ShowFault, image_lines, log_lines};
use std::alloc::Global;

// Bytes that are held end, and nothing is put: of the other faults none is met.
fn lines_refusal(fault: ShowFault) -> DoorRefusal
    ensures { result ≡ of_lines fault }
{
    match fault {
        ShowFault::BadHead => DoorRefusal::NoHead,
        ShowFault::Malformed { at, cause } => DoorRefusal::NoBatch { at, cause },
        ShowFault::NoMemory | ShowFault::ReadFault | ShowFault::WriteFault | ShowFault::TooLong =>
            DoorRefusal::NoMemory,
    }
}

/// The lines of a log's batches.
#[tactic(auto, using(crate::proofs::Calls::not_shown))]
pub(crate) fn show_log(alloc: Global, body: &[u8]) -> Answer
    ensures { ShowsLines IsLogHead body.now result }
{
    match log_lines(alloc, body) {
        Ok(text) => Ok(Bytes::from_vec(text)),
        Err(fault) => Err(lines_refusal(fault)),
    }
}

/// The lines of an image.
#[tactic(auto, using(crate::proofs::Calls::not_shown))]
pub(crate) fn show_image(alloc: Global, body: &[u8]) -> Answer
    ensures { ShowsLines IsImageHead body.now result }
{
    match image_lines(alloc, body) {
        Ok(text) => Ok(Bytes::from_vec(text)),
        Err(fault) => Err(lines_refusal(fault)),
    }
}
