//! The image that a log's batches make.

ghost use Rattle.std.specs.Prelude.{◌≡◌, IfErr};
ghost use Rattle.kr_door_loop.specs.Answers.{FoldsLog};
ghost use Rattle.kr_door_loop.specs.inner.Calls.{of_tool};

use crate::held::{Gathered, Held};
use crate::{Answer, DoorRefusal};
use kr_fold::{ToolFault, fold};
use std::alloc::Global;

/// The refusal of a fault. No read of bytes that are held fails, they are shorter than the longest log, and a put fails for
/// want of memory alone.
pub(crate) fn tool_refusal(fault: ToolFault) -> DoorRefusal
    ensures { result ≡ of_tool fault }
{
    match fault {
        ToolFault::Malformed { at } => DoorRefusal::Malformed { at },
        ToolFault::NoMemory | ToolFault::ReadFault | ToolFault::WriteFault | ToolFault::TooLong =>
            DoorRefusal::NoMemory,
    }
}

/// The bytes of the image that a log's batches make, as `fold` writes them.
#[tactic(auto, using(crate::proofs::Calls::folded, crate::proofs::Calls::not_folded))]
pub(crate) fn fold_log(alloc: Global, body: &[u8]) -> Answer
    ensures { FoldsLog body.now result }
{
    let mut input = Held::new(body);
    let mut output = Gathered::new(alloc);
    match fold(alloc, &mut input, &mut output) {
        Ok(()) => Ok(output.into_bytes()),
        Err(fault) => Err(tool_refusal(fault)),
    }
}
