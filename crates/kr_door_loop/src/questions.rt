//! The frame of a question.

ghost use Rattle.std.specs.Prelude.{◌≡◌, ◌+◌, ◌≤◌, ◌<◌, length, IfOk, IfErr, IsErrOf, OnOk};
ghost use Rattle.std.specs.Io.KnownBytes.{Consumes};
ghost use Rattle.kr_base.specs.Causes.{Rose};
ghost use Rattle.kr_intake.specs.Shortages.{FallsShort};
ghost use Rattle.kr_defs.specs.declared.limits.TheConstants.{MOST_SESSION_BYTES};
ghost use Rattle.kr_door_loop.specs.inner.Steps.{StopsAt, TookFrame, TookSize};

use crate::limits::MOST_QUESTION_BYTES;
use kr_base::{NoMemory, Source};
use kr_intake::{Shortage, take};
use kr_process::Status;
use std::alloc::Global;

// What it means that the input ends behind so many bytes of a frame's size.
fn end_status(count: usize, at: u64) -> Status
    ensures end { count ≡ 0 → result ≡ Status.Done }
    ensures cut { 0 < count → result ≡ Status.Malformed at }
{
    if count == 0 {
        Status::Done
    } else {
        Status::Malformed { at }
    }
}

// The size of the frame that begins at `at`, where one begins.
#[tactic(auto, using(crate::proofs::Sizes::ended, crate::proofs::Sizes::size_unread, crate::proofs::Sizes::size_too_long, crate::proofs::Sizes::no_size, crate::proofs::Sizes::large_size, crate::proofs::Sizes::took_size))]
fn read_size<S: Source>(input: &mut S, at: u64) -> Result<u32, Status>
    requires { at ≤ MOST_SESSION_BYTES }
    ensures size { IfOk result (λ size. TookSize at (S.left input.old) (S.left input.new) size) }
    ensures stopped { IfErr result (λ status. StopsAt at (S.left input.old) (S.left input.new)
        status) }
    ensures read { IsErrOf result Status.ReadFault →
        Rose (S.faults input.old) (S.faults input.new) }
    ensures later { S.faults input.old ≤ S.faults input.new }
{
    let mut bytes = [0; 4];
    match take(input, &mut bytes, at) {
        Err(Shortage::Ended { count }) => Err(end_status(count, at)),
        Err(Shortage::ReadFault) => Err(Status::ReadFault),
        Err(Shortage::TooLong) => Err(Status::TooLong),
        Ok(()) => {
            let size = u32::from_be_bytes(bytes);
            if size == 0 {
                return Err(Status::Malformed { at });
            }
            if size as usize > MOST_QUESTION_BYTES {
                return Err(Status::Malformed { at });
            }
            Ok(size)
        }
    }
}

// Room for so many bytes.
fn room(alloc: Global, size: usize) -> Result<Vec<u8>, NoMemory>
    ensures { IfOk result (λ bytes. length bytes.items ≡ size) }
{
    let bytes = vec![in alloc; 0; size]?;
    Ok(bytes)
}

// The bytes behind the size of the frame that begins at `at`, as many as the vector has.
fn fill<S: Source>(input: &mut S, mut content: Vec<u8>, at: u64) -> Result<Vec<u8>, Shortage>
    requires { at + 4 ≤ MOST_SESSION_BYTES }
    ensures full { IfOk result (λ read. Consumes (S.left input.old) (S.left input.new)
        read.items) }
    ensures len { IfOk result (λ read. length read.items ≡ length content.items) }
    ensures room { OnOk result (at + 4 + length content.items ≤ MOST_SESSION_BYTES) }
    ensures short { IfErr result (λ shortage. FallsShort (at + 4) (length content.items)
        (S.left input.old) (S.left input.new) (S.faults input.old) (S.faults input.new) shortage) }
    ensures later { S.faults input.old ≤ S.faults input.new }
{
    match take(input, content.as_mut_slice(), at + 4) {
        Err(shortage) => Err(shortage),
        Ok(()) => Ok(content),
    }
}

/// What stands behind the size in the frame that begins at `at`: the kind, and the body.
#[tactic(auto, using(crate::proofs::Sizes::no_room, crate::proofs::Sizes::cut_content, crate::proofs::Sizes::unread_content, crate::proofs::Sizes::long_content, crate::proofs::Sizes::took_frame))]
pub(crate) fn read_frame<S: Source>(
    alloc: Global,
    input: &mut S,
    at: u64,
) -> Result<Vec<u8>, Status>
    requires { at ≤ MOST_SESSION_BYTES }
    ensures frame { IfOk result (λ content. TookFrame at (S.left input.old) (S.left input.new)
        content.items) }
    ensures stopped { IfErr result (λ status. StopsAt at (S.left input.old) (S.left input.new)
        status) }
    ensures read { IsErrOf result Status.ReadFault →
        Rose (S.faults input.old) (S.faults input.new) }
    ensures later { S.faults input.old ≤ S.faults input.new }
{
    let size = match read_size(input, at) {
        Ok(size) => size,
        Err(status) => return Err(status),
    };
    let content = match room(alloc, size as usize) {
        Ok(content) => content,
        Err(_) => return Err(Status::NoMemory),
    };
    match fill(input, content, at) {
        Err(Shortage::Ended { .. }) => Err(Status::Malformed { at }),
        Err(Shortage::ReadFault) => Err(Status::ReadFault),
        Err(Shortage::TooLong) => Err(Status::TooLong),
        Ok(content) => Ok(content),
    }
}
