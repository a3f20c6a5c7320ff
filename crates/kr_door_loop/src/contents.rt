//! The frame of an answer.

ghost use Rattle.std.specs.Prelude.{◌≡◌, ◌++◌, ◌∷◌, [], ◌+◌, ◌^◌, ◌<◌, ◌≤◌, length, IfOk, OnOk, IsErrOf, Err};
ghost use Rattle.kr_base.specs.Causes.{Rose};
ghost use Rattle.kr_door_loop.specs.Frames.{AnswerFits, answer_body, answer_bytes, answer_kind, kind_frame};
ghost use Rattle.kr_door_loop.specs.declared.refusal.DoorRefusal.TheVariants as refusals;
ghost use Rattle.kr_door_loop.specs.inner.Steps.{FramesAnswer, PutsAnswer};

use crate::answers::answer;
use crate::refusal::{refusal_name, refusal_place};
use crate::{Answer, DoorRefusal};
use kr_base::{NoMemory, Sink};
use kr_process::Status;
use kr_wire::{put_u32, put_u64};
use std::alloc::Global;

// A kind and a body behind their size, where that can be said.
fn kind_frame(alloc: Global, kind: u8, body: &[u8]) -> Result<Vec<u8>, NoMemory>
    ensures bytes { IfOk result (λ frame. frame.items ≡ kind_frame kind body.now) }
    ensures fits { OnOk result (length body.now + 1 < 2 ^ 32) }
{
    if body.len() >= u32::MAX as usize {
        return Err(NoMemory);
    }
    let mut out = Vec::with_capacity(alloc, body.len() + 5)?;
    put_u32(&mut out, body.len() as u32 + 1)?;
    out.push(kind)?;
    out.extend_from_slice(body)?;
    Ok(out)
}

fn refused_body(alloc: Global, refusal: &DoorRefusal) -> Result<Vec<u8>, NoMemory>
    ensures { IfOk result (λ body. body.items ≡ answer_body (Err refusal.now)) }
{
    let mut out = Vec::new(alloc);
    put_u64(&mut out, refusal_place(refusal))?;
    out.extend_from_slice(refusal_name(refusal).as_bytes())?;
    Ok(out)
}

// The frame of an answer.
#[tactic(auto, unfolding(crate::specs::Frames::answer_bytes))]
fn frame_of(alloc: Global, answer: &Answer) -> Result<Vec<u8>, NoMemory>
    ensures bytes { IfOk result (λ frame. frame.items ≡ answer_bytes answer.now) }
    ensures fits { OnOk result (AnswerFits answer.now) }
{
    match answer {
        Ok(bytes) => kind_frame(alloc, 0, bytes.as_slice()),
        Err(refusal) => {
            let body = refused_body(alloc, refusal)?;
            kind_frame(alloc, 1, body.as_slice())
        }
    }
}

// The frame of the answer, or of the one that there is no memory for it.
#[tactic(auto, using(crate::proofs::Answering::frame_of_answer, crate::proofs::Answering::frame_of_none))]
fn answer_frame(alloc: Global, number: u8, body: &[u8]) -> Result<Vec<u8>, NoMemory>
    ensures { IfOk result (λ frame. FramesAnswer number body.now frame.items) }
{
    let answer = answer(alloc, number, body);
    match frame_of(alloc, &answer) {
        Ok(frame) => Ok(frame),
        Err(_) => {
            let none: Answer = Err(DoorRefusal::NoMemory);
            frame_of(alloc, &none)
        }
    }
}

// Answers a question of the kind with this number, by one put.
#[tactic(auto, using(crate::proofs::Answering::answer_put, crate::proofs::Answering::answer_front, crate::proofs::Answering::keeps_all))]
fn put_number<K: Sink>(alloc: Global, number: u8, body: &[u8], output: &mut K) -> Result<(), Status>
    ensures puts { PutsAnswer (number ∷ body.now) (K.written output.old) (K.written output.new)
        result }
    ensures write { IsErrOf result Status.WriteFault →
        Rose (K.faults output.old) (K.faults output.new) }
    ensures later { K.faults output.old ≤ K.faults output.new }
{
    let frame = match answer_frame(alloc, number, body) {
        Ok(frame) => frame,
        Err(_) => return Err(Status::NoMemory),
    };
    match output.put(frame.as_slice()) {
        Ok(()) => Ok(()),
        Err(_failed) => Err(Status::WriteFault),
    }
}

/// Answers what a frame has behind its size, by one put.
pub(crate) fn put_answer<K: Sink>(
    alloc: Global,
    content: &[u8],
    output: &mut K,
) -> Result<(), Status>
    requires { 0 < length content.now }
    ensures puts { PutsAnswer content.now (K.written output.old) (K.written output.new) result }
    ensures write { IsErrOf result Status.WriteFault →
        Rose (K.faults output.old) (K.faults output.new) }
    ensures later { K.faults output.old ≤ K.faults output.new }
{
    match content {
        [] => unreachable!(),
        [number, body @ ..] => put_number(alloc, *number, body, output),
    }
}
