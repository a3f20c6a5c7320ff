//! Question after question.

ghost use Rattle.std.specs.Prelude.{◌≡◌, ◌≤◌, ◌<◌, IfOk, IsErrOf};
ghost use Rattle.kr_base.specs.Causes.{Rose, Still};
ghost use Rattle.kr_defs.specs.declared.limits.TheConstants.{MOST_SESSION_BYTES};
ghost use Rattle.kr_door_loop.specs.Endings.{AnswersWhole, DoorEnds, RefusesRest};
ghost use Rattle.kr_door_loop.specs.inner.Steps.{Steps};

use crate::contents::put_answer;
use crate::questions::read_frame;
use kr_base::{Sink, Source};
use kr_process::Status;
use std::alloc::Global;

// Takes the frame that begins at `at`, and writes that of its answer. It answers where the next one begins, or how the input
// ends.
#[tactic(auto, using(crate::proofs::Answering::keeps_all, crate::proofs::Going::not_read, crate::proofs::Going::turn_taken, crate::proofs::Going::failed))]
fn answer_next<S: Source, K: Sink>(
    alloc: Global,
    input: &mut S,
    output: &mut K,
    at: u64,
) -> Result<u64, Status>
    requires { at ≤ MOST_SESSION_BYTES }
    ensures steps { Steps at (S.left input.old) (S.left input.new) (K.written output.old)
        (K.written output.new) result }
    ensures further { IfOk result (λ next. (at < next) × (next ≤ MOST_SESSION_BYTES)) }
    ensures read { IsErrOf result Status.ReadFault →
        Rose (S.faults input.old) (S.faults input.new) }
    ensures write { IsErrOf result Status.WriteFault →
        Rose (K.faults output.old) (K.faults output.new) }
    ensures input_later { S.faults input.old ≤ S.faults input.new }
    ensures output_later { K.faults output.old ≤ K.faults output.new }
{
    let content = match read_frame(alloc, input, at) {
        Ok(content) => content,
        Err(status) => return Err(status),
    };
    let next = at + 4 + content.len() as u64;
    match put_answer(alloc, content.as_slice(), output) {
        Ok(()) => Ok(next),
        Err(status) => Err(status),
    }
}

// Answers questions to the end of the input.
fn answer_frames<S: Source, K: Sink>(alloc: Global, input: &mut S, output: &mut K) -> Status
    ensures ends { DoorEnds (S.left input.old) (S.left input.new) (K.written output.old)
        (K.written output.new) result }
    ensures usage { result ≡ Status.Usage → ⊥ }
    ensures read { result ≡ Status.ReadFault → Rose (S.faults input.old) (S.faults input.new) }
    ensures write { result ≡ Status.WriteFault → Rose (K.faults output.old) (K.faults output.new) }
{
    let mut at = 0;
    loop {
        at = match answer_next(alloc, input, output, at) {
            Ok(next) => next,
            Err(status) => return status,
        };
    }
}

/// Answers questions to the end of the input: takes their frames from `input`, and writes that of each answer to `output`
/// before the next one is taken. The status says how it ended, and is never Usage.
pub fn answer_all<S: Source, K: Sink>(alloc: Global, input: &mut S, output: &mut K) -> Status
    // The bytes that were taken and those that were written, at each status.
    ensures ends { DoorEnds (S.left input.old) (S.left input.new) (K.written output.old)
        (K.written output.new) result }
    ensures usage { result ≡ Status.Usage → ⊥ }

    // A fault is told only where that object's count rose in this call.
    ensures read { result ≡ Status.ReadFault → Rose (S.faults input.old) (S.faults input.new) }
    ensures write { result ≡ Status.WriteFault → Rose (K.faults output.old) (K.faults output.new) }

    // Where no read and no write failed: whole frames are answered, and a broken stream is refused at its first frame that
    // doesn't stand.
    ensures complete { Still (S.faults input.old) (S.faults input.new) →
        Still (K.faults output.old) (K.faults output.new) →
        AnswersWhole (S.left input.old) result }
    ensures broken { Still (S.faults input.old) (S.faults input.new) →
        Still (K.faults output.old) (K.faults output.new) → RefusesRest (S.left input.old) result }
{
    answer_frames(alloc, input, output)
}
