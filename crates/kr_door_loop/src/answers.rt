//! The answer to a question, by its kind.

ghost use Rattle.std.specs.Prelude.{◌≡◌};
ghost use Rattle.kr_door_loop.specs.Answers.{AnswersKind};
ghost use Rattle.kr_door_loop.specs.Frames.{AnswersQuestion};

use crate::elections::elect_leader;
use crate::images::{image_batches, plan_leaders};
use crate::lines::{show_image, show_log};
use crate::logs::fold_log;
use crate::placements::place_replicas;
use crate::replies::show_reply;
use crate::requests::write_request;
use crate::{Answer, DoorRefusal, QuestionKind};
use std::alloc::Global;

fn answer_of(alloc: Global, kind: QuestionKind, body: &[u8]) -> Answer
    ensures { AnswersKind kind body.now result }
{
    match kind {
        QuestionKind::LogLines => show_log(alloc, body),
        QuestionKind::ImageLines => show_image(alloc, body),
        QuestionKind::Fold => fold_log(alloc, body),
        QuestionKind::ImageBatches => image_batches(alloc, body),
        QuestionKind::Elect => elect_leader(alloc, body),
        QuestionKind::Place => place_replicas(alloc, body),
        QuestionKind::Plan => plan_leaders(alloc, body),
        QuestionKind::Reply => show_reply(alloc, body),
        QuestionKind::Request => write_request(alloc, body),
    }
}

/// The answer to a question of the kind with this number.
#[tactic(auto, using(crate::proofs::Answering::known_answer, crate::proofs::Answering::unknown_answer))]
pub(crate) fn answer(alloc: Global, number: u8, body: &[u8]) -> Answer
    ensures { AnswersQuestion (record { kind = number; body = body.now }) result }
{
    match QuestionKind::with_number(number) {
        Some(kind) => answer_of(alloc, kind, body),
        None => Err(DoorRefusal::UnknownKind),
    }
}
