//! The kinds of questions.

ghost use Rattle.std.specs.Prelude.{◌≡◌, IfSome, IfNone};
ghost use Rattle.kr_door_loop.specs.declared.kind.QuestionKind.{QuestionKind as Kind};
ghost use Rattle.kr_door_loop.specs.Kinds as kinds;

/// The kind of a question.
#[derive(Clone, Copy, Debug, Drop, PartialEq, Eq)]
pub enum QuestionKind {
    /// Number 1: the lines of a log's batches.
    LogLines,
    /// Number 2: the lines of an image.
    ImageLines,
    /// Number 3: the image that a log's batches make.
    Fold,
    /// Number 4: the batches of an image.
    ImageBatches,
    /// Number 5: who leads a partition.
    Elect,
    /// Number 6: where the replicas of a partition are placed.
    Place,
    /// Number 7: which partitions of an image are to be given back to their preferred leaders.
    Plan,
    /// Number 8: a reply as JSON.
    Reply,
    /// Number 9: the message of a request from JSON.
    Request,
}

impl QuestionKind {
    /// The kind with this number.
    pub fn with_number(number: u8) -> Option<QuestionKind>
        ensures some { IfSome result (λ kind. number ≡ kinds.question_number kind) }
        ensures none { IfNone result ((kind : Kind) → number ≡ kinds.question_number kind → ⊥) }
    {
        match number {
            1 => Some(QuestionKind::LogLines),
            2 => Some(QuestionKind::ImageLines),
            3 => Some(QuestionKind::Fold),
            4 => Some(QuestionKind::ImageBatches),
            5 => Some(QuestionKind::Elect),
            6 => Some(QuestionKind::Place),
            7 => Some(QuestionKind::Plan),
            8 => Some(QuestionKind::Reply),
            9 => Some(QuestionKind::Request),
            _ => None,
        }
    }
}
