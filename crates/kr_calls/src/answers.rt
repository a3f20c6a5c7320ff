//! What the writes of clients come to.

ghost use Rattle.std.specs.Prelude.{◌≡◌, IfOk};

use crate::{Call, Reply};
use kr_base::{NoMemory, Shared};
use kr_defs::Basis;

/// How a client's write ended.
#[derive(Clone, Copy, Debug, Drop, PartialEq, Eq)]
pub enum AnswerKind {
    /// It was decided, and all that it rests on is committed.
    Stands,
    /// This controller doesn't lead, or led no more before that was committed.
    Lost,
    /// The client has seen more of the log than this controller has.
    Ahead,
    /// The log takes no more.
    Exhausted,
}

/// What was decided of a client's write.
#[derive(Drop)]
pub struct Answered {
    /// The client's number, from 1.
    pub seat: u32,
    /// What was asked.
    pub call: Call,
    /// The number of the call among those of the client.
    pub ticket: u64,
    /// The place in the log up to which the client had seen it.
    pub floor: i64,
    /// The place in the log where its records begin.
    pub place: i64,
    /// How many records it gave.
    pub count: u32,
    /// What the decision rested on besides the image; its time is that of the decision.
    pub basis: Basis,
    /// What the client is told.
    pub reply: Reply,
}

/// The answer to a client's write.
#[derive(Drop)]
pub struct Answer {
    /// The client's number, from 1.
    pub seat: u32,
    /// The number of the call among those of the client.
    pub ticket: u64,
    /// The place at which the log ended, with what isn't committed, when the write came.
    pub place: i64,
    /// How it ended.
    pub kind: AnswerKind,
    /// What was decided; there exactly where the write stands or was lost.
    pub answered: Option<Shared<Answered>>,
}

impl Answer {
    /// The same answer once more. It takes no memory, and is refused only where as many hold it as can be counted.
    pub fn again(&self) -> Result<Answer, NoMemory>
        ensures { IfOk result (λ answer. answer ≡ self.now) }
    {
        let answered = match &self.answered {
            Some(answered) => Some(answered.again()?),
            None => None,
        };
        Ok(Answer {
            seat: self.seat,
            ticket: self.ticket,
            place: self.place,
            kind: self.kind,
            answered,
        })
    }
}
