//! What an event's outputs say to clients.

ghost use Rattle.std.specs.Prelude.{◌≡◌, ◌≤◌, ◌+◌};
ghost use Rattle.kr_shared.specs.Answers as rules;
ghost use Rattle.kr_shared.specs.Answers.{answering};
ghost use Rattle.kr_shared.specs.Lines.{HasLineRoom};

use crate::asked::Asked;
use crate::line::Line;
use kr_calls::{Call, Output, Reason, Reply};
use kr_defs::Basis;
use kr_model::{Ended, Told};

/// Who asks, the end of the log when it comes, and what the decision rests on.
#[derive(Drop)]
pub(crate) struct Asking {
    pub seat: u32,
    pub ticket: u64,
    pub floor: i64,
    pub place: i64,
    pub basis: Basis,
}

/// What was asked that doesn't wait, with the end of the log when it came.
#[derive(Drop)]
pub(crate) struct Aside {
    pub asked: Asked,
    pub place: i64,
}

/// What was asked, with the end of the log when it came.
pub(crate) fn asked_by(asking: Asking, call: Call) -> Aside
    ensures { result ≡ rules.aside_of asking call }
{
    let Asking {
        seat,
        ticket,
        floor,
        place,
        basis,
    } = asking;
    Aside {
        asked: Asked {
            seat,
            ticket,
            floor,
            call,
            basis,
        },
        place,
    }
}

/// The refusal that came first.
pub(crate) fn or_reason(reason: Option<Reason>, told: &Told) -> Option<Reason>
    ensures { result ≡ rules.or_reason reason told.now }
{
    if reason.is_some() {
        return reason;
    }
    match &told.output {
        Output::Refused { reason, .. } => Some(*reason),
        _ => None,
    }
}

fn reply_in(output: Output) -> Option<Reply>
    ensures { result ≡ rules.reply_in output }
{
    match output {
        Output::Reply { reply, .. } => Some(reply),
        _ => None,
    }
}

// The reply of a write that waited ends it.
fn end_told(line: &mut Line, output: Output, ended: Ended)
    requires { HasLineRoom line.old }
    ensures answered { answering line.new.waiting line.new.due
        ≡ rules.with_ended (answering line.old.waiting line.old.due) output ended }
    ensures fewer { line.new.dues + line.new.waits ≤ line.old.dues + line.old.waits }
    ensures same { line.new.room ≡ line.old.room }
{
    match output {
        Output::Reply { reply, .. } => line.end_first(ended, reply),
        _ => {}
    }
}

// The first reply for which no write waited.
fn or_reply_in(reply: Option<Reply>, output: Output) -> Option<Reply>
    ensures { result ≡ rules.or_reply_in reply output }
{
    match reply {
        Some(reply) => Some(reply),
        None => reply_in(output),
    }
}

/// The reply of a write that waited ends it; of the others the first is kept. It takes no memory.
pub(crate) fn answer_told(line: &mut Line, reply: Option<Reply>, told: Told) -> Option<Reply>
    requires { HasLineRoom line.old }
    ensures reply { result ≡ rules.or_reply reply told }
    ensures answered { answering line.new.waiting line.new.due
        ≡ rules.with_told (answering line.old.waiting line.old.due) told }
    ensures fewer { line.new.dues + line.new.waits ≤ line.old.dues + line.old.waits }
    ensures same { line.new.room ≡ line.old.room }
{
    let Told { output, ended } = told;
    match ended {
        Some(ended) => {
            end_told(line, output, ended);
            reply
        }
        None => or_reply_in(reply, output),
    }
}
