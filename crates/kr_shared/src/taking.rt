//! The engine hands out all that it gives for an event.

ghost use Rattle.std.specs.Prelude.{◌≡◌, IsTrue};
ghost use Rattle.kr_model.specs.Engine.{writes_in_order};
ghost use Rattle.kr_shared.specs.Gives.{GivesOne, GivesOut};
ghost use Rattle.kr_shared.specs.Lines.{HasLineRoom};

use crate::answers::{answer_told, or_reason};
use crate::appends::append_if;
use crate::line::Line;
use kr_base::Quorum;
use kr_calls::{Reason, Reply};
use kr_engine::Engine;
use kr_model::Told;

/// What was handed out.
#[derive(Drop)]
pub(crate) struct Given {
    /// No append failed.
    pub appended: bool,
    /// Why the event was refused, if it was.
    pub refusal: Option<Reason>,
    /// The first reply for which no write waited.
    pub reply: Option<Reply>,
}

// One output: the quorum is given a batch, and the reply of a write that waited ends it.
fn give_one<Q: Quorum>(quorum: &mut Q, line: &mut Line, given: Given, told: Told) -> Given
    requires { HasLineRoom line.old }
    ensures { GivesOne (Q.pieces quorum.old) (Q.pieces quorum.new) (Q.faults quorum.old)
        (Q.faults quorum.new) line.old line.new given told result }
{
    let Given {
        appended,
        refusal,
        reply,
    } = given;
    let appended = append_if(quorum, appended, &told);
    let refusal = or_reason(refusal, &told);
    let reply = answer_told(line, reply, told);
    Given {
        appended,
        refusal,
        reply,
    }
}

/// All outputs of the last event, in order. It takes no memory.
#[tactic(auto, using(crate::proofs::Giving::giving_out))]
pub(crate) fn give_out<Q: Quorum>(engine: &mut Engine, quorum: &mut Q, line: &mut Line) -> Given
    requires ordered { IsTrue (writes_in_order engine.old.held) }
    requires room { HasLineRoom line.old }
    ensures { GivesOut engine.old engine.new (Q.pieces quorum.old) (Q.pieces quorum.new)
        (Q.faults quorum.old) (Q.faults quorum.new) line.old line.new result }
{
    let mut given = Given {
        appended: true,
        refusal: None,
        reply: None,
    };
    while let Some(told) = engine.next_told() {
        given = give_one(quorum, line, given, told);
    }
    given
}
