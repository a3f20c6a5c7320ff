//! Which writes wait, and the replies of those that wait no more.

ghost use Rattle.std.specs.Prelude.{◌≡◌, int_lt, if◌then◌else◌};
ghost use Rattle.kr_model.specs.World as leaderships;
ghost use Rattle.kr_model.specs.Outputs as outputs;
ghost use Rattle.kr_calls.specs.declared.answers.AnswerKind.TheVariants as kinds;

use kr_calls::{AnswerKind, Output};
use kr_model::{Ended, Told, Write};

/// This node leads in the epoch.
pub(crate) fn leads_in(leading: &Option<i32>, epoch: &i32) -> bool
    ensures { result ≡ leaderships.leads_in leading.now epoch.now }
{
    match leading {
        Some(led) => *led == *epoch,
        None => false,
    }
}

/// The leadership that decided the write goes on, and what it needs isn't below the closed end yet.
pub(crate) fn is_open(leading: &Option<i32>, end: &i64, write: &Write) -> bool
    ensures { result ≡ outputs.is_open leading.now end.now write.now }
{
    leads_in(leading, &write.epoch) && *end < write.need
}

// How a write ends that waits no more.
fn end_kind(end: &i64, need: &i64) -> AnswerKind
    ensures { result ≡ (if int_lt end.now need.now then kinds.Lost else kinds.Stands) }
{
    if *end < *need {
        AnswerKind::Lost
    } else {
        AnswerKind::Stands
    }
}

/// The reply of a write that waits no more, and how the write ended.
pub(crate) fn told_reply(end: &i64, write: Write) -> Told
    ensures { result ≡ outputs.told_reply end.now write }
{
    let kind = end_kind(end, &write.need);
    let is_lost = *end < write.need;
    let Write {
        client,
        correlation,
        reply,
        refusal,
        decided,
        ..
    } = write;
    Told {
        output: Output::Reply {
            client,
            correlation,
            reply: if is_lost { refusal } else { reply },
        },
        ended: Some(Ended { kind, decided }),
    }
}

/// An output that no write waited for.
pub(crate) fn told_alone(output: Output) -> Told
    ensures { result ≡ outputs.told_alone output }
{
    Told {
        output,
        ended: None,
    }
}
