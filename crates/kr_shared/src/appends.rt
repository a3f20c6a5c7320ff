//! The quorum is given what a step appends.

ghost use Rattle.std.specs.Prelude.{◌≡◌};
ghost use Rattle.kr_shared.specs.Appends.{AppendsIf, AppendsOne};

use kr_base::Quorum;
use kr_calls::Output;
use kr_model::Told;

// Gives the quorum the batch of an output, if it is one. False where that failed.
fn append_one<Q: Quorum>(quorum: &mut Q, told: &Told) -> bool
    ensures { AppendsOne (Q.pieces quorum.old) (Q.pieces quorum.new) (Q.faults quorum.old)
        (Q.faults quorum.new) told.now result }
{
    match &told.output {
        Output::Append { bytes } => quorum.append(bytes.as_slice()).is_ok(),
        _ => true,
    }
}

/// Gives the quorum the batch of an output, if it is one and none before it failed. False where one failed.
pub(crate) fn append_if<Q: Quorum>(quorum: &mut Q, so_far: bool, told: &Told) -> bool
    ensures { AppendsIf so_far (Q.pieces quorum.old) (Q.pieces quorum.new) (Q.faults quorum.old)
        (Q.faults quorum.new) told.now result }
{
    if so_far {
        append_one(quorum, told)
    } else {
        false
    }
}
