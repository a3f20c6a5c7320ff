//! An event is taken, and its outputs are counted.

ghost use Rattle.std.specs.Prelude.{◌≡◌, [], OnOk, IsTrue, List};
ghost use Rattle.kr_calls.specs.declared.events.Output.{Output as AnyOutput};
ghost use Rattle.kr_session_loop.specs.inner.Serving.{Drains};
ghost use Rattle.kr_model.specs.Engine.{IsSound, outputs_left, writes_in_order};
ghost use Rattle.kr_workload.specs.inner.Counting as counting;
ghost use Rattle.kr_workload.specs.inner.Standing.{HostTakes};

use crate::tally::{Tally, count_event, count_output};
use kr_base::{NoMemory, Steps};
use kr_calls::Event;
use kr_engine::Engine;
use std::sync::ledger::Ledger;

// All outputs of the last event are handed out.
fn hand_out(engine: &mut Engine, tally: &mut Tally)
    requires { IsTrue (writes_in_order engine.old.held) }
    ensures { (given : List AnyOutput) × Drains engine.old engine.new given ×
        (tally.new ≡ counting.with_outputs tally.old given) }
{
    while let Some(output) = engine.next_output() {
        count_output(tally, &output);
    }
}

/// An event happens, and its outputs are handed out. All outputs of earlier ones are.
pub(crate) fn take<L: Ledger>(
    engine: &mut Engine,
    tally: &mut Tally,
    event: &Event,
    steps: &mut Steps<L>,
) -> Result<(), NoMemory>
    requires sound { IsSound engine.old }
    requires drained { outputs_left engine.old ≡ [] }
    ensures { OnOk result (HostTakes engine.old engine.new tally.old tally.new event.now) }
{
    engine.step(event, steps)?;
    count_event(tally, engine.fresh());
    hand_out(engine, tally);
    Ok(())
}
