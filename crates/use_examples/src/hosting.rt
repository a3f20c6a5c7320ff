//! One event at a time, and all outputs of each.

ghost use Rattle.std.specs.Prelude.{◌≡◌, ◌≤◌, [], OnOk};
ghost use Rattle.kr_model.specs.Engine.{IsSound, outputs_left};

use kr_base::Steps;
use kr_calls::{Event, Output};
use kr_engine::Engine;
use std::alloc::AllocError;
use std::io::Print;
use std::sync::ledger::Ledger;

fn print_output<R: Print>(rt: &R, output: &Output) -> anyhow::Result<()> {
    match output {
        Output::Append { bytes } => println!(rt; "append a batch of {} bytes", bytes.len())?,
        Output::Reply {
            client,
            correlation,
            ..
        } => println!(rt; "reply to client {client}, request {correlation}")?,
        Output::Refused { event, reason } => println!(rt; "event {event} is refused: {reason}")?,
        Output::Image { bytes } => println!(rt; "the committed image, {} bytes", bytes.len())?,
    }
    Ok(())
}

// All that the last event gives, in order.
fn hand_out<R: Print>(rt: &R, engine: &mut Engine) -> anyhow::Result<()>
    requires { IsSound engine.old }
    ensures sound { OnOk result (IsSound engine.new) }
    ensures drained { OnOk result (outputs_left engine.new ≡ []) }
{
    while let Some(output) = engine.next_output() {
        print_output(rt, &output)?;
    }
    Ok(())
}

/// Hands an event over, and prints a line for each output. Where the engine finds no memory the program ends, though the engine
/// is as it was before the event.
pub(crate) fn take<L: Ledger, R: Print>(
    rt: &R,
    engine: &mut Engine,
    event: &Event,
    steps: &mut Steps<L>,
) -> anyhow::Result<()>
    requires sound { IsSound engine.old }
    requires drained { outputs_left engine.old ≡ [] }
    ensures sound { OnOk result (IsSound engine.new) }
    ensures drained { OnOk result (outputs_left engine.new ≡ []) }
{
    match engine.step(event, steps) {
        Ok(()) => hand_out(rt, engine),
        Err(_no_memory) => Err(AllocError.into()),
    }
}
