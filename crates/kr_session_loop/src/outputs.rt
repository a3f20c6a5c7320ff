//! An event is taken, and its outputs are written.

ghost use Rattle.std.specs.Prelude.{◌≡◌, [], ◌∷◌, ◌≤◌, List, OnOk, OnErr, IsErrOf, IsTrue};
ghost use Rattle.kr_base.specs.Causes.{Rose};
ghost use Rattle.kr_calls.specs.declared.events.Output.{Output as AnyOutput};
ghost use Rattle.kr_model.specs.Engine.{IsSound, writes_in_order, outputs_left};
ghost use Rattle.kr_session_loop.specs.Endings.{WroteAll, WroteSome};
ghost use Rattle.kr_session_loop.specs.inner.Serving.{Drains, Serves, WritesSomeOf};

use kr_base::{Sink, Steps};
use kr_calls::{Event, Output};
use kr_engine::Engine;
use kr_stream::{WriteFault, write_frame};
use std::alloc::Global;
use std::sync::ledger::Ledger;

// Writes an output, which is used up.
fn write_output<K: Sink>(alloc: Global, output: Output, sink: &mut K) -> Result<(), WriteFault>
    ensures ok { OnOk result (WroteAll (K.written sink.old) (K.written sink.new) (output ∷ [])) }
    ensures err { OnErr result (WroteSome (K.written sink.old) (K.written sink.new) (output ∷ [])) }
    ensures failed { IsErrOf result WriteFault.Failed →
        Rose (K.faults sink.old) (K.faults sink.new) }
    ensures later { K.faults sink.old ≤ K.faults sink.new }
{
    write_frame(alloc, &output, sink)
}

// Writes all outputs of the last event, in order.
fn write_outputs<K: Sink>(
    alloc: Global,
    engine: &mut Engine,
    sink: &mut K,
) -> Result<(), WriteFault>
    requires { IsTrue (writes_in_order engine.old.held) }
    ensures ok { OnOk result ((given : List AnyOutput) × Drains engine.old engine.new given ×
        WroteAll (K.written sink.old) (K.written sink.new) given) }
    ensures err { OnErr result
        (WroteSome (K.written sink.old) (K.written sink.new) (outputs_left engine.old)) }
    ensures failed { IsErrOf result WriteFault.Failed →
        Rose (K.faults sink.old) (K.faults sink.new) }
    ensures later { K.faults sink.old ≤ K.faults sink.new }
{
    while let Some(output) = engine.next_output() {
        match write_output(alloc, output, sink) {
            Err(fault) => return Err(fault),
            Ok(()) => {}
        }
    }
    Ok(())
}

/// Takes an event, and writes what the controller gives out for it. All outputs of earlier events are handed out.
pub(crate) fn serve_event<L: Ledger, K: Sink>(
    alloc: Global,
    engine: &mut Engine,
    event: &Event,
    steps: &mut Steps<L>,
    sink: &mut K,
) -> Result<(), WriteFault>
    requires sound { IsSound engine.old }
    requires drained { outputs_left engine.old ≡ [] }
    ensures ok { OnOk result (Serves engine.old engine.new event.now (K.written sink.old)
        (K.written sink.new)) }
    ensures err { OnErr result
        (WritesSomeOf engine.old event.now (K.written sink.old) (K.written sink.new)) }
    ensures failed { IsErrOf result WriteFault.Failed →
        Rose (K.faults sink.old) (K.faults sink.new) }
    ensures later { K.faults sink.old ≤ K.faults sink.new }
{
    match engine.step(event, steps) {
        Err(_) => Err(WriteFault::NoMemory),
        Ok(()) => write_outputs(alloc, engine, sink),
    }
}
