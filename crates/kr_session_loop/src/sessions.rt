//! One session: frames in, outputs out.

ghost use Rattle.std.specs.Prelude.{◌≡◌, [], ◌<◌, ◌≤◌, ℕ, List, Option, IfOk, IfErr, OnOk, IsErrOf, IsTrue};
ghost use Rattle.kr_base.specs.Causes.{Rose, Still};
ghost use Rattle.kr_defs.specs.declared.limits.TheConstants.{MOST_SESSION_BYTES};
ghost use Rattle.kr_defs.specs.OpenOptions.{are_options};
ghost use Rattle.kr_model.specs.Engine as engines;
ghost use Rattle.kr_model.specs.Engine.{IsEngine, IsSound};
ghost use Rattle.kr_model.specs.World.{start};
ghost use Rattle.kr_stream.specs.declared.frame.Frame.TheVariants as frames;
ghost use Rattle.kr_stream.specs.declared.stage.Stage.TheVariants as stages;
ghost use Rattle.kr_stream.specs.Frames.{IsOpen};
ghost use Rattle.kr_stream.specs.Reader.{Took};
ghost use Rattle.kr_session_loop.specs.Endings.{BreaksRightly, EndsWith, RefusesBroken, ServesWhole};
ghost use Rattle.kr_session_loop.specs.inner.Serving.{unread_status, unwritten_status, GoesOnWith, GoesOnFrom, EndsFrom};

use crate::outputs::serve_event;
use kr_base::{Sink, Source, Steps};
use kr_calls::Event;
use kr_defs::Options;
use kr_engine::Engine;
use kr_process::Status;
use kr_stream::{Frame, Reader, StreamFault, WriteFault};
use std::alloc::Global;
use std::marker::Brand;
use std::sync::ledger::{Blank, Ledger};

// The status of a frame that isn't read.
fn unread(fault: StreamFault) -> Status
    ensures { result ≡ unread_status fault }
{
    match fault {
        StreamFault::Malformed { at } => Status::Malformed { at },
        StreamFault::ReadFault => Status::ReadFault,
        StreamFault::NoMemory => Status::NoMemory,
        StreamFault::TooLong => Status::TooLong,
    }
}

// The status of an output that isn't written.
fn unwritten(fault: WriteFault) -> Status
    ensures { result ≡ unwritten_status fault }
{
    match fault {
        WriteFault::Failed => Status::WriteFault,
        WriteFault::NoMemory => Status::NoMemory,
    }
}

// The settings in the first frame of a session.
fn read_options<S: Source>(reader: &mut Reader, input: &mut S) -> Result<Options, Status>
    requires place { reader.old.at ≡ 0 }
    requires stage { reader.old.stage ≡ stages.Unopened }
    ensures fits { IfOk result (λ options. IsTrue (are_options options)) }
    ensures open { IfOk result (λ options. Took (IsOpen options) (S.left input.old)
        (S.left input.new) 0 reader.new.at) }
    ensures stage { OnOk result (reader.new.stage ≡ stages.Opened) }
    ensures stopped { IfErr result (λ status. (written : Option (List ℕ)) →
        EndsWith (S.left input.old) (S.left input.new) written written status) }
    ensures read { IsErrOf result Status.ReadFault →
        Rose (S.faults input.old) (S.faults input.new) }
    ensures write { IsErrOf result Status.WriteFault → ⊥ }
    ensures usage { IsErrOf result Status.Usage → ⊥ }
    ensures later { S.faults input.old ≤ S.faults input.new }
{
    match reader.next(input) {
        Err(fault) => Err(unread(fault)),
        Ok(Frame::Open(options)) => Ok(options),
        Ok(Frame::Event(_)) => unreachable!(),
        Ok(Frame::End) => unreachable!(),
    }
}

// Takes an event whose frame was read, and writes its outputs.
fn take_event<L: Ledger, K: Sink>(
    alloc: Global,
    engine: &mut Engine,
    event: Event,
    steps: &mut Steps<L>,
    output: &mut K,
) -> Result<(), Status>
    requires sound { IsSound engine.old }
    requires drained { engines.outputs_left engine.old ≡ [] }
    ensures goes { GoesOnWith event (K.written output.old)
        (K.written output.new) engine.old engine.new result }
    ensures ready { OnOk result (IsSound engine.new × (engines.outputs_left engine.new ≡ [])) }
    ensures read { IsErrOf result Status.ReadFault → ⊥ }
    ensures write { IsErrOf result Status.WriteFault →
        Rose (K.faults output.old) (K.faults output.new) }
    ensures usage { IsErrOf result Status.Usage → ⊥ }
    ensures later { K.faults output.old ≤ K.faults output.new }
{
    match serve_event(alloc, engine, &event, steps, output) {
        Err(fault) => Err(unwritten(fault)),
        Ok(()) => Ok(()),
    }
}

// Serves one frame behind the first, or tells how the session ends.
fn serve_frame<L: Ledger, S: Source, K: Sink>(
    alloc: Global,
    reader: &mut Reader,
    engine: &mut Engine,
    steps: &mut Steps<L>,
    input: &mut S,
    output: &mut K,
) -> Result<(), Status>
    requires stage { reader.old.stage ≡ stages.Opened }
    requires sound { IsSound engine.old }
    requires drained { engines.outputs_left engine.old ≡ [] }
    ensures goes { GoesOnFrom (S.left input.old) (S.left input.new) (K.written output.old)
        (K.written output.new) engine.old engine.new reader.old.at reader.new.at result }
    ensures ready { OnOk result (IsSound engine.new × (engines.outputs_left engine.new ≡ [])) }
    ensures stage { OnOk result (reader.new.stage ≡ stages.Opened) }
    ensures further { OnOk result ((reader.old.at < reader.new.at) ×
        (reader.new.at ≤ MOST_SESSION_BYTES)) }
    ensures read { IsErrOf result Status.ReadFault →
        Rose (S.faults input.old) (S.faults input.new) }
    ensures write { IsErrOf result Status.WriteFault →
        Rose (K.faults output.old) (K.faults output.new) }
    ensures usage { IsErrOf result Status.Usage → ⊥ }
    ensures input_later { S.faults input.old ≤ S.faults input.new }
    ensures output_later { K.faults output.old ≤ K.faults output.new }
{
    match reader.next(input) {
        Err(fault) => Err(unread(fault)),
        Ok(Frame::Open(_)) => unreachable!(),
        Ok(Frame::Event(event)) => take_event(alloc, engine, event, steps, output),
        Ok(Frame::End) => Err(Status::Done),
    }
}

// Serves the frames behind the first.
fn serve_frames<L: Ledger, S: Source, K: Sink>(
    alloc: Global,
    reader: &mut Reader,
    engine: &mut Engine,
    steps: &mut Steps<L>,
    input: &mut S,
    output: &mut K,
) -> Status
    requires place { reader.old.at ≤ MOST_SESSION_BYTES }
    requires stage { reader.old.stage ≡ stages.Opened }
    requires sound { IsSound engine.old }
    requires drained { engines.outputs_left engine.old ≡ [] }
    ensures ends { EndsFrom (S.left input.old) (S.left input.new) (K.written output.old)
        (K.written output.new) engine.old reader.old.at result }
    ensures read { result ≡ Status.ReadFault → Rose (S.faults input.old) (S.faults input.new) }
    ensures write { result ≡ Status.WriteFault → Rose (K.faults output.old) (K.faults output.new) }
    ensures usage { result ≡ Status.Usage → ⊥ }
{
    loop {
        match serve_frame(alloc, reader, engine, steps, input, output) {
            Err(status) => return status,
            Ok(()) => {}
        }
    }
}

// Serves a session with a counter of steps.
fn serve<L: Ledger, S: Source, K: Sink>(
    alloc: Global,
    input: &mut S,
    output: &mut K,
    blank: Blank,
) -> Status
    requires name { blank.name ≡ L.name }
    requires parts { blank.parts ≡ L.parts }
    requires some { 0 < L.parts }
    ensures ends { EndsWith (S.left input.old) (S.left input.new) (K.written output.old)
        (K.written output.new) result }
    ensures read { result ≡ Status.ReadFault → Rose (S.faults input.old) (S.faults input.new) }
    ensures write { result ≡ Status.WriteFault → Rose (K.faults output.old) (K.faults output.new) }
    ensures usage { result ≡ Status.Usage → ⊥ }
{
    let mut steps: Steps<L> = Steps::new(blank);
    let mut reader = Reader::new(alloc);
    let options = match read_options(&mut reader, input) {
        Err(status) => return status,
        Ok(options) => options,
    };
    let mut engine = match Engine::new(alloc, options) {
        Err(_) => return Status::NoMemory,
        Ok(engine) => engine,
    };
    serve_frames(alloc, &mut reader, &mut engine, &mut steps, input, output)
}

/// Serves a session from its first frame to its end: takes its frames from `input`, and writes those of its outputs to
/// `output`. The status says how it ended, and is never Usage.
pub fn session<S: Source, K: Sink>(alloc: Global, input: &mut S, output: &mut K) -> Status
    // The bytes that were taken and those that were written, at each status.
    ensures ends { EndsWith (S.left input.old) (S.left input.new) (K.written output.old)
        (K.written output.new) result }
    ensures usage { result ≡ Status.Usage → ⊥ }

    // A fault is told only where that object's count rose in this call.
    ensures read { result ≡ Status.ReadFault → Rose (S.faults input.old) (S.faults input.new) }
    ensures write { result ≡ Status.WriteFault → Rose (K.faults output.old) (K.faults output.new) }

    // Where no read and no write failed: a whole session is served, and a broken one is refused at that frame.
    ensures complete { Still (S.faults input.old) (S.faults input.new) →
        Still (K.faults output.old) (K.faults output.new) → ServesWhole (S.left input.old) result }
    ensures broken { Still (S.faults input.old) (S.faults input.new) →
        Still (K.faults output.old) (K.faults output.new) →
        RefusesBroken (S.left input.old) result }

    // Where it is refused, no frame stands.
    ensures breaks { BreaksRightly (S.left input.old) result }
{
    serve::<Brand, S, K>(alloc, input, output, Blank::new(1))
}
