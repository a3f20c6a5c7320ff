//! What a host does with the controller: it hands over one event after the other, and takes all that comes out of each before
//! the next. This one makes its node the leader, registers a broker, commits what was appended, and asks for the image.

ghost use Rattle.std.specs.Prelude.{◌≡◌, ◌<◌, [], OnOk, IfOk};
ghost use Rattle.kr_model.specs.Engine.{IsSound, outputs_left};

use crate::events::{commit_all, lead, options, registration};
use crate::hosting::take;
use kr_base::Steps;
use kr_calls::Event;
use kr_engine::Engine;
use std::alloc::{AllocError, Global};
use std::io::Print;
use std::marker::Brand;
use std::sync::ledger::{Blank, Ledger};

/// Steps the controller, and prints what it gives.
pub(crate) fn print_host<R: Print + AllocGlobal>(rt: &R) -> anyhow::Result<()> {
    host::<Brand, R>(rt, rt.alloc(), Blank::new(1))
}

fn open_engine(alloc: Global) -> Result<Engine, AllocError>
    ensures sound { IfOk result (λ engine. IsSound engine) }
    ensures drained { IfOk result (λ engine. outputs_left engine ≡ []) }
{
    match Engine::new(alloc, options(alloc)?) {
        Ok(engine) => Ok(engine),
        Err(_no_memory) => Err(AllocError),
    }
}

// The node leads, and a broker registers.
fn begin<L: Ledger, R: Print>(
    rt: &R,
    alloc: Global,
    engine: &mut Engine,
    steps: &mut Steps<L>,
) -> anyhow::Result<()>
    requires sound { IsSound engine.old }
    requires drained { outputs_left engine.old ≡ [] }
    ensures sound { OnOk result (IsSound engine.new) }
    ensures drained { OnOk result (outputs_left engine.new ≡ []) }
{
    take(rt, engine, &lead(), steps)?;
    take(rt, engine, &registration(alloc)?, steps)
}

// All that was appended is committed, and the image is asked for.
fn finish<L: Ledger, R: Print>(
    rt: &R,
    engine: &mut Engine,
    steps: &mut Steps<L>,
) -> anyhow::Result<()>
    requires sound { IsSound engine.old }
    requires drained { outputs_left engine.old ≡ [] }
{
    let commit = commit_all(engine);
    take(rt, engine, &commit, steps)?;
    take(rt, engine, &Event::Image, steps)
}

fn host_with<L: Ledger, R: Print>(
    rt: &R,
    alloc: Global,
    engine: &mut Engine,
    blank: Blank,
) -> anyhow::Result<()>
    requires name { blank.name ≡ L.name }
    requires parts { blank.parts ≡ L.parts }
    requires some { 0 < L.parts }
    requires sound { IsSound engine.old }
    requires drained { outputs_left engine.old ≡ [] }
{
    let mut steps: Steps<L> = Steps::new(blank);
    begin(rt, alloc, engine, &mut steps)?;
    finish(rt, engine, &mut steps)
}

fn host<L: Ledger, R: Print>(rt: &R, alloc: Global, blank: Blank) -> anyhow::Result<()>
    requires name { blank.name ≡ L.name }
    requires parts { blank.parts ≡ L.parts }
    requires some { 0 < L.parts }
{
    let mut engine = open_engine(alloc)?;
    host_with::<L, R>(rt, alloc, &mut engine, blank)
}
