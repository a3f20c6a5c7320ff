//! What a host of several threads does, on one of them: it opens a worker with a client, tells it to stop, and turns it twice.

ghost use Rattle.std.specs.Prelude.{IfOk};
ghost use Rattle.use_examples.specs.StoppedTurns.{IsFresh, ListsTurns};

use crate::events::options;
use kr_base::{MemoryClock, MemoryQuorum, NoMemory, OpenGate};
use kr_shared::{LinkSeat, Turn, WorkerSeat, open};
use kr_view::Opening;
use std::alloc::{AllocError, Global};
use std::io::Print;
use std::sync::Wait;

// Neither a quorum with room for anything nor a clock that goes is wanted for a stop.
#[tactic(auto, using(crate::proofs::StoppedTurns::two_turns))]
fn turn_twice<R: Wait>(
    rt: &R,
    alloc: Global,
    worker: &mut WorkerSeat,
) -> Result<(Turn, Turn), NoMemory>
    requires { IsFresh worker.old }
    ensures { IfOk result (λ turns. ListsTurns worker.new.shown turns.0 turns.1) }
{
    let mut quorum = MemoryQuorum::new(alloc, 0, 0, Vec::new(alloc))?;
    let mut clock = MemoryClock::new(Vec::new(alloc));
    let first = worker.turn(rt, &mut OpenGate, &mut quorum, &mut clock)?;
    let second = worker.turn(rt, &mut OpenGate, &mut quorum, &mut clock)?;
    Ok((first, second))
}

fn stop<R: Wait>(
    rt: &R,
    alloc: Global,
    worker: &mut WorkerSeat,
    link: &mut LinkSeat,
) -> Result<(Turn, Turn), NoMemory>
    requires { IsFresh worker.old }
    ensures { IfOk result (λ turns. ListsTurns worker.new.shown turns.0 turns.1) }
{
    link.stop(rt, 1)?;
    turn_twice(rt, alloc, worker)
}

/// Prints what two turns of a worker do that was told to stop.
#[tactic(auto, using(crate::proofs::StoppedTurns::fresh_of))]
pub(crate) fn print_turns<R: Print + Wait + AllocGlobal>(rt: &R) -> anyhow::Result<()> {
    let alloc = rt.alloc();
    let mut opening = Opening::new();
    let Ok((mut worker, mut link, _seats)) = open(rt, alloc, &mut opening, options(alloc)?, 1)
    else {
        return Err(AllocError.into());
    };
    let turned = stop(rt, alloc, &mut worker, &mut link);
    worker.close(rt);
    match turned {
        Ok((first, second)) => println!(rt; "turns of a worker: {first:?}, {second:?}")?,
        Err(_no_memory) => return Err(AllocError.into()),
    }
    Ok(())
}
