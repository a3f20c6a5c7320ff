//! A round: what is planned by the image at the tip is elected by one step.

ghost use Rattle.std.specs.Prelude.{◌≡◌, [], IfOk, OnOk, OnErr, IsSome, IsTrue, All, List, not};
ghost use Rattle.kr_defs.specs.Image.{IsValid};
ghost use Rattle.kr_model.specs.declared.writes.Write.{Write};
ghost use Rattle.kr_model.specs.Engine.{IsEngine, IsSound, IsStep, outputs_left};
ghost use Rattle.kr_model.specs.Outputs.{new_writes};
ghost use Rattle.kr_model.specs.World.{State, is_far};
ghost use Rattle.kr_rebalance.specs.Round.{round_event};
ghost use Rattle.law_balance.specs.Balancing.{Balances, IsWithoutErrors};

use crate::election::election;
use kr_balance::plan_of;
use kr_base::{NoMemory, Steps};
use kr_calls::laws::records_have_meanings;
use kr_calls::{Ask, Call, Event, Request};
use kr_engine::Engine;
use kr_store::Seen;
use law_balance::rounds_balance;
use std::alloc::Global;
use std::sync::ledger::Ledger;

fn event_of(
    alloc: Global,
    engine: &Engine,
    client: u32,
    now: i64,
    percent: u8,
) -> Result<Event, NoMemory>
    ensures { IfOk result (λ event. event
        ≡ round_event client now engine.now.images.tip percent) }
{
    let planned = plan_of(alloc, &Seen::tip(engine.store()), percent)?;
    let request = Request::ElectLeaders(election(alloc, planned.as_slice())?);
    Ok(Event::Request {
        client,
        now,
        ask: Ask::Call(Call {
            correlation: 0,
            request,
        }),
    })
}

// What the theorem rests on.
fn look_at_image(engine: &Engine)
    ensures { IsValid engine.now.images.tip }
{
    Seen::tip(engine.store()).is_valid();
}

/// Elects, as this client at this time (in milliseconds), the preferred leaders of all partitions that are imbalanced, of the
/// brokers of which more than so many of a hundred are, by the image at the tip. The engine leads with its tip not past the
/// greatest one, and all outputs are handed out before. Then each of these partitions is led by its first replica, of no broker
/// that was above one is imbalanced, no partition is answered by an error, and all else is as before. After want of memory
/// nothing has changed.
#[tactic(auto, using(crate::proofs::RoundSteps::balanced, crate::proofs::RoundSteps::answered))]
pub fn round<L: Ledger>(
    alloc: Global,
    engine: &mut Engine,
    client: u32,
    now: i64,
    percent: u8,
    steps: &mut Steps<L>,
) -> Result<(), NoMemory>
    requires sound { IsSound engine.old }
    requires drained { outputs_left engine.old ≡ [] }
    requires leads { IsSome engine.old.leading }
    requires low { IsTrue (not (is_far engine.old.tip)) }
    ensures step { OnOk result (IsStep engine.old engine.new
        (round_event client now engine.old.images.tip percent)) }
    ensures unchanged { OnErr result (engine.new ≡ engine.old) }
    ensures sound { IsSound engine.new }
    ensures balanced { OnOk result
        (Balances engine.old.images.tip engine.new.images.tip percent) }
    ensures answered { OnOk result ((s : State) (writes : List Write) →
        IsEngine engine.old s writes →
        All (λ write. IsWithoutErrors write.reply) (new_writes engine.old.options s
        (round_event client now engine.old.images.tip percent))) }
{
    rounds_balance();
    records_have_meanings();
    look_at_image(engine);
    let event = event_of(alloc, engine, client, now, percent)?;
    engine.step(&event, steps)
}
