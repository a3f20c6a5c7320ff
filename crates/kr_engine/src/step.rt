//! Any event is taken by one call.

ghost use Rattle.std.specs.Prelude.{◌≡◌, ◌≤◌, ◌+◌, ℤ, List, [], IsOk, OnOk, OnErr};
ghost use Rattle.kr_calls.specs.declared.events.Event.TheVariants as events;
ghost use Rattle.kr_model.specs.declared.writes.Write.{Write as AnyWrite};
ghost use Rattle.kr_model.specs.Engine.{IsEngine, IsSound, IsStep, outputs_left};
ghost use Rattle.kr_model.specs.Weights.{commit_steps, lost_steps};
ghost use Rattle.kr_model.specs.World.{State};
ghost use Rattle.kr_engine.specs.TickBound.{WithinTick};

use crate::Engine;
use kr_base::{NoMemory, Steps};
use kr_calls::Event;
use std::sync::ledger::Ledger;

impl Engine {
    /// An event happened. All outputs are handed out before. A Commit and a Lost are always taken. After want of memory nothing
    /// has changed.
    pub fn step<L: Ledger>(&mut self, event: &Event, steps: &mut Steps<L>) -> Result<(), NoMemory>
        requires sound { IsSound self.old }
        requires drained { outputs_left self.old ≡ [] }
        ensures step { OnOk result (IsStep self.old self.new event.now) }
        ensures unchanged { OnErr result (self.new ≡ self.old) }
        ensures sound { IsSound self.new }
        ensures commit { (epoch end : ℤ) → event.now ≡ events.Commit epoch end → IsOk result }
        ensures lost { (epoch : ℤ) → event.now ≡ events.Lost epoch → IsOk result }
        ensures commit_bound { (epoch end : ℤ) (s : State) (writes : List AnyWrite) → event.now ≡ events.Commit epoch end → IsEngine self.old s writes → steps.new ≤ steps.old + commit_steps s end }
        ensures lost_bound { (epoch : ℤ) (s : State) (writes : List AnyWrite) → event.now ≡ events.Lost epoch → IsEngine self.old s writes → steps.new ≤ steps.old + lost_steps s }
        ensures tick_bound { (now : ℤ) → event.now ≡ events.Tick now → OnOk result (WithinTick self.old self.new now steps.old steps.new) }
        ensures later { steps.old ≤ steps.new }
    {
        match event {
            Event::Lead { epoch, next, now } => self.lead(epoch, next, now, steps),
            Event::Commit { epoch, end } => {
                self.commit(*epoch, *end, steps);
                Ok(())
            }
            Event::Lost { epoch } => {
                self.lost(*epoch, steps);
                Ok(())
            }
            Event::Batch { bytes } => self.batch(bytes, steps),
            Event::Load { bytes } => self.load(bytes),
            Event::Tick { now } => self.tick(now, steps),
            Event::Request { client, now, ask } => self.request(client, now, ask, steps),
            Event::Image => self.image(),
        }
    }
}
