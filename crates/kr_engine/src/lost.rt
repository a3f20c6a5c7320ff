//! The quorum takes a leadership back.

ghost use Rattle.std.specs.Prelude.{◌≡◌, ◌≤◌, ◌+◌, List, []};
ghost use Rattle.kr_calls.specs.declared.events.Event.TheVariants as events;
ghost use Rattle.kr_engine.specs.inner.Changes.{counted_core, refused_core_or, cleared_core};
ghost use Rattle.kr_engine.specs.inner.Commit.{steps_unless};
ghost use Rattle.kr_engine.specs.inner.Lost.{core_after_lost, lost_reason, reverting_steps};
ghost use Rattle.kr_model.specs.declared.writes.Write.{Write as AnyWrite};
ghost use Rattle.kr_model.specs.Engine.{IsEngine, IsSound, IsStep, outputs_left};
ghost use Rattle.kr_model.specs.Weights.{lost_steps};
ghost use Rattle.kr_model.specs.World.{State};

use crate::Engine;
use crate::reasons::not_leading;
use crate::writes::leads_in;
use kr_base::Steps;
use kr_calls::Reason;
use std::sync::ledger::Ledger;

impl Engine {
    fn lost_reason(&self, epoch: &i32) -> Option<Reason>
        ensures { result ≡ lost_reason self.now epoch.now }
    {
        if !leads_in(&self.leading, epoch) {
            return Some(not_leading(epoch, &self.leading));
        }
        None
    }

    // A transaction that was open at the committed end is open again.
    fn end_leadership<L: Ledger>(&mut self, steps: &mut Steps<L>)
        ensures ended { self.new ≡ core_after_lost self.old }
        ensures bound { steps.new ≤ steps.old + reverting_steps self.old.images self.old.committed }
        ensures later { steps.old ≤ steps.new }
    {
        let end = self.committed;
        self.revert_to(&end, steps);
        self.sessions.end();
        self.tip = self.committed;
        self.leading = None;
    }

    fn take_lost<L: Ledger>(&mut self, epoch: &i32, steps: &mut Steps<L>)
        ensures taken { self.new ≡ counted_core (refused_core_or (cleared_core self.old) (lost_reason (cleared_core self.old) epoch.now) (core_after_lost (cleared_core self.old))) }
        ensures bound { steps.new ≤ steps.old + steps_unless (lost_reason (cleared_core self.old) epoch.now) (reverting_steps self.old.images self.old.committed) }
        ensures later { steps.old ≤ steps.new }
    {
        self.clear_fresh();
        match self.lost_reason(epoch) {
            Some(reason) => self.refuse(reason),
            None => self.end_leadership(steps),
        }
        self.count_event();
    }

    /// The quorum took the leadership of an epoch back: what isn't committed is gone, and the writes that wait are refused.
    /// All outputs are handed out before. It takes no memory, and at most the steps that what is undone weighs, and eight for
    /// each of its batches and once more.
    #[tactic(auto, using(crate::proofs::LostSteps::lost_step, crate::proofs::LostSteps::lost_sound))]
    pub fn lost<L: Ledger>(&mut self, epoch: i32, steps: &mut Steps<L>)
        requires drained { outputs_left self.old ≡ [] }
        ensures step { IsStep self.old self.new (events.Lost epoch) }
        ensures sound { IsSound self.old → IsSound self.new }
        ensures bound { (s : State) (writes : List AnyWrite) → IsEngine self.old s writes → steps.new ≤ steps.old + lost_steps s }
        ensures later { steps.old ≤ steps.new }
    {
        self.take_lost(&epoch, steps);
    }
}
