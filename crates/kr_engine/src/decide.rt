//! Each write is decided by its rule.

ghost use Rattle.std.specs.Prelude.{◌≡◌, ◌≤◌, ◌+◌, IfOk, OnOk, OnErr};
ghost use Rattle.kr_calls.specs.Deciding.{weights};
ghost use Rattle.kr_store.specs.Images.{IsSettled};
ghost use Rattle.kr_engine.specs.inner.Changes.{BreaksOff};
ghost use Rattle.kr_engine.specs.inner.Ready.{IsReady};
ghost use Rattle.kr_engine.specs.inner.Request.{Decides, decided_by};

use crate::Engine;
use crate::context::context_of;
use kr_base::{NoMemory, Steps};
use kr_calls::{Effect, Request};
use std::sync::ledger::Ledger;

impl Engine {
    #[tactic(auto, using(crate::proofs::RequestDecisions::decides))]
    fn decide_at_tip<L: Ledger>(
        &mut self,
        request: &Request,
        steps: &mut Steps<L>,
    ) -> Result<Effect, NoMemory>
        requires ready { IsReady self.old }
        ensures records { IfOk result (λ out. out.records ≡ (decided_by self.old request.now).records) }
        ensures reply { IfOk result (λ out. out.reply ≡ (decided_by self.old request.now).reply) }
        ensures image { OnOk result (self.new.images.tip ≡ (decided_by self.old request.now).image) }
        ensures kept { self.new.images.kept ≡ self.old.images.kept }
        ensures made { IfOk result (λ out. self.new.images.made ≤ self.old.images.made + weights self.old.images.tip out.records) }
        ensures calls { self.new.images.kept_made ≡ self.old.images.kept_made }
        ensures begins { self.new.images.kept_begun ≡ self.old.images.kept_begun }
        ensures settled { IsSettled self.old.images → IsSettled self.new.images }
        ensures same { self.new ≡ record self.old { images = self.new.images } }
        ensures later { steps.old ≤ steps.new }
    {
        let context = context_of(&self.options, &self.sessions, &self.time, &self.tip);
        kr_handlers::decide(self.alloc, &mut self.store, &context, request, steps)
    }

    /// What the rule of a write gives at the tip. Its records are in the present image then.
    pub(crate) fn decide<L: Ledger>(
        &mut self,
        request: &Request,
        steps: &mut Steps<L>,
    ) -> Result<Effect, NoMemory>
        requires ready { IsReady self.old }
        ensures decided { IfOk result (λ out. Decides self.old self.new request.now out) }
        ensures broken { OnErr result (BreaksOff self.old self.new) }
        ensures later { steps.old ≤ steps.new }
    {
        self.decide_at_tip(request, steps)
    }
}
