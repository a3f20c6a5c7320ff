//! Time goes on.

ghost use Rattle.std.specs.Prelude.{◌≡◌, ◌≤◌, ◌+◌, ◌≤ℤ◌, ◌-ℤ◌, ◌&&◌, [], pos, fold, is_some, length, None, Some, Ok, IfOk, OnOk, OnErr, IsSome};
ghost use Rattle.std.specs.Ordering.{int_cmp};
ghost use Rattle.kr_defs.specs.declared.limits.TheConstants.{PLACES_END as places_end};
ghost use Rattle.kr_defs.specs.Heartbeats.{AreHeartbeats, leave};
ghost use Rattle.kr_defs.specs.Map as entries;
ghost use Rattle.kr_calls.specs.declared.events.Event.TheVariants as events;
ghost use Rattle.kr_calls.specs.Deciding.{apply_records, weights};
ghost use Rattle.kr_store.specs.Images.{AreValid, IsSettled, last_kept};
ghost use Rattle.kr_model.specs.Engine.{IsSound, IsStep, outputs_left};
ghost use Rattle.kr_engine.specs.inner.Ready.{IsReady, MayAppend};
ghost use Rattle.kr_engine.specs.inner.Tick.{lapsed_contacts, tick_reason, Advances, CanFenceAll, FencesAll, SettlesTick, WithinLapsed};
ghost use Rattle.kr_engine.specs.TickBound.{WithinTick};
ghost use Rattle.kr_model.specs.Tick.{fencing_of};
ghost use Rattle.kr_engine.specs.inner.Append.{Fences};
ghost use Rattle.kr_engine.specs.inner.Changes.{BreaksOff};

use crate::Engine;
use crate::context::context_of;
use crate::places::is_far;
use crate::reasons::exhausted;
use kr_base::{NoMemory, Steps};
use kr_calls::{Effect, Reason, Reply};
use kr_defs::{Ids, Records};
use kr_image::ImageStore;
use kr_sessions::Context;
use kr_store::{Seen, Store};
use std::alloc::Global;
use std::sync::ledger::Ledger;

// No records.
fn no_effect(alloc: Global) -> Effect
    ensures { result.records ≡ [] }
{
    Effect {
        records: Records::new(alloc),
        reply: Reply::Bare { error: 0 },
    }
}

fn is_registered<S: Store>(seen: &Seen<S>, broker: &i32) -> bool
    ensures { result ≡ is_some (entries.get int_cmp seen.now.brokers broker.now) }
{
    seen.broker(broker).is_some()
}

// The records that fence a broker, with the image behind them; none where it isn't registered.
#[tactic(auto, using(crate::proofs::Fencings::fencing_records))]
fn fencing_of<L: Ledger>(
    alloc: Global,
    store: &mut ImageStore,
    context: &Context,
    broker: &i32,
    steps: &mut Steps<L>,
) -> Result<Records, NoMemory>
    requires natural { pos 0 ≤ℤ context.now.place }
    requires low { context.now.place ≤ℤ places_end }
    requires kept { last_kept store.old ≡ Some (context.now.place, store.old.tip) }
    ensures records { IfOk result (λ records. records ≡ fencing_of context.entry.now.options.now store.old.tip broker.now) }
    ensures image { IfOk result (λ records. apply_records store.old.tip records ≡ Ok store.new.tip) }
    ensures kept { store.new.kept ≡ store.old.kept }
    ensures made { IfOk result (λ records. store.new.made ≤ store.old.made + weights store.old.tip records) }
    ensures calls { store.new.kept_made ≡ store.old.kept_made }
    ensures begins { store.new.kept_begun ≡ store.old.kept_begun }
    ensures settled { IsSettled store.old → IsSettled store.new }
    ensures counted { IfOk result (λ records. steps.new ≡ steps.old + length records) }
    ensures later { steps.old ≤ steps.new }
{
    if !is_registered(&Seen::tip(store), broker) {
        return Ok(Records::new(alloc));
    }
    let mut out = no_effect(alloc);
    kr_brokers::fence(alloc, store, context, broker, &mut out, steps)?;
    Ok(out.records)
}

// Whoever was last heard of at this time or before has no session any more.
fn session_limit(time: &i64, session_ms: &u32) -> i64
    requires { pos 0 ≤ℤ time.now }
    ensures { result ≡ (time.now -ℤ pos session_ms.now) }
{
    *time - *session_ms as i64
}

impl Engine {
    fn look_at_contacts(&self)
        ensures { AreHeartbeats self.now.heard }
    {
        let _heard = self.sessions.len();
    }

    fn fencing_records<L: Ledger>(
        &mut self,
        broker: &i32,
        steps: &mut Steps<L>,
    ) -> Result<Records, NoMemory>
        requires open { MayAppend self.old }
        ensures records { IfOk result (λ records. records ≡ fencing_of self.old.options self.old.images.tip broker.now) }
        ensures image { IfOk result (λ records. apply_records self.old.images.tip records ≡ Ok self.new.images.tip) }
        ensures kept { self.new.images.kept ≡ self.old.images.kept }
        ensures made { IfOk result (λ records. self.new.images.made ≤ self.old.images.made + weights self.old.images.tip records) }
        ensures calls { self.new.images.kept_made ≡ self.old.images.kept_made }
        ensures begins { self.new.images.kept_begun ≡ self.old.images.kept_begun }
        ensures settled { IsSettled self.old.images → IsSettled self.new.images }
        ensures same { self.new ≡ record self.old { images = self.new.images } }
        ensures counted { IfOk result (λ records. steps.new ≡ steps.old + length records) }
        ensures later { steps.old ≤ steps.new }
    {
        let context = context_of(&self.options, &self.sessions, &self.time, &self.tip);
        fencing_of(self.alloc, &mut self.store, &context, broker, steps)
    }

    // The broker is fenced by one batch. It stays a contact, so that nothing is to be put back where memory is wanted.
    #[tactic(auto, using(crate::proofs::Fencings::fence))]
    fn fence<L: Ledger>(&mut self, broker: &i32, steps: &mut Steps<L>) -> Result<(), NoMemory>
        requires open { MayAppend self.old }
        requires valid { AreValid self.old.images }
        ensures fences { OnOk result (Fences self.old
            (record self.new { heard = leave self.old.heard broker.now }) broker.now) }
        ensures heard { OnOk result (self.new.heard ≡ self.old.heard) }
        ensures broken { OnErr result (BreaksOff self.old self.new) }
        ensures valid { OnOk result (AreValid self.new.images) }
        ensures counted { OnOk result (Advances self.old self.new steps.old steps.new) }
        ensures later { steps.old ≤ steps.new }
    {
        let records = self.fencing_records(broker, steps)?;
        self.append(records)?;
        self.look_at_images();
        Ok(())
    }

    // Each of the brokers is fenced by one batch, and stays a contact.
    #[tactic(auto, using(crate::proofs::Fencings::fence_all))]
    fn fence_all<L: Ledger>(
        &mut self,
        brokers: &[i32],
        steps: &mut Steps<L>,
    ) -> Result<(), NoMemory>
        requires can { CanFenceAll self.old brokers.now }
        ensures all { OnOk result (FencesAll self.old
            (record self.new { heard = fold leave self.old.heard brokers.now }) brokers.now) }
        ensures heard { OnOk result (self.new.heard ≡ self.old.heard) }
        ensures broken { OnErr result (BreaksOff self.old self.new) }
        ensures counted { OnOk result (Advances self.old self.new steps.old steps.new) }
        ensures later { steps.old ≤ steps.new }
    {
        for broker in brokers {
            self.fence(broker, steps)?;
        }
        Ok(())
    }

    fn forget_contact(&mut self, broker: &i32)
        ensures { self.new ≡ record self.old { heard = leave self.old.heard broker.now } }
    {
        self.sessions.leave(*broker);
    }

    // The brokers leave the contacts.
    #[tactic(auto, using(crate::proofs::Fencings::forget_contacts))]
    fn forget_contacts(&mut self, brokers: &[i32])
        ensures { self.new ≡ record self.old { heard = fold leave self.old.heard brokers.now } }
    {
        for broker in brokers {
            self.forget_contact(broker);
        }
    }

    // The contacts whose session has ended.
    fn lapsed_contacts<L: Ledger>(&self, steps: &mut Steps<L>) -> Result<Ids, NoMemory>
        requires ready { IsReady self.now }
        ensures ids { IfOk result (λ ids. ids ≡ lapsed_contacts self.now) }
        ensures bound { steps.new ≤ steps.old + length (lapsed_contacts self.now) + 1 }
        ensures later { steps.old ≤ steps.new }
    {
        let limit = session_limit(&self.time, &self.options.session_ms);
        self.sessions.expired(limit, steps)
    }

    // Why time may not go on.
    fn tick_reason(&self) -> Option<Reason>
        ensures { result ≡ tick_reason self.now }
    {
        if self.leading.is_some() && is_far(&self.tip) {
            return Some(exhausted(&self.tip));
        }
        None
    }

    #[tactic(auto, using(crate::proofs::Fencings::fence_lapsed))]
    fn fence_lapsed<L: Ledger>(&mut self, steps: &mut Steps<L>) -> Result<(), NoMemory>
        requires ready { IsReady self.old }
        requires can { CanFenceAll self.old (lapsed_contacts self.old) }
        ensures fences { OnOk result (FencesAll self.old self.new (lapsed_contacts self.old)) }
        ensures broken { OnErr result (BreaksOff self.old self.new) }
        ensures bound { OnOk result (WithinLapsed self.old self.new steps.old steps.new) }
        ensures later { steps.old ≤ steps.new }
    {
        let lapsed = self.lapsed_contacts(steps)?;
        if lapsed.is_empty() {
            return Ok(());
        }
        self.fence_all(lapsed.as_slice(), steps)?;
        self.forget_contacts(lapsed.as_slice());
        Ok(())
    }

    #[tactic(auto, using(crate::proofs::Fencings::refused_within))]
    fn settle_tick<L: Ledger>(&mut self, steps: &mut Steps<L>) -> Result<(), NoMemory>
        requires ready { IsReady self.old }
        requires can { tick_reason self.old ≡ None → CanFenceAll self.old (lapsed_contacts self.old) }
        ensures settled { OnOk result (SettlesTick self.old self.new (tick_reason self.old)) }
        ensures broken { OnErr result (BreaksOff self.old self.new) }
        ensures bound { OnOk result (WithinLapsed self.old self.new steps.old steps.new) }
        ensures later { steps.old ≤ steps.new }
    {
        match self.tick_reason() {
            Some(reason) => {
                self.refuse(reason);
                Ok(())
            }
            None => self.fence_lapsed(steps),
        }
    }

    /// Time went on: a leading controller fences the contacts whose session has ended, the one first that was heard of
    /// longest ago. All outputs are handed out before. It takes a step for each of these contacts, one more, and one for each
    /// record that it gives. After want of memory nothing has changed.
    #[tactic(auto, using(crate::proofs::Fencings::tick))]
    pub fn tick<L: Ledger>(&mut self, now: &i64, steps: &mut Steps<L>) -> Result<(), NoMemory>
        requires sound { IsSound self.old }
        requires drained { outputs_left self.old ≡ [] }
        ensures step { OnOk result (IsStep self.old self.new (events.Tick now.now)) }
        ensures unchanged { OnErr result (self.new ≡ self.old) }
        ensures sound { IsSound self.new }
        ensures bound { OnOk result (WithinTick self.old self.new now.now steps.old steps.new) }
        ensures later { steps.old ≤ steps.new }
    {
        self.look_over();
        self.look_at_contacts();
        let found = self.begin_at(now);
        let settled = self.settle_tick(steps);
        self.undo_images(&settled, &found, steps);
        self.end(settled, found)
    }
}
