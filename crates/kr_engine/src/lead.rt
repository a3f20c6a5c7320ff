//! The quorum makes this node the leader.

ghost use Rattle.std.specs.Prelude.{◌≡◌, ◌≤◌, ◌≤ℤ◌, ◌+ℤ◌, ◌||◌, [], ◌∷◌, pos, not, IsTrue, IsSome, IfOk, OnOk, OnErr, false, None};
ghost use Rattle.std.specs.Ordering.{int_eq};
ghost use Rattle.kr_defs.specs.declared.limits.TheConstants.{PLACES_END as places_end};
ghost use Rattle.kr_calls.specs.declared.events.Event.TheVariants as events;
ghost use Rattle.kr_defs.specs.Brokers as brokers;
ghost use Rattle.kr_defs.specs.Heartbeats as hearing;
ghost use Rattle.kr_defs.specs.declared.record.Item.TheVariants as items;
ghost use Rattle.kr_store.specs.Images.{AreValid, IsAbove, last_kept};
ghost use Rattle.kr_store.specs.ItemAnswers.{KeepsEpochs};
ghost use Rattle.kr_engine.specs.inner.Batch.{TakesItem};
ghost use Rattle.kr_engine.specs.inner.Changes.{BreaksOff, GivesAlone};
ghost use Rattle.kr_engine.specs.inner.Lead.{an_abort, core_leading, core_up_to, lead_reason, BeginsToLead, GivesUpOpen, SettlesLead};
ghost use Rattle.kr_model.specs.Engine.{IsSound, IsStep, outputs_left};
ghost use Rattle.kr_engine.specs.inner.Ready.{IsReady, MayGiveUp};

use crate::Engine;
use crate::apply::apply_one;
use crate::entries::item_entry;
use crate::places::is_far;
use crate::reasons::{already_leading, bad_next, exhausted, old_epoch};
use kr_base::{NoMemory, Steps};
use kr_calls::Reason;
use kr_defs::{Broker, Ids, Item, Record, Records};
use kr_replication::{BrokerTest, brokers_where};
use kr_sessions::Sessions;
use kr_store::{Seen, Store};
use std::alloc::Global;
use std::sync::ledger::Ledger;

fn is_one_above(next: &i64, end: &i64) -> bool
    requires { end.now ≤ℤ places_end }
    ensures { result ≡ int_eq next.now (end.now +ℤ pos 1) }
{
    *next == *end + 1
}

fn may_begin_at(next: &i64, end: &i64) -> bool
    requires { end.now ≤ℤ places_end }
    ensures { result ≡ (int_eq next.now end.now || int_eq next.now (end.now +ℤ pos 1)) }
{
    *next == *end || is_one_above(next, end)
}

// The unfenced brokers.
#[derive(Drop)]
struct UnfencedOnes;

impl BrokerTest for UnfencedOnes {
    ghost accepts = { λ t e. not e.1.fenced };

    fn accepts(&self, _id: &i32, state: &Broker) -> bool {
        !state.fenced
    }
}

// Of them those that were told to stop.
#[derive(Drop)]
struct StoppingOnes;

impl BrokerTest for StoppingOnes {
    ghost accepts = { λ t e. brokers.is_stopping e.1 };

    fn accepts(&self, _id: &i32, state: &Broker) -> bool {
        !state.fenced && state.stopping
    }
}

fn unfenced_brokers<S: Store>(alloc: Global, seen: &Seen<S>) -> Result<Ids, NoMemory>
    ensures { IfOk result (λ ids. ids ≡ brokers.unfenced seen.now) }
{
    brokers_where(alloc, seen, &UnfencedOnes)
}

fn stopping_brokers<S: Store>(alloc: Global, seen: &Seen<S>) -> Result<Ids, NoMemory>
    ensures { IfOk result (λ ids. ids ≡ brokers.stopping seen.now) }
{
    brokers_where(alloc, seen, &StoppingOnes)
}

// What gives up an open transaction: no reason is told.
fn abort_record() -> Record
    ensures { result ≡ an_abort }
{
    Record::AbortTransaction { reason: None }
}

fn abort_item() -> Item
    ensures { result ≡ items.Record an_abort }
{
    Item::Record(abort_record())
}

fn abort_records(alloc: Global) -> Result<Records, NoMemory>
    ensures { IfOk result (λ records. records ≡ an_abort ∷ []) }
{
    let mut records = Records::new(alloc);
    records.push(abort_record())?;
    Ok(records)
}

impl Engine {
    fn lead_reason(&self, epoch: &i32, next: &i64) -> Option<Reason>
        requires low { self.now.committed ≤ℤ places_end }
        ensures { result ≡ lead_reason self.now epoch.now next.now }
    {
        if self.leading.is_some() {
            return Some(already_leading(&self.leading));
        }
        if self.greatest >= *epoch {
            return Some(old_epoch(epoch, &self.greatest));
        }
        if !may_begin_at(next, &self.committed) {
            return Some(bad_next(next, &self.committed));
        }
        if is_far(next) {
            return Some(exhausted(next));
        }
        None
    }

    // One place above the end stands an item of the quorum's own.
    fn take_control_item(&mut self, next: &i64) -> Result<(), NoMemory>
        requires above { int_eq next.now self.old.committed ≡ false → IsAbove self.old.images.kept next.now }
        ensures taken { OnOk result (self.new ≡ core_up_to self.old next.now) }
        ensures begun { OnErr result (GivesAlone self.old self.new) }
    {
        if *next == self.committed {
            return Ok(());
        }
        self.fresh.push(item_entry(&self.tip, Item::Control))?;
        self.store.mark(*next)?;
        self.tip = *next;
        Ok(())
    }

    // The unfenced brokers count as heard of now.
    #[tactic(auto, using(crate::proofs::FirstContacts::heard_of))]
    fn all_heard(&self, next: &i64) -> Result<Sessions, NoMemory>
        ensures { IfOk result (λ s. s.heartbeats ≡ hearing.begin (brokers.unfenced self.now.images.tip) (brokers.stopping self.now.images.tip) self.now.time next.now) }
    {
        self.look_at_images();
        let seen = Seen::tip(&self.store);
        let unfenced = unfenced_brokers(self.alloc, &seen)?;
        let stopping = stopping_brokers(self.alloc, &seen)?;
        let mut sessions = Sessions::new(self.alloc);
        sessions.begin(&unfenced, &stopping, self.time, *next)?;
        Ok(sessions)
    }

    // The abort of the open transaction is applied.
    #[tactic(auto, using(crate::proofs::OpenTransactions::apply_abort))]
    fn apply_abort<L: Ledger>(&mut self, steps: &mut Steps<L>) -> Result<(), NoMemory>
        requires kept { IsSome (last_kept self.old.images) }
        requires valid { AreValid self.old.images }
        requires open { IsSome self.old.images.begun }
        ensures taken { OnOk result (TakesItem self.old.images self.new.images self.old.tip (items.Record an_abort)) }
        ensures epochs { OnErr result (KeepsEpochs self.new.images self.old.images) }
        ensures same { self.new ≡ record self.old { images = self.new.images } }
        ensures later { steps.old ≤ steps.new }
    {
        let item = abort_item();
        match apply_one(&mut self.store, &self.tip, &item, steps)? {
            None => Ok(()),
            Some(_) => unreachable!(),
        }
    }

    // The transaction that is open at the tip is given up, by a batch of its own in the epoch.
    #[tactic(auto, using(crate::proofs::OpenTransactions::give_up))]
    fn give_up<L: Ledger>(&mut self, epoch: &i32, steps: &mut Steps<L>) -> Result<(), NoMemory>
        requires open { MayGiveUp self.old }
        ensures gives_up { OnOk result (GivesUpOpen self.old.images.begun self.old self.new epoch.now) }
        ensures broken { OnErr result (BreaksOff self.old self.new) }
        ensures later { steps.old ≤ steps.new }
    {
        self.look_at_images();
        if self.store.open().is_none() {
            return Ok(());
        }
        let records = abort_records(self.alloc)?;
        self.apply_abort(steps)?;
        self.append_in(epoch, records)
    }

    // This node leads, and hears of the unfenced brokers now.
    fn take_over(&mut self, epoch: &i32, next: &i64) -> Result<(), NoMemory>
        ensures leads { OnOk result (self.new ≡ core_leading self.old epoch.now next.now) }
        ensures same { OnErr result (self.new ≡ self.old) }
    {
        self.sessions = self.all_heard(next)?;
        self.leading = Some(*epoch);
        self.greatest = *epoch;
        self.led = *next;
        Ok(())
    }

    #[tactic(auto, using(crate::proofs::OpenTransactions::begin_leadership))]
    fn begin_leadership<L: Ledger>(
        &mut self,
        epoch: &i32,
        next: &i64,
        steps: &mut Steps<L>,
    ) -> Result<(), NoMemory>
        requires ready { IsReady self.old }
        requires begins { lead_reason self.old epoch.now next.now ≡ None }
        ensures begins { OnOk result (BeginsToLead self.old self.new epoch.now next.now) }
        ensures broken { OnErr result (BreaksOff self.old self.new) }
        ensures later { steps.old ≤ steps.new }
    {
        self.take_control_item(next)?;
        self.give_up(epoch, steps)?;
        self.take_over(epoch, next)
    }

    fn settle_lead<L: Ledger>(
        &mut self,
        epoch: &i32,
        next: &i64,
        steps: &mut Steps<L>,
    ) -> Result<(), NoMemory>
        requires ready { IsReady self.old }
        ensures settled { OnOk result (SettlesLead self.old self.new epoch.now next.now (lead_reason self.old epoch.now next.now)) }
        ensures broken { OnErr result (BreaksOff self.old self.new) }
        ensures later { steps.old ≤ steps.new }
    {
        match self.lead_reason(epoch, next) {
            Some(reason) => {
                self.refuse(reason);
                Ok(())
            }
            None => self.begin_leadership(epoch, next, steps),
        }
    }

    /// The quorum made this node the leader of the log from a place on, in an epoch. A transaction that another leader left
    /// open is given up (KIP-868). All outputs are handed out before. After want of memory nothing has changed.
    #[tactic(auto, using(crate::proofs::ReadyEngines::ready_then))]
    pub fn lead<L: Ledger>(
        &mut self,
        epoch: &i32,
        next: &i64,
        now: &i64,
        steps: &mut Steps<L>,
    ) -> Result<(), NoMemory>
        requires sound { IsSound self.old }
        requires drained { outputs_left self.old ≡ [] }
        ensures step { OnOk result (IsStep self.old self.new (events.Lead epoch.now next.now now.now)) }
        ensures unchanged { OnErr result (self.new ≡ self.old) }
        ensures sound { IsSound self.new }
        ensures later { steps.old ≤ steps.new }
    {
        self.look_over();
        let found = self.begin_at(now);
        let settled = self.settle_lead(epoch, next, steps);
        self.undo_images(&settled, &found, steps);
        self.end(settled, found)
    }
}
