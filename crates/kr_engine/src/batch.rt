//! A committed batch of another leader comes.

ghost use Rattle.std.specs.Prelude.{◌≡◌, ◌≤◌, ◌≤ℤ◌, ◌+ℤ◌, [], length, pos, unwrap_or, None, IfOk, OnOk, OnErr};
ghost use Rattle.kr_defs.specs.declared.limits.TheConstants.{MOST_RECORDS as most_records, PLACES_END as places_end};
ghost use Rattle.kr_batch.specs.Reading.{batch_of};
ghost use Rattle.kr_calls.specs.declared.events.Event.TheVariants as events;
ghost use Rattle.kr_store.specs.Images.{AreBegunFrom, AreValid, IsAbove, marked, reverted};
ghost use Rattle.kr_model.specs.Engine.{IsSound, IsStep, outputs_left};
ghost use Rattle.kr_model.specs.Reasons.{ill_formed};
ghost use Rattle.kr_engine.specs.inner.Changes.{refused_core, BreaksOff, IsLonger};
ghost use Rattle.kr_engine.specs.inner.Ready.{IsReady};
ghost use Rattle.kr_engine.specs.inner.Settled.{closed_behind, core_moved};
ghost use Rattle.kr_model.specs.Batch.{end_of};
ghost use Rattle.kr_engine.specs.inner.Batch.{batch_reason, decoded_batch_reason, first_ill_of, items_reason, SettlesBatch, SettlesItems, TakesItems};

use crate::Engine;
use crate::apply::apply_items;
use crate::places::{closed_end, is_far};
use crate::reasons::{already_leading, bad_batch, exhausted, gap, ill_formed};
use kr_base::{NoMemory, Steps};
use kr_batch::{Batch, BatchFault, decode};
use kr_defs::{Bytes, Ill, Items};
use std::sync::ledger::Ledger;

// One place above the last item.
fn end_of(batch: &Batch) -> i64
    requires low { batch.now.base ≤ℤ places_end }
    requires few { length batch.now.items ≤ most_records }
    ensures { result ≡ end_of batch.now }
{
    batch.base + batch.items.len() as i64
}

impl Engine {
    // The present state is that of the place, which is committed; what is kept below its closed end is dropped.
    fn move_to<L: Ledger>(&mut self, place: &i64, steps: &mut Steps<L>) -> Result<(), NoMemory>
        requires above { IsAbove self.old.images.kept place.now }
        requires begun { AreBegunFrom (marked self.old.images place.now) (closed_behind self.old.images place.now) }
        ensures moved { OnOk result (self.new ≡ core_moved self.old place.now) }
        ensures same { OnErr result (self.new ≡ self.old) }
        ensures later { steps.old ≤ steps.new }
    {
        self.store.mark(*place)?;
        let closed = closed_end(&self.store.open(), place);
        self.store.forget_below(closed, steps);
        self.tip = *place;
        self.committed = *place;
        self.closed = closed;
        Ok(())
    }

    fn apply_items<L: Ledger>(
        &mut self,
        items: &Items,
        steps: &mut Steps<L>,
    ) -> Result<Option<(i64, Ill)>, NoMemory>
        requires ready { IsReady self.old }
        requires few { length items.now ≤ most_records }
        ensures found { IfOk result (λ ill. ill ≡ first_ill_of self.old items.now) }
        ensures all { IfOk result (λ ill. ill ≡ None → TakesItems self.old.images self.new.images self.old.tip items.now) }
        ensures longer { IsLonger self.old.images self.new.images self.old.tip }
        ensures same { self.new ≡ record self.old { images = self.new.images } }
        ensures later { steps.old ≤ steps.new }
    {
        apply_items(&mut self.store, &self.tip, items.as_slice(), steps)
    }

    // An item has no meaning: the images are those of the tip again.
    fn refuse_items<L: Ledger>(&mut self, ill: &(i64, Ill), steps: &mut Steps<L>)
        ensures refused { self.new ≡ refused_core (record self.old { images = unwrap_or (reverted self.old.images self.old.tip) self.old.images }) (ill_formed ill.now.0 ill.now.1) }
        ensures later { steps.old ≤ steps.new }
    {
        let tip = self.tip;
        self.revert_to(&tip, steps);
        self.refuse(ill_formed(&ill.0, &ill.1));
    }

    // Each of the items has a meaning, or none stays.
    #[tactic(auto, using(crate::proofs::BatchSteps::take_items))]
    fn take_items<L: Ledger>(
        &mut self,
        items: Items,
        end: &i64,
        steps: &mut Steps<L>,
    ) -> Result<(), NoMemory>
        requires sound { IsSound self.old }
        requires ready { IsReady self.old }
        requires valid { AreValid self.old.images }
        requires standby { self.old.leading ≡ None }
        requires few { length items ≤ most_records }
        requires end { end.now ≡ (self.old.tip +ℤ pos (length items)) }
        requires some { 1 ≤ length items }
        ensures settled { OnOk result (SettlesItems self.old self.new items end.now (items_reason (first_ill_of self.old items))) }
        ensures broken { OnErr result (BreaksOff self.old self.new) }
        ensures later { steps.old ≤ steps.new }
    {
        match self.apply_items(&items, steps)? {
            Some(ill) => self.refuse_items(&ill, steps),
            None => {
                self.add_items(items)?;
                self.move_to(end, steps)?;
            }
        }
        Ok(())
    }

    #[tactic(auto, using(crate::proofs::BatchSteps::taking_batch))]
    fn take_batch<L: Ledger>(&mut self, batch: Batch, steps: &mut Steps<L>) -> Result<(), NoMemory>
        requires sound { IsSound self.old }
        requires ready { IsReady self.old }
        requires valid { AreValid self.old.images }
        requires standby { self.old.leading ≡ None }
        requires some { 1 ≤ length batch.items }
        requires few { length batch.items ≤ most_records }
        ensures settled { OnOk result (SettlesItems self.old self.new batch.items (end_of batch) (decoded_batch_reason self.old batch)) }
        ensures broken { OnErr result (BreaksOff self.old self.new) }
        ensures later { steps.old ≤ steps.new }
    {
        if batch.base != self.committed {
            let reason = gap(&self.committed, &batch.base);
            self.refuse(reason);
            return Ok(());
        }
        let end = end_of(&batch);
        if is_far(&end) {
            self.refuse(exhausted(&end));
            return Ok(());
        }
        self.take_items(batch.items, &end, steps)
    }

    #[tactic(auto, using(crate::proofs::BatchSteps::settle_batch))]
    fn settle_batch<L: Ledger>(
        &mut self,
        bytes: &Bytes,
        steps: &mut Steps<L>,
    ) -> Result<(), NoMemory>
        requires sound { IsSound self.old }
        requires ready { IsReady self.old }
        requires valid { AreValid self.old.images }
        ensures settled { OnOk result (SettlesBatch self.old self.new (batch_of bytes.now) (batch_reason self.old (batch_of bytes.now))) }
        ensures broken { OnErr result (BreaksOff self.old self.new) }
        ensures later { steps.old ≤ steps.new }
    {
        if self.leading.is_some() {
            let reason = already_leading(&self.leading);
            self.refuse(reason);
            return Ok(());
        }
        match decode(self.alloc, bytes.as_slice()) {
            Ok(batch) => self.take_batch(batch, steps),
            Err(BatchFault::NoMemory) => Err(NoMemory),
            Err(fault) => {
                self.refuse(bad_batch(&fault));
                Ok(())
            }
        }
    }

    /// A committed record batch of another leader came. All outputs are handed out before. After want of memory nothing has
    /// changed.
    #[tactic(auto, using(crate::proofs::ReadyEngines::cleared_ready, kr_model::proofs::SoundEngines::taken_sound))]
    pub fn batch<L: Ledger>(&mut self, bytes: &Bytes, steps: &mut Steps<L>) -> Result<(), NoMemory>
        requires sound { IsSound self.old }
        requires drained { outputs_left self.old ≡ [] }
        ensures step { OnOk result (IsStep self.old self.new (events.Batch bytes.now)) }
        ensures unchanged { OnErr result (self.new ≡ self.old) }
        ensures sound { IsSound self.new }
        ensures later { steps.old ≤ steps.new }
    {
        self.look_over();
        let found = self.begin();
        let settled = self.settle_batch(bytes, steps);
        self.undo_images(&settled, &found, steps);
        self.end(settled, found)
    }
}
