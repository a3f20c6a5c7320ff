//! The quorum commits a leader's log, whole batches at a time.

ghost use Rattle.std.specs.Prelude.{◌≡◌, ◌≤◌, ◌+◌, ◌&&◌, int_le, List, [], None, IsSome, is_some, unwrap_or};
ghost use Rattle.kr_calls.specs.declared.events.Event.TheVariants as events;
ghost use Rattle.kr_store.specs.Images.{begun_at, image_of_place, kept_at};
ghost use Rattle.kr_engine.specs.inner.Changes.{cleared_core};
ghost use Rattle.kr_engine.specs.inner.Commit.{CanCommit, commit_reason, core_after_commit, core_taking_commit, forgetting_steps, steps_unless};
ghost use Rattle.kr_engine.specs.inner.Settled.{closed_at};
ghost use Rattle.kr_model.specs.declared.writes.Write.{Write as AnyWrite};
ghost use Rattle.kr_model.specs.Engine.{IsEngine, IsSound, IsStep, outputs_left};
ghost use Rattle.kr_model.specs.Weights.{commit_steps};
ghost use Rattle.kr_model.specs.World.{State};

use crate::Engine;
use crate::places::{at_epoch, closed_end};
use crate::reasons::{bad_commit, not_leading};
use crate::writes::leads_in;
use kr_base::{NoEpoch, Steps};
use kr_calls::Reason;
use kr_image::ImageStore;
use kr_store::{At, Store};
use std::sync::ledger::Ledger;

fn has_image<S: Store>(store: &S, at: At) -> bool
    ensures { result ≡ is_some (image_of_place (S.images store.now) at) }
{
    store.next_feature(at, None).is_ok()
}

// An image is kept under the epoch.
fn is_kept<S: Store>(store: &S, epoch: &i64) -> bool
    ensures { result ≡ is_some (kept_at (S.images store.now) epoch.now) }
{
    has_image(store, at_epoch(epoch))
}

// The place of the transaction that was open at a kept epoch.
fn begun_at(store: &ImageStore, epoch: &i64) -> Option<i64>
    requires kept { IsSome (kept_at store.now epoch.now) }
    ensures { result ≡ begun_at store.now epoch.now }
{
    match store.open_at(at_epoch(epoch)) {
        Ok(begun) => begun,
        Err(NoEpoch) => unreachable!(),
    }
}

impl Engine {
    // An image is kept under the end, which isn't below the committed one: it is that of a batch, or the committed one.
    fn is_end(&self, end: &i64) -> bool
        ensures { result ≡ (int_le self.now.committed end.now && is_some (kept_at self.now.images end.now)) }
    {
        self.committed <= *end && is_kept(&self.store, end)
    }

    fn commit_reason(&self, epoch: &i32, end: &i64) -> Option<Reason>
        ensures { result ≡ commit_reason self.now epoch.now end.now }
    {
        if !leads_in(&self.leading, epoch) {
            return Some(not_leading(epoch, &self.leading));
        }
        if !self.is_end(end) {
            return Some(bad_commit(end, &self.committed, &self.tip));
        }
        None
    }

    fn commit_to<L: Ledger>(&mut self, end: &i64, steps: &mut Steps<L>)
        requires can { CanCommit self.old.images end.now }
        ensures images { self.new ≡ core_after_commit self.old end.now }
        ensures bound { steps.new ≤ steps.old + forgetting_steps self.old.images (closed_at self.old.images end.now) }
        ensures later { steps.old ≤ steps.new }
    {
        let closed = closed_end(&begun_at(&self.store, end), end);
        self.store.forget_below(closed, steps);
        self.committed = *end;
        self.closed = closed;
    }

    fn take_commit<L: Ledger>(&mut self, epoch: &i32, end: &i64, steps: &mut Steps<L>)
        requires can { commit_reason (cleared_core self.old) epoch.now end.now ≡ None → CanCommit self.old.images end.now }
        ensures taken { self.new ≡ core_taking_commit (cleared_core self.old) epoch.now end.now }
        ensures bound { steps.new ≤ steps.old + steps_unless (commit_reason (cleared_core self.old) epoch.now end.now) (forgetting_steps self.old.images (closed_at self.old.images end.now)) }
        ensures later { steps.old ≤ steps.new }
    {
        self.clear_fresh();
        match self.commit_reason(epoch, end) {
            Some(reason) => self.refuse(reason),
            None => self.commit_to(end, steps),
        }
        self.count_event();
    }

    /// The quorum committed this leader's log up to a place, whole batches at a time. All outputs are handed out before.
    /// It takes no memory, and at most the steps that what is newly settled weighs, and eight for each of its batches and
    /// once more.
    #[tactic(auto, using(crate::proofs::CommitSteps::can_commit))]
    pub fn commit<L: Ledger>(&mut self, epoch: i32, end: i64, steps: &mut Steps<L>)
        requires sound { IsSound self.old }
        requires drained { outputs_left self.old ≡ [] }
        ensures step { IsStep self.old self.new (events.Commit epoch end) }
        ensures sound { IsSound self.new }
        ensures bound { (s : State) (writes : List AnyWrite) → IsEngine self.old s writes → steps.new ≤ steps.old + commit_steps s end }
        ensures later { steps.old ≤ steps.new }
    {
        self.take_commit(&epoch, &end, steps);
    }
}
