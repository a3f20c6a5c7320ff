//! A store of images, with the epochs that it keeps.

ghost use Rattle.std.specs.Prelude.{◌≡◌, ◌≤◌, OnOk, OnErr, IfOk, IsErr, IsSome, ◌↔◌, None, Some, filter, not, int_lt};
ghost use Rattle.std.specs.List.{list_all};
ghost use Rattle.kr_store.specs.Images.{IsAbove, no_images, marked, reverted, forgotten, kept_at, last_kept};
ghost use Rattle.testlib_rule_answers.specs.Histories.{AreClosed, IsCause, Judged};

use kr_base::{NoEpoch, NoMemory, Steps};
use kr_defs::{Ill, Record};
use kr_image::ImageStore;
use kr_store::{ApplyFault, Store};
use std::alloc::Global;
use std::marker::Model;
use std::sync::ledger::Ledger;
use testlib_words::RowFault;

/// An image that records are applied to, and those that it keeps.
#[derive(Drop)]
pub struct History {
    // The image.
    store: ImageStore,
    // The kept epochs.
    epochs: Vec<i64>,
}

impl Model for History {
    ghost use Rattle.kr_store.specs.Images.{Images};
    ghost use Rattle.testlib_rule_answers.specs.Histories.{AreClosed, AreEpochs};

    ghost Value = { Images };

    ghost view = { λ h. h.store };

    ghost invariant = { λ h. AreEpochs h.store.kept h.epochs.items × AreClosed h.store };
}

fn are_below(epochs: &[i64], limit: &i64) -> bool
    ensures { result ≡ list_all (λ e. int_lt e limit.now) epochs.now }
{
    epochs.iter().all(|epoch| *epoch < *limit)
}

fn drop_above(epochs: &mut Vec<i64>, limit: &i64)
    ensures { epochs.new.items ≡ filter (λ e. not (int_lt limit.now e)) epochs.old.items }
{
    epochs.retain(|epoch| !(*limit < *epoch));
}

fn drop_below(epochs: &mut Vec<i64>, limit: &i64)
    ensures { epochs.new.items ≡ filter (λ e. not (int_lt e limit.now)) epochs.old.items }
{
    epochs.retain(|epoch| !(*epoch < *limit));
}

// The record's image is the present one, or the cause why it has none.
#[tactic(auto, using(crate::proofs::ClosedStores::begins))]
fn judge<L: Ledger>(
    store: &mut ImageStore,
    place: i64,
    value: &Record,
    steps: &mut Steps<L>,
) -> Result<Option<Ill>, RowFault>
    requires { IsSome (last_kept store.old) }
    ensures judged { IfOk result (λ cause. Judged store.old store.new value.now cause) }
    ensures kept { store.new.kept ≡ store.old.kept }
    ensures closed { AreClosed store.old → AreClosed store.new }
{
    match store.apply_record(place, value, steps) {
        Ok(()) => Ok(None),
        Err(fault) => cause_of(fault),
    }
}

fn cause_of(fault: ApplyFault) -> Result<Option<Ill>, RowFault>
    ensures { IfOk result (λ cause. IsCause fault cause) }
{
    match fault {
        ApplyFault::IllFormed { cause, .. } => Ok(Some(cause)),
        ApplyFault::NoMemory => Err(RowFault::NoMemory),
    }
}

fn revert_store<L: Ledger>(
    store: &mut ImageStore,
    epoch: &i64,
    steps: &mut Steps<L>,
) -> Result<(), NoEpoch>
    ensures ok { OnOk result (reverted store.old epoch.now ≡ Some store.new) }
    ensures err { OnErr result (store.new ≡ store.old) }
    ensures no_epoch { IsErr result ↔ (kept_at store.old epoch.now ≡ None) }
{
    store.revert(*epoch, steps)
}

fn mark_store(store: &mut ImageStore, epoch: &i64) -> Result<(), NoMemory>
    requires { IsAbove store.old.kept epoch.now }
    ensures ok { OnOk result (store.new ≡ marked store.old epoch.now) }
    ensures err { OnErr result (store.new ≡ store.old) }
    ensures closed { AreClosed store.old → AreClosed store.new }
{
    store.mark(*epoch)
}

fn forget_store<L: Ledger>(store: &mut ImageStore, epoch: &i64, steps: &mut Steps<L>)
    requires { AreClosed store.old }
    ensures { store.new ≡ forgotten store.old epoch.now }
{
    store.forget_below(*epoch, steps);
}

impl History {
    /// The empty image, and none that is kept.
    #[tactic(auto, using(crate::proofs::ClosedStores::begins))]
    pub fn new(alloc: Global) -> History
        ensures { result ≡ no_images }
    {
        History {
            store: ImageStore::new(alloc),
            epochs: Vec::new(alloc),
        }
    }

    /// Keeps the present image under the epoch, where that is above each kept one.
    #[tactic(auto, using(crate::proofs::EpochRows::kept))]
    pub fn mark(&mut self, epoch: i64) -> Result<(), RowFault>
        ensures ok { OnOk result (self.new ≡ marked self.old epoch) }
    {
        if !are_below(self.epochs.as_slice(), &epoch) {
            return Err(RowFault::Fields);
        }
        self.epochs.reserve(1)?;
        mark_store(&mut self.store, &epoch)?;
        self.epochs.push_reserved(epoch);
        Ok(())
    }

    /// Makes the record's image the present one, where it has one, or tells why not; an epoch has to be kept.
    #[tactic(auto, using(crate::proofs::EpochRows::kept))]
    pub fn apply<L: Ledger>(
        &mut self,
        place: i64,
        value: &Record,
        steps: &mut Steps<L>,
    ) -> Result<Option<Ill>, RowFault>
        ensures { IfOk result (λ cause. Judged self.old self.new value.now cause) }
    {
        if self.epochs.is_empty() {
            return Err(RowFault::Fields);
        }
        judge(&mut self.store, place, value, steps)
    }

    /// Makes the image of the epoch the present one, and drops the later epochs.
    pub fn revert<L: Ledger>(&mut self, epoch: &i64, steps: &mut Steps<L>) -> Result<(), NoEpoch>
        ensures ok { OnOk result (reverted self.old epoch.now ≡ Some self.new) }
        ensures err { OnErr result (self.new ≡ self.old) }
        ensures no_epoch { IsErr result ↔ (kept_at self.old epoch.now ≡ None) }
    {
        revert_store(&mut self.store, epoch, steps)?;
        drop_above(&mut self.epochs, epoch);
        Ok(())
    }

    /// Drops the epochs below this one.
    pub fn forget_below<L: Ledger>(&mut self, epoch: &i64, steps: &mut Steps<L>)
        ensures { self.new ≡ forgotten self.old epoch.now }
    {
        forget_store(&mut self.store, epoch, steps);
        drop_below(&mut self.epochs, epoch);
    }

    /// The store.
    pub fn store(&self) -> &ImageStore
        ensures { result.now ≡ self.now }
    {
        &self.store
    }
}
