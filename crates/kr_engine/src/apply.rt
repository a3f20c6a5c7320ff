//! Items are applied to a store, one after the other.

ghost use Rattle.std.specs.Prelude.{◌≡◌, ◌≤◌, ◌≤ℤ◌, ◌+ℤ◌, length, pos, None, Some, IfOk, IsSome, OnErr};
ghost use Rattle.kr_defs.specs.declared.limits.TheConstants.{MOST_RECORDS as most_records, PLACES_END as places_end};
ghost use Rattle.kr_defs.specs.LogStates.{first_ill_at};
ghost use Rattle.kr_store.specs.Images.{IsAbove, last_kept, log_place, tip_state};
ghost use Rattle.kr_store.specs.ItemAnswers.{KeepsEpochs, MayStand};
ghost use Rattle.kr_engine.specs.inner.Batch.{IsTaken, TakesItems};
ghost use Rattle.kr_engine.specs.inner.Changes.{IsLonger};

use crate::places::Next;
use kr_base::{NoMemory, Steps};
use kr_defs::{Ill, Item};
use kr_store::{ApplyFault, Store};
use std::sync::ledger::Ledger;

/// Applies an item, which stands at the place; the cause where it has no meaning.
pub(crate) fn apply_one<S: Store, L: Ledger>(
    store: &mut S,
    at: &i64,
    item: &Item,
    steps: &mut Steps<L>,
) -> Result<Option<Ill>, NoMemory>
    requires kept { IsSome (last_kept (S.images store.old)) }
    requires stands { MayStand (S.images store.old) at.now item.now }
    ensures taken { IfOk result (λ ill. IsTaken (S.images store.old) (S.images store.new) at.now item.now ill) }
    ensures epochs { OnErr result (KeepsEpochs (S.images store.new) (S.images store.old)) }
    ensures later { steps.old ≤ steps.new }
{
    match store.apply_at(*at, item, steps) {
        Ok(()) => Ok(None),
        Err(ApplyFault::IllFormed { cause, .. }) => Ok(Some(cause)),
        Err(ApplyFault::NoMemory) => Err(NoMemory),
    }
}

fn at_place(at: &i64, cause: Ill) -> (i64, Ill)
    ensures { result ≡ (at.now, cause) }
{
    (*at, cause)
}

/// Applies items, of which the first stands at the place, up to one that has no meaning: its place and the cause. The
/// epochs that are kept besides are places of a transaction's begin.
pub(crate) fn apply_items<S: Store, L: Ledger>(
    store: &mut S,
    place: &i64,
    items: &[Item],
    steps: &mut Steps<L>,
) -> Result<Option<(i64, Ill)>, NoMemory>
    requires here { last_kept (S.images store.old) ≡ Some (place.now, (S.images store.old).tip) }
    requires above { IsAbove (S.images store.old).kept (place.now +ℤ pos 1) }
    requires natural { pos 0 ≤ℤ place.now }
    requires low { place.now ≤ℤ places_end }
    requires few { length items.now ≤ most_records }
    ensures found { IfOk result (λ ill. ill ≡ first_ill_at (tip_state (S.images store.old)) (log_place place.now) items.now) }
    ensures all { IfOk result (λ ill. ill ≡ None → TakesItems (S.images store.old) (S.images store.new) place.now items.now) }
    ensures longer { IsLonger (S.images store.old) (S.images store.new) place.now }
    ensures later { steps.old ≤ steps.new }
{
    let mut next = Next::at(place);
    for item in items {
        match apply_one(store, &next.place, item, steps)? {
            Some(cause) => return Ok(Some(at_place(&next.place, cause))),
            None => next.go_on(),
        }
    }
    Ok(None)
}
