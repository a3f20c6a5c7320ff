//! A log's batches, one after the other, and the state that their items make.

ghost use Rattle.std.specs.Prelude.{◌≡◌, ◌+◌, ◌≤◌, ◌<◌, ◌≤ℤ◌, ◌+ℤ◌, pos, length, IfOk, IfErr, IfSome, IsErrOf, IsSome, OnOk, None, Option};
ghost use Rattle.std.specs.Ordering.{int_eq};
ghost use Rattle.kr_defs.specs.declared.limits.TheConstants.{MOST_RECORDS as most_records, PLACES_END as places_end};
ghost use Rattle.kr_base.specs.Causes.{Rose};
ghost use Rattle.kr_store.specs.Images.{AreValid, last_kept, tip_state};
ghost use Rattle.kr_store.specs.ItemAnswers.{MayStand};
ghost use Rattle.kr_fold.specs.Endings.{EndsLog, IsLogFault};
ghost use Rattle.kr_fold.specs.inner.NextBatches as followed;
ghost use Rattle.kr_fold.specs.inner.NextBatches.{AreApplied, IsBeyond, IsItemApplied, IsFollowed, IsBatchOrNone, IsWithin, ReadsOn, Stands, log_of};
ghost use Rattle.kr_fold.specs.SourceBytes.{longest};

use crate::batch::read_batch;
use crate::fault::ToolFault;
use kr_base::{NoMemory, Source, Steps};
use kr_batch::{Batch, BatchFault, decode};
use kr_defs::{Ill, Item};
use kr_image::ImageStore;
use kr_store::{ApplyFault, Store};
use std::alloc::Global;
use std::sync::ledger::{Blank, Ledger};

// Applies an item, which stands at the place; the cause where it has no meaning.
fn apply_one<S: Store, L: Ledger>(
    store: &mut S,
    place: &i64,
    item: &Item,
    steps: &mut Steps<L>,
) -> Result<Option<Ill>, NoMemory>
    requires kept { IsSome (last_kept (S.images store.old)) }
    requires stands { MayStand (S.images store.old) place.now item.now }
    ensures applied { IfOk result (λ ill. IsItemApplied (S.images store.old)
        (S.images store.new) place.now item.now ill) }
    ensures valid { AreValid (S.images store.old) }
{
    let _valid = store.counts();
    match store.apply_at(*place, item, steps) {
        Ok(()) => Ok(None),
        Err(ApplyFault::IllFormed { cause, .. }) => Ok(Some(cause)),
        Err(ApplyFault::NoMemory) => Err(NoMemory),
    }
}

// The place of the next item.
#[derive(Drop)]
struct Next {
    place: i64,
}

impl Next {
    fn at(place: &i64) -> Next
        ensures { result.place ≡ place.now }
    {
        Next { place: *place }
    }

    fn go_on(&mut self)
        requires { self.old.place ≤ℤ (places_end +ℤ pos most_records) }
        ensures { self.new.place ≡ (self.old.place +ℤ pos 1) }
    {
        self.place += 1;
    }
}

// Applies items, of which the first stands at the place, up to one that has no meaning.
fn apply_items<S: Store, L: Ledger>(
    store: &mut S,
    place: &i64,
    items: &[Item],
    steps: &mut Steps<L>,
) -> Result<Option<Ill>, NoMemory>
    requires stands { Stands (S.images store.old) place.now }
    requires low { place.now ≤ℤ places_end }
    requires some { 1 ≤ length items.now }
    requires few { length items.now ≤ most_records }
    ensures applied { IfOk result (λ ill. AreApplied (S.images store.old)
        (S.images store.new) place.now items.now ill) }
    ensures beyond { IfOk result (λ ill. ill ≡ None →
        IsBeyond (S.images store.new) (place.now +ℤ pos (length items.now))) }
{
    let mut next = Next::at(place);
    for item in items {
        match apply_one(store, &next.place, item, steps)? {
            Some(cause) => return Ok(Some(cause)),
            None => next.go_on(),
        }
    }
    Ok(None)
}

// The batch that all of the bytes stand for, if they stand for one.
#[tactic(auto, using(crate::proofs::Batches::batch_some, crate::proofs::Batches::batch_few, crate::proofs::Batches::none_read))]
fn batch_of(alloc: Global, bytes: &[u8]) -> Result<Option<Batch>, NoMemory>
    ensures { IfOk result (λ batch. IsBatchOrNone bytes.now batch) }
{
    match decode(alloc, bytes) {
        Ok(batch) => Ok(Some(batch)),
        Err(fault) => none_for(fault),
    }
}

// A fault means that there is no batch, but for want of memory.
fn none_for(fault: BatchFault) -> Result<Option<Batch>, NoMemory>
    ensures { result ≡ followed.none_for fault }
{
    match fault {
        BatchFault::NoMemory => Err(NoMemory),
        _ => Ok(None),
    }
}

fn stands_at(base: &i64, tip: &i64) -> bool
    ensures { result ≡ int_eq base.now tip.now }
{
    base == tip
}

// Adds a batch to a log that ends at the tip, and answers the new tip; none where it doesn't follow.
fn follow<S: Store, L: Ledger>(
    store: &mut S,
    tip: &i64,
    batch: &Batch,
    steps: &mut Steps<L>,
) -> Result<Option<i64>, NoMemory>
    requires stands { Stands (S.images store.old) tip.now }
    requires low { tip.now ≤ℤ places_end }
    requires some { 1 ≤ length batch.now.items }
    requires few { length batch.now.items ≤ most_records }
    ensures next { IfOk result (λ next. IsFollowed tip.now (S.images store.old)
        (S.images store.new) batch.now next) }
    ensures beyond { IfOk result (λ next. IfSome next (λ tip. IsBeyond (S.images store.new) tip)) }
{
    if !stands_at(&batch.base, tip) {
        return Ok(None);
    }
    let items = batch.items.as_slice();
    match apply_items(store, tip, items, steps)? {
        Some(_cause) => Ok(None),
        None => Ok(Some(behind(tip, items.len()))),
    }
}

// The place behind so many items.
fn behind(tip: &i64, count: usize) -> i64
    requires low { tip.now ≤ℤ places_end }
    requires few { count ≤ most_records }
    ensures { result ≡ tip.now +ℤ pos count }
{
    tip + count as i64
}

/// A log as far as it is read: the place behind its last item, and how many bytes it has.
#[derive(Clone, Copy, Debug, Drop)]
struct Place {
    tip: i64,
    at: u64,
}

// The place behind a batch of so many bytes, at the new tip.
fn beyond(place: &Place, tip: i64, len: usize) -> Place
    requires { place.now.at + len ≤ longest }
    ensures tip { result.tip ≡ tip }
    ensures at { result.at ≡ place.now.at + len }
{
    Place {
        tip,
        at: place.at + len as u64,
    }
}

// Reads the next batch of a log that was read to this place, and answers the place behind it, or none at the end.
fn read_next<S: Source, L: Ledger>(
    alloc: Global,
    source: &mut S,
    store: &mut ImageStore,
    place: &Place,
    steps: &mut Steps<L>,
) -> Result<Option<Place>, ToolFault>
    requires stands { Stands store.old place.now.tip }
    requires within { IsWithin place.now }
    ensures next { ReadsOn (S.left source.old)
        (S.left source.new) place.now store.old store.new result }
    ensures within { IfOk result (λ next. IfSome next (λ p. IsWithin p × (place.now.at < p.at))) }
    ensures beyond { IfOk result (λ next. IfSome next (λ p. IsBeyond store.new p.tip)) }
    ensures same { IfOk result (λ next. next ≡ None → store.new ≡ store.old) }
    ensures read { IsErrOf result ToolFault.ReadFault →
        Rose (S.faults source.old) (S.faults source.new) }
    ensures later { S.faults source.old ≤ S.faults source.new }
{
    let bytes = match read_batch(alloc, source, place.at) {
        Ok(Some(bytes)) => bytes,
        Ok(None) => return Ok(None),
        Err(fault) => return Err(fault),
    };
    let at = place.at;
    let batch = match batch_of(alloc, bytes.as_slice())? {
        Some(batch) => batch,
        None => return Err(ToolFault::Malformed { at }),
    };
    let tip = match follow(store, &place.tip, &batch, steps)? {
        Some(tip) => tip,
        None => return Err(ToolFault::Malformed { at }),
    };
    Ok(Some(beyond(place, tip, bytes.len())))
}

// What is kept of a log that ends at the tip: the place of the open transaction and those above it, or the tip alone.
// What the batches below took out takes no memory then.
#[tactic(auto, using(crate::proofs::KeptEnds::kept_ends))]
fn keep_end<L: Ledger>(
    store: &mut ImageStore,
    tip: &i64,
    steps: &mut Steps<L>,
) -> Result<(), NoMemory>
    requires { IsBeyond store.old tip.now }
    ensures stands { OnOk result (Stands store.new tip.now) }
    ensures state { OnOk result (tip_state store.new ≡ tip_state store.old) }
{
    let _valid = store.counts();
    match store.open() {
        Some(begin) => {
            store.forget_below(begin, steps);
            Ok(())
        }
        None => keep_alone(store, tip, steps),
    }
}

// The present image is kept under the tip, and no other is.
#[tactic(auto, using(kr_store::proofs::Alone::alone, crate::proofs::KeptEnds::kept_alone))]
fn keep_alone<L: Ledger>(
    store: &mut ImageStore,
    tip: &i64,
    steps: &mut Steps<L>,
) -> Result<(), NoMemory>
    requires beyond { IsBeyond store.old tip.now }
    requires none { store.old.begun ≡ None }
    ensures stands { OnOk result (Stands store.new tip.now) }
    ensures state { OnOk result (tip_state store.new ≡ tip_state store.old) }
{
    let _valid = store.counts();
    store.mark(*tip)?;
    store.forget_below(*tip, steps);
    Ok(())
}

// Reads the next batch, and keeps no more of the log than it takes.
fn read_on<S: Source, L: Ledger>(
    alloc: Global,
    source: &mut S,
    store: &mut ImageStore,
    place: &Place,
    steps: &mut Steps<L>,
) -> Result<Option<Place>, ToolFault>
    requires stands { Stands store.old place.now.tip }
    requires within { IsWithin place.now }
    ensures next { ReadsOn (S.left source.old)
        (S.left source.new) place.now store.old store.new result }
    ensures within { IfOk result (λ next. IfSome next (λ p. IsWithin p × (place.now.at < p.at))) }
    ensures stands { IfOk result (λ next. IfSome next (λ p. Stands store.new p.tip)) }
    ensures same { IfOk result (λ next. next ≡ None → store.new ≡ store.old) }
    ensures read { IsErrOf result ToolFault.ReadFault →
        Rose (S.faults source.old) (S.faults source.new) }
    ensures later { S.faults source.old ≤ S.faults source.new }
{
    let next = match read_next(alloc, source, store, place, steps) {
        Ok(Some(next)) => next,
        Ok(None) => return Ok(None),
        Err(fault) => return Err(fault),
    };
    keep_end(store, &next.tip, steps)?;
    Ok(Some(next))
}

/// Reads a log from place 0 to the end of the input: the store of its state, and the place behind its last item.
pub(crate) fn read_log<S: Source, L: Ledger>(
    alloc: Global,
    source: &mut S,
    blank: Blank,
) -> Result<(ImageStore, i64), ToolFault>
    requires name { blank.name ≡ L.name }
    requires parts { blank.parts ≡ L.parts }
    requires whole { 0 < L.parts }
    ensures log { IfOk result (λ x. EndsLog (S.left source.old) (S.left source.new)
        (log_of x.1 x.0)) }
    ensures stands { IfOk result (λ x. Stands x.0 x.1) }
    ensures fault { IfErr result
        (λ fault. IsLogFault (S.left source.old) (S.left source.new) fault) }
    ensures read { IsErrOf result ToolFault.ReadFault →
        Rose (S.faults source.old) (S.faults source.new) }
    ensures later { S.faults source.old ≤ S.faults source.new }
{
    let mut steps: Steps<L> = Steps::new(blank);
    let mut store = ImageStore::new(alloc);
    store.mark(0)?; // the empty image
    let mut place = Place { tip: 0, at: 0 };
    loop {
        match read_on(alloc, source, &mut store, &place, &mut steps) {
            Ok(Some(next)) => place = next,
            Ok(None) => return Ok((store, place.tip)),
            Err(fault) => return Err(fault),
        }
    }
}
