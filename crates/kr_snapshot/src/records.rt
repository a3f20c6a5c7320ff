//! The records of an image are read, batch by batch.

ghost use Rattle.std.specs.Prelude.{◌≡◌, ◌≤◌, ◌<◌, ◌+◌, ◌^◌, length, IfOk, IsSome, OnOk};
ghost use Rattle.std.specs.List.{list_any};
ghost use Rattle.kr_defs.specs.declared.limits.TheConstants.{MOST_RECORDS as most};
ghost use Rattle.kr_defs.specs.Image.{empty};
ghost use Rattle.kr_store.specs.Images.{last_kept};
ghost use Rattle.kr_batch.specs.Reading.{batch_of};
ghost use Rattle.kr_snapshot.specs.ReaderState as answers;
ghost use Rattle.kr_snapshot.specs.ReaderState.{Gives, HasRoom, LeadsTo, progress_in};
ghost use Rattle.kr_snapshot.specs.Reading as reading;

use crate::fault::{BatchCause, ImageFault};
use crate::order::Order;
use kr_base::Steps;
use kr_batch::{Batch, BatchFault, decode};
use kr_defs::{Item, Items, Record};
use kr_image::ImageStore;
use kr_store::{ApplyFault, Store};
use std::alloc::Global;
use std::marker::Brand;
use std::sync::ledger::{Blank, Ledger};

/// How many records there are to be, how many were read of them, and the order so far. What they made is in the store.
#[derive(Drop)]
pub(crate) struct Tally {
    pub expected: u64,
    pub found: u64,
    pub order: Order,
}

impl Tally {
    /// None of so many was read.
    pub fn begin(expected: u64) -> Tally
        requires { expected < 2 ^ 63 }
        ensures begun { progress_in result empty ≡ reading.nothing_found expected }
        ensures room { HasRoom result }
    {
        Tally {
            expected,
            found: 0,
            order: Order::new(),
        }
    }
}

// A record: its place in the order, and then its meaning.
#[tactic(auto, unfolding(crate::specs::Reading::record_read))]
fn read_record<L: Ledger>(
    alloc: Global,
    tally: &mut Tally,
    store: &mut ImageStore,
    value: &Record,
    steps: &mut Steps<L>,
) -> Result<(), ImageFault>
    requires room { HasRoom tally.old }
    requires more { tally.old.found < tally.old.expected }
    requires some { IsSome (last_kept store.old) }
    ensures read { LeadsTo result (progress_in tally.new store.new.tip) (reading.record_read (progress_in tally.old store.old.tip) value.now) }
    ensures kept { store.new.kept ≡ store.old.kept }
    ensures begun { OnOk result (store.new.begun ≡ store.old.begun) }
    ensures kept_begun { store.new.kept_begun ≡ store.old.kept_begun }
    ensures count { OnOk result (tally.new.found ≡ tally.old.found + 1) }
    ensures expected { tally.new.expected ≡ tally.old.expected }
{
    let place = tally.found as i64;
    let Some(rank) = tally.order.later_rank(alloc, value)? else {
        return Err(ImageFault::Order { place });
    };
    match store.apply_record(place, value, steps) {
        Ok(()) => {}
        Err(ApplyFault::IllFormed { place, cause }) => {
            return Err(ImageFault::IllFormed { place, cause });
        }
        Err(ApplyFault::NoMemory) => return Err(ImageFault::NoMemory),
    }
    tally.order.add(alloc, rank, value)?;
    tally.found += 1;
    Ok(())
}

fn read_item<L: Ledger>(
    alloc: Global,
    tally: &mut Tally,
    store: &mut ImageStore,
    item: &Item,
    steps: &mut Steps<L>,
) -> Result<(), ImageFault>
    requires room { HasRoom tally.old }
    requires more { tally.old.found < tally.old.expected }
    requires some { IsSome (last_kept store.old) }
    ensures read { LeadsTo result (progress_in tally.new store.new.tip) (reading.item_read (progress_in tally.old store.old.tip) item.now) }
    ensures kept { store.new.kept ≡ store.old.kept }
    ensures begun { OnOk result (store.new.begun ≡ store.old.begun) }
    ensures kept_begun { store.new.kept_begun ≡ store.old.kept_begun }
    ensures count { OnOk result (tally.new.found ≡ tally.old.found + 1) }
    ensures expected { tally.new.expected ≡ tally.old.expected }
{
    match item {
        Item::Record(value) => read_record(alloc, tally, store, value, steps),
        Item::Control => Err(ImageFault::Batch {
            place: tally.found as i64,
            cause: BatchCause::Control,
        }),
    }
}

fn read_items<L: Ledger>(
    alloc: Global,
    tally: &mut Tally,
    store: &mut ImageStore,
    items: &Items,
    blank: Blank,
) -> Result<(), ImageFault>
    requires name { blank.name ≡ L.name }
    requires parts { blank.parts ≡ L.parts }
    requires whole { 0 < L.parts }
    requires room { HasRoom tally.old }
    requires within { tally.old.found + length items.now ≤ tally.old.expected }
    requires some { IsSome (last_kept store.old) }
    ensures read { LeadsTo result (progress_in tally.new store.new.tip) (reading.items_read (progress_in tally.old store.old.tip) items.now) }
    ensures kept { store.new.kept ≡ store.old.kept }
    ensures begun { OnOk result (store.new.begun ≡ store.old.begun) }
    ensures kept_begun { store.new.kept_begun ≡ store.old.kept_begun }
    ensures count { OnOk result (tally.new.found ≡ tally.old.found + length items.now) }
    ensures expected { tally.new.expected ≡ tally.old.expected }
{
    let mut steps: Steps<L> = Steps::new(blank);
    let list = items.as_slice();
    for item in list {
        read_item(alloc, tally, store, item, &mut steps)?;
    }
    Ok(())
}

fn is_control(item: &Item) -> bool
    ensures { result ≡ reading.is_control item.now }
{
    match item {
        Item::Control => true,
        Item::Record(_) => false,
    }
}

fn has_control(items: &Items) -> bool
    ensures { result ≡ list_any reading.is_control items.now }
{
    items.as_slice().iter().any(is_control)
}

// A batch: its base, whether it is one of the quorum's own, its count, and then its records.
#[tactic(auto, unfolding(crate::specs::Reading::batch_read))]
fn read_batch(
    alloc: Global,
    tally: &mut Tally,
    store: &mut ImageStore,
    batch: &Batch,
) -> Result<(), ImageFault>
    requires room { HasRoom tally.old }
    requires few { length batch.now.items ≤ most }
    requires some { IsSome (last_kept store.old) }
    ensures read { LeadsTo result (progress_in tally.new store.new.tip) (reading.batch_read (progress_in tally.old store.old.tip) batch.now) }
    ensures kept { store.new.kept ≡ store.old.kept }
    ensures begun { OnOk result (store.new.begun ≡ store.old.begun) }
    ensures kept_begun { store.new.kept_begun ≡ store.old.kept_begun }
    ensures room { OnOk result (HasRoom tally.new) }
{
    let place = tally.found as i64;
    if batch.base != place {
        let cause = BatchCause::Base;
        return Err(ImageFault::Batch { place, cause });
    }
    if has_control(&batch.items) {
        let cause = BatchCause::Control;
        return Err(ImageFault::Batch { place, cause });
    }
    let found = tally.found + batch.items.len() as u64;
    if found > tally.expected {
        let expected = tally.expected;
        return Err(ImageFault::NoEnd { found, expected });
    }
    read_items::<Brand>(alloc, tally, store, &batch.items, Blank::new(1))
}

fn fault_of_batch(found: u64, fault: BatchFault) -> ImageFault
    requires { found < 2 ^ 63 }
    ensures { result ≡ answers.fault_of_batch found fault }
{
    match fault {
        BatchFault::NoMemory => ImageFault::NoMemory,
        _ => ImageFault::Batch {
            place: found as i64,
            cause: BatchCause::Refused(fault),
        },
    }
}

// The batch that these bytes stand for.
#[tactic(auto, using(crate::proofs::Faults::refusal))]
fn decode_batch(alloc: Global, found: u64, bytes: &[u8]) -> Result<Batch, ImageFault>
    requires { found < 2 ^ 63 }
    ensures read { Gives result (reading.batch_refused found (batch_of bytes.now)) }
    ensures few { IfOk result (λ b. length b.items ≤ most) }
{
    match decode(alloc, bytes) {
        Ok(batch) => Ok(batch),
        Err(fault) => Err(fault_of_batch(found, fault)),
    }
}

/// All bytes of a batch.
#[tactic(auto, unfolding(crate::specs::Reading::whole_read))]
pub(crate) fn read_whole(
    alloc: Global,
    tally: &mut Tally,
    store: &mut ImageStore,
    bytes: &[u8],
) -> Result<(), ImageFault>
    requires room { HasRoom tally.old }
    requires some { IsSome (last_kept store.old) }
    ensures read { LeadsTo result (progress_in tally.new store.new.tip) (reading.whole_read (progress_in tally.old store.old.tip) bytes.now) }
    ensures kept { store.new.kept ≡ store.old.kept }
    ensures begun { OnOk result (store.new.begun ≡ store.old.begun) }
    ensures kept_begun { store.new.kept_begun ≡ store.old.kept_begun }
    ensures room { OnOk result (HasRoom tally.new) }
{
    let batch = decode_batch(alloc, tally.found, bytes)?;
    read_batch(alloc, tally, store, &batch)
}
