//! A leader's records are one batch at the tip of its log.

ghost use Rattle.std.specs.Prelude.{◌≡◌, ◌+ℤ◌, ◌≤ℤ◌, ◌≤◌, ◌<◌, ◌^◌, ℤ, pos, length, All, IfOk, OnOk, OnErr, IsTrue, int_lt};
ghost use Rattle.kr_defs.specs.declared.limits.TheConstants.{MOST_RECORDS as most_records, PLACES_END as places_end};
ghost use Rattle.kr_defs.specs.declared.record.Item.TheVariants as items;
ghost use Rattle.kr_defs.specs.ImageLaws.{as_items};
ghost use Rattle.kr_batch.specs.BatchBytes.{VALUES_END, IsWritable, batch_bytes, values_size};
ghost use Rattle.kr_calls.specs.declared.events.Output.TheVariants as given;
ghost use Rattle.law_batch_limits.specs.Fitting.{FitsBatch};
ghost use Rattle.kr_store.specs.Images.{IsAbove};
ghost use Rattle.kr_model.specs.Reasons as reasons;
ghost use Rattle.kr_engine.specs.inner.Append.{batch_in, core_after_append, core_after_append_in};
ghost use Rattle.kr_engine.specs.inner.Changes.{GivesAlone};

use crate::Engine;
use kr_base::NoMemory;
use kr_batch::{Batch, encode};
use kr_calls::Output;
use kr_defs::{Item, Items, Record, Records, Rows};
use std::alloc::Global;

fn item_of(value: Record) -> Item
    ensures { result ≡ items.Record value }
{
    Item::Record(value)
}

// Records as items of a log.
fn items_of(alloc: Global, records: Records) -> Result<Items, NoMemory>
    ensures { IfOk result (λ items. items ≡ as_items records) }
{
    let records = records.into_vec();
    let items = records
        .into_iter()
        .map(|value| item_of(value))
        .collect(alloc)?;
    Ok(Rows::from_vec(items))
}

// The led epoch, -1 on standby.
pub(crate) fn led_epoch(leading: &Option<i32>) -> i32
    ensures { result ≡ reasons.led_epoch leading.now }
{
    match leading {
        Some(led) => *led,
        None => -1,
    }
}

fn append_output(alloc: Global, batch: &Batch) -> Result<Output, NoMemory>
    requires some { 1 ≤ length batch.now.items }
    requires few { length batch.now.items ≤ most_records }
    requires each { All IsWritable batch.now.items }
    requires small { values_size batch.now.items < VALUES_END }
    ensures { IfOk result (λ output. output ≡ given.Append (batch_bytes batch.now)) }
{
    let mut bytes = Vec::new(alloc);
    encode(batch, &mut bytes)?;
    Ok(Output::Append {
        bytes: Rows::from_vec(bytes),
    })
}

fn place_behind(tip: &i64, records: &Records) -> i64
    requires low { tip.now ≤ℤ places_end }
    requires few { length records.now ≤ most_records }
    ensures { result ≡ (tip.now +ℤ pos (length records.now)) }
{
    *tip + records.len() as i64
}

impl Engine {
    // The batch of records at the tip, in the epoch, and its items.
    #[tactic(auto, using(crate::proofs::EventBatches::fits))]
    fn batch_output(&self, epoch: &i32, records: Records) -> Result<(Output, Items), NoMemory>
        requires some { 1 ≤ length records }
        requires fits { FitsBatch records }
        ensures output { IfOk result (λ x. x.0 ≡ given.Append (batch_bytes (batch_in self.now epoch.now records))) }
        ensures items { IfOk result (λ x. x.1 ≡ as_items records) }
    {
        let batch = Batch {
            base: self.tip,
            epoch: *epoch,
            time: self.time,
            items: items_of(self.alloc, records)?,
        };
        let output = append_output(self.alloc, &batch)?;
        Ok((output, batch.items))
    }

    // Appends records in the epoch, behind which the present image is. Nothing is written where there are none.
    #[tactic(auto, using(crate::proofs::EventBatches::some_records, crate::proofs::EventBatches::fits))]
    pub(crate) fn append_in(&mut self, epoch: &i32, records: Records) -> Result<(), NoMemory>
        requires low { self.old.tip ≤ℤ places_end }
        requires fits { FitsBatch records }
        requires above { (place : ℤ) → IsTrue (int_lt self.old.tip place) → IsAbove self.old.images.kept place }
        ensures appended { OnOk result (self.new ≡ core_after_append_in self.old epoch.now records) }
        ensures begun { OnErr result (GivesAlone self.old self.new) }
    {
        if records.is_empty() {
            return Ok(());
        }
        let end = place_behind(&self.tip, &records);
        let (output, items) = self.batch_output(epoch, records)?;
        self.add_items(items)?;
        self.given.push_back(output)?;
        self.store.mark(end)?;
        self.tip = end;
        Ok(())
    }

    // The same in the led epoch.
    pub(crate) fn append(&mut self, records: Records) -> Result<(), NoMemory>
        requires low { self.old.tip ≤ℤ places_end }
        requires fits { FitsBatch records }
        requires above { (place : ℤ) → IsTrue (int_lt self.old.tip place) → IsAbove self.old.images.kept place }
        ensures appended { OnOk result (self.new ≡ core_after_append self.old records) }
        ensures begun { OnErr result (GivesAlone self.old self.new) }
    {
        let epoch = led_epoch(&self.leading);
        self.append_in(&epoch, records)
    }
}
