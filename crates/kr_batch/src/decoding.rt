//! Batches from bytes.

ghost use Rattle.std.specs.Prelude.{◌≡◌, ◌<◌, ◌≤◌, pos, length, drop, Ok, IfOk};
ghost use Rattle.std.specs.Ordering.{int_eq};
ghost use Rattle.std.proofs.Math.ListN.{replicate};
ghost use Rattle.kr_defs.specs.declared.limits.TheConstants.{MOST_RECORDS};
ghost use Rattle.kr_defs.specs.declared.record.Item.TheVariants as items;
ghost use Rattle.kr_record.specs.Reading.{record_of};
ghost use Rattle.kr_batch.specs.Answers.{Gives, GivesAt};
ghost use Rattle.kr_batch.specs.Answers;
ghost use Rattle.kr_batch.specs.declared.Batch.{Batch as AnyBatch};
ghost use Rattle.kr_batch.specs.Grammar.{IsBatch};
ghost use Rattle.kr_batch.specs.Reading.{batch_of, caused, records_from, entry_at, items_of};

use crate::Batch;
use crate::fault::{BatchFault, Cause};
use crate::framing::read_frame;
use crate::heading::{read_fixed, read_place, read_sum};
use kr_defs::{Item, Items, Record};
use kr_record::RecordFault;
use std::alloc::Global;

// The fewest bytes of a record: its length, attributes, timestamp, offset, key, the length of its value, and headers.
const LEAST_RECORD: usize = 7;

#[tactic(auto, unfolding(crate::specs::Reading::batch_of), using(crate::proofs::Faults::is_fault))]
fn batch(alloc: Global, bytes: &[u8]) -> Result<Batch, BatchFault>
    ensures { Gives result (batch_of bytes.now) }
{
    let (base, rest) = read_place(bytes)?;
    let (epoch, checked) = read_sum(rest)?;
    let ((control, time, count), records) = read_fixed(checked)?;
    if base < 0 {
        return Err(BatchFault::BadOffset { at: 0 });
    }
    let items = read_items(alloc, control, count, records)?;
    Ok(Batch {
        base,
        epoch,
        time,
        items,
    })
}

#[tactic(auto, unfolding(crate::specs::Reading::items_of))]
fn read_items(alloc: Global, control: bool, count: u32, bytes: &[u8]) -> Result<Items, BatchFault>
    requires { count ≤ MOST_RECORDS }
    ensures { Gives result (items_of control count bytes.now) }
{
    if control {
        controls(alloc, count)
    } else {
        read_entries(alloc, bytes, count)
    }
}

fn controls(alloc: Global, count: u32) -> Result<Items, BatchFault>
    ensures { Gives result (Ok (replicate count items.Control)) }
{
    let mut list = Vec::new(alloc);
    for _ in 0..count {
        list.push(Item::Control)?;
    }
    Ok(Items::from_vec(list))
}

fn read_entries(alloc: Global, bytes: &[u8], count: u32) -> Result<Items, BatchFault>
    requires { count ≤ MOST_RECORDS }
    ensures { Gives result (records_from 0 count bytes.now) }
{
    let room = (count as usize).min(bytes.len() / LEAST_RECORD);
    let mut list = Vec::with_capacity(alloc, room)?;
    let mut next = 0;
    for number in 0..count {
        let (record, after) = read_entry(alloc, bytes, next, number, number + 1 == count)?;
        list.push(Item::Record(record))?;
        next = after;
    }
    Ok(Items::from_vec(list))
}

#[tactic(auto, unfolding(crate::specs::Reading::entry_at), using(crate::proofs::Faults::through))]
#[inline(always)]
fn read_entry(
    alloc: Global,
    bytes: &[u8],
    at: usize,
    number: u32,
    last: bool,
) -> Result<(Record, usize), BatchFault>
    requires start { at ≤ length bytes.now }
    requires few { number < MOST_RECORDS }
    ensures { GivesAt result bytes.now (entry_at number last (drop at bytes.now)) }
{
    let ((delta, value), next) = match read_frame(bytes, at) {
        Ok(frame) => frame,
        Err(_) => {
            return Err(BatchFault::Record {
                at: number,
                cause: Cause::Framing,
            });
        }
    };
    if last && next < bytes.len() {
        return Err(BatchFault::Record {
            at: number,
            cause: Cause::Framing,
        });
    }
    if !is_at(delta, number) {
        return Err(BatchFault::BadOffset { at: number });
    }
    let record = read_value(alloc, value, number)?;
    Ok((record, next))
}

fn is_at(delta: i32, number: u32) -> bool
    requires { number < MOST_RECORDS }
    ensures { result ≡ int_eq delta (pos number) }
{
    delta == number as i32
}

#[tactic(auto, using(crate::proofs::Faults::value_fault))]
#[inline(always)]
fn read_value(alloc: Global, value: &[u8], number: u32) -> Result<Record, BatchFault>
    ensures { Gives result (caused number (record_of value.now)) }
{
    match kr_record::decode(alloc, value) {
        Ok(record) => Ok(record),
        Err(cause) => Err(fault_as(number, cause)),
    }
}

fn fault_as(number: u32, cause: RecordFault) -> BatchFault
    ensures { result ≡ Answers.fault_as number cause }
{
    match cause {
        RecordFault::NoMemory => BatchFault::NoMemory,
        _ => BatchFault::Record {
            at: number,
            cause: Cause::Value(cause),
        },
    }
}

/// The batch that all of the bytes stand for, or the first fault, in the order of `BatchFault`; a
/// negative base is judged after the count, and then the records one by one.
#[tactic(auto, using(crate::proofs::Batches::decoded))]
pub fn decode(alloc: Global, bytes: &[u8]) -> Result<Batch, BatchFault>
    // What is decoded is what the bytes stand for.
    ensures found { IfOk result (λ b. IsBatch b bytes.now) }
    // What bytes stand for is decoded, unless memory runs out.
    ensures only { (b : AnyBatch) → IsBatch b bytes.now → Gives result (Ok b) }
    // Bytes stand for at most one batch.
    ensures one { (a : AnyBatch) (b : AnyBatch) → IsBatch a bytes.now → IsBatch b bytes.now → a ≡ b }
    // Which fault it is.
    ensures exact { Gives result (batch_of bytes.now) }
{
    batch(alloc, bytes)
}
