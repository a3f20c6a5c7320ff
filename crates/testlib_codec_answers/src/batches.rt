//! What the decoder of batches answers, in words, with what the encoder writes for what was decoded.

ghost use Rattle.std.specs.Prelude.{◌≡◌, ◌<◌, ◌^◌, ◌++◌, codes, length, nat_lt, if◌then◌else◌, IfOk, IsErr, string_bytes};
ghost use Rattle.std.specs.Fmt.{decimal};
ghost use Rattle.kr_batch.specs.Reading.{batch_of};
ghost use Rattle.kr_batch.specs.BatchBytes.{IsRegular};
ghost use Rattle.law_round_trip.specs.Items;
ghost use Rattle.law_round_trip.specs.Items.{HasRecords};
ghost use Rattle.testlib_codec_answers.specs.Words;
ghost use Rattle.testlib_codec_answers.specs.Words.{TellsBatch, batch_fault_words, counted_words, head_words, item_words, records_words, too_long, written_words};

use crate::records::{TOO_LONG, record_fault};
use kr_batch::{Batch, BatchFault, Cause};
use kr_defs::{Copied, Item};
use law_round_trip::batches_again;
use std::alloc::{AllocError, Global};

/// The batch that the bytes stand for, by its numbers and what is written for it, or their first fault.
pub fn batch_answer(alloc: Global, bytes: &[u8]) -> Result<String, AllocError>
    ensures { IfOk result (λ text. TellsBatch (string_bytes text) (length bytes.now) (batch_of
        bytes.now)) }
{
    batches_again();
    match kr_batch::decode(alloc, bytes) {
        Ok(batch) => batch_words(alloc, &batch, bytes.len()),
        Err(fault) => batch_fault(alloc, fault),
    }
}

fn batch_words(alloc: Global, batch: &Batch, len: usize) -> Result<String, AllocError>
    requires { len < 2 ^ 27 → HasRecords batch.now.items → IsRegular batch.now }
    ensures { IfOk result (λ text. string_bytes text ≡ item_words len batch.now) }
{
    let count = batch.items.len();
    let head = head_text(alloc, batch)?;
    if begins_with_control(batch.items.as_slice()) {
        return format!(in alloc; "{head} control {count}");
    }
    let written = written_batch(alloc, batch, len)?;
    records_text(alloc, &head, count, &written)
}

fn records_text(
    alloc: Global,
    head: &str,
    count: usize,
    written: &str,
) -> Result<String, AllocError>
    ensures { IfOk result (λ text. string_bytes text ≡ records_words head.now count written.now) }
{
    let counted = counted_text(alloc, head, count)?;
    format!(in alloc; "{counted} {written}")
}

fn counted_text(alloc: Global, head: &str, count: usize) -> Result<String, AllocError>
    ensures { IfOk result (λ text. string_bytes text ≡ counted_words head.now count) }
{
    format!(in alloc; "{head} items {count}")
}

fn begins_with_control(items: &[Item]) -> bool
    ensures { result ≡ Items.begins_with_control items.now }
{
    matches!(items, [Item::Control, ..])
}

fn head_text(alloc: Global, batch: &Batch) -> Result<String, AllocError>
    ensures { IfOk result (λ text. string_bytes text ≡ head_words batch.now) }
{
    let (base, epoch, time) = (batch.base, batch.epoch, batch.time);
    let place = format!(in alloc; "ok {base} {epoch}")?;
    format!(in alloc; "{place} {time}")
}

// A copy of the batch, so that copies of all records are compared too.
fn copy_of(alloc: Global, batch: &Batch) -> Result<Batch, AllocError>
    ensures { IfOk result (λ copy. copy ≡ batch.now) }
{
    let items = batch.items.copied(alloc)?;
    Ok(Batch {
        base: batch.base,
        epoch: batch.epoch,
        time: batch.time,
        items,
    })
}

// What is written for a batch that stood in so many bytes, by a copy of it.
fn written_batch(alloc: Global, batch: &Batch, len: usize) -> Result<String, AllocError>
    requires { len < 2 ^ 27 → IsRegular batch.now }
    ensures { IfOk result (λ text. string_bytes text ≡ written_words len batch.now) }
{
    if len >= 1 << 27 {
        return String::from_str(alloc, TOO_LONG);
    }
    let copy = copy_of(alloc, batch)?;
    let mut out = Vec::new(alloc);
    if kr_batch::encode(&copy, &mut out).is_err() {
        return Err(AllocError);
    }
    hex::encode(alloc, out.as_slice())
}

fn batch_fault(alloc: Global, fault: BatchFault) -> Result<String, AllocError>
    ensures words { IfOk result (λ text. string_bytes text ≡ batch_fault_words fault) }
    ensures no_memory { fault ≡ BatchFault.NoMemory → IsErr result }
{
    match fault {
        BatchFault::Short => String::from_str(alloc, "1 Short 0"),
        BatchFault::Trailing => String::from_str(alloc, "2 Trailing 0"),
        BatchFault::Magic { found } => format!(in alloc; "3 Magic 0 {found}"),
        BatchFault::Crc { stored, counted } => format!(in alloc; "4 Crc 0 {stored} {counted}"),
        BatchFault::Compressed { kind } => format!(in alloc; "5 Compressed 0 {kind}"),
        BatchFault::BadCount { count, delta } => format!(in alloc; "6 BadCount 0 {count} {delta}"),
        BatchFault::BadOffset { at } => format!(in alloc; "7 BadOffset {at}"),
        BatchFault::Record { at, cause } => {
            let words = cause_words(alloc, cause)?;
            format!(in alloc; "8 Record {at} {words}")
        }
        BatchFault::NoMemory => Err(AllocError),
    }
}

fn cause_words(alloc: Global, cause: Cause) -> Result<String, AllocError>
    ensures { IfOk result (λ text. string_bytes text ≡ Words.cause_words cause) }
{
    match cause {
        Cause::Framing => String::from_str(alloc, "Framing"),
        Cause::Value(fault) => record_fault(alloc, fault),
    }
}
