//! Images to bytes.

ghost use Rattle.std.specs.Prelude.{◌≡◌, ◌↔◌, ◌<◌, ◌^◌, ◌++◌, ◌≤ℤ◌, pos, length, None, All, IsErrOf, IfOk, IfSome, OnOk, OnErr};
ghost use Rattle.kr_defs.specs.declared.limits.TheConstants.{IMAGE_BATCH as most};
ghost use Rattle.kr_defs.specs.ImageLaws.{as_items};
ghost use Rattle.kr_defs.specs.Records.{records_of};
ghost use Rattle.kr_record.specs.Encodable.{IsHeld};
ghost use Rattle.kr_store.specs.Images.{image_of_place};
ghost use Rattle.kr_snapshot.specs.Grammar.{IsImage};
ghost use Rattle.kr_snapshot.specs.inner.Writer.{Adds, MayAdd};
ghost use Rattle.kr_snapshot.specs.ImageText.{batches_bytes, chunks, image_head, image_text};
ghost use Rattle.kr_snapshot.specs.declared.fault.SnapFault.TheVariants as faults;

use crate::batch_writer::BatchWriter;
use crate::fault::SnapFault;
use crate::walking::{put_brokers, put_configs, put_features, put_topics};
use kr_base::NoMemory;
use kr_store::{At, Seen, Store};
use kr_wire::{put_both, put_i64};
use std::alloc::{AllocError, Global};

fn put_records<S: Store>(
    alloc: Global,
    seen: &Seen<S>,
    writer: &mut BatchWriter,
) -> Result<(), NoMemory>
    requires { MayAdd writer.old (records_of seen.now) }
    ensures { OnOk result (Adds writer.old writer.new (records_of seen.now)) }
{
    seen.is_valid();
    put_features(alloc, seen, writer)?;
    put_brokers(alloc, seen, writer)?;
    put_topics(alloc, seen, writer)?;
    put_configs(alloc, seen, writer)
}

// The batches of all records, and how many records these are.
fn batches<S: Store>(alloc: Global, seen: &Seen<S>) -> Result<(Vec<u8>, usize), NoMemory>
    ensures bytes { IfOk result (λ x. x.0.items ≡ batches_bytes 0 (chunks most (as_items (records_of seen.now)))) }
    ensures count { IfOk result (λ x. x.1 ≡ length (records_of seen.now)) }
    ensures small { IfOk result (λ x. x.1 < 2 ^ 63) }
    ensures held { OnOk result (All IsHeld (records_of seen.now)) }
{
    seen.is_valid();
    let mut writer = BatchWriter::new(alloc);
    put_records(alloc, seen, &mut writer)?;
    writer.finish()
}

/// Appends the head; without memory perhaps a part of it.
pub(crate) fn put_head(offset: i64, count: i64, out: &mut Vec<u8>) -> Result<(), AllocError>
    ensures { OnOk result (out.new.items ≡ out.old.items ++ image_head offset count) }
{
    put_i64(out, offset)?;
    put_i64(out, count)
}

#[tactic(auto, unfolding(crate::specs::ImageText::image_text))]
fn put_image<S: Store>(
    alloc: Global,
    seen: &Seen<S>,
    offset: i64,
    out: &mut Vec<u8>,
) -> Result<(), NoMemory>
    ensures ok { OnOk result (out.new.items ≡ out.old.items ++ image_text offset seen.now) }
    ensures few { OnOk result (length (records_of seen.now) < 2 ^ 63) }
    ensures held { OnOk result (All IsHeld (records_of seen.now)) }
    ensures err { OnErr result (out.new.items ≡ out.old.items) }
{
    let (body, count) = batches(alloc, seen)?;
    let mut head = Vec::new(alloc);
    put_head(offset, count as i64, &mut head)?;
    put_both(out, &head, &body)?;
    Ok(())
}

/// Appends the image, under an offset: the offset, how many records it has, and its records in batches of 1,000. After an
/// `Err`, which is want of memory, nothing has changed.
pub fn write_seen<S: Store>(
    alloc: Global,
    seen: &Seen<S>,
    offset: i64,
    out: &mut Vec<u8>,
) -> Result<(), NoMemory>
    requires { pos 0 ≤ℤ offset }
    ensures ok { OnOk result (out.new.items ≡ out.old.items ++ image_text offset seen.now) }
    // What is appended stands for the image and its offset.
    ensures stands { OnOk result (IsImage offset seen.now (image_text offset seen.now)) }
    ensures err { OnErr result (out.new.items ≡ out.old.items) }
{
    seen.is_valid();
    put_image(alloc, seen, offset, out)
}

/// Appends the image at a place, as `write_seen` does. After an `Err` nothing has changed; it is NoEpoch exactly where the
/// place is an epoch that isn't kept.
pub fn write<S: Store>(
    alloc: Global,
    store: &S,
    at: At,
    offset: i64,
    out: &mut Vec<u8>,
) -> Result<(), SnapFault>
    requires { pos 0 ≤ℤ offset }
    ensures ok { OnOk result (IfSome (image_of_place (S.images store.now) at) (λ image. out.new.items ≡ out.old.items ++ image_text offset image)) }
    // What is appended stands for the image and its offset.
    ensures stands { OnOk result (IfSome (image_of_place (S.images store.now) at) (λ image. IsImage offset image (image_text offset image))) }
    ensures err { OnErr result (out.new.items ≡ out.old.items) }
    ensures no_epoch { IsErrOf result faults.NoEpoch ↔ (image_of_place (S.images store.now) at ≡ None) }
{
    let seen = Seen::at(store, at)?;
    write_seen(alloc, &seen, offset, out)?;
    Ok(())
}
