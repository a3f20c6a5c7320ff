//! Each job once, and what came of it: the same lines in each run.

use crate::batches::{Encoded, Kind};
use crate::beats::{BEATS, MANY, beat_all, list_of};
use crate::checksum::numbers;
use crate::image::Written;
use crate::placing::{brokers, place_all};
use crate::request::{Form, ask, topics_of};
use anyhow::Result;
use kr_batch::{BatchFault, crc32c};
use kr_defs::Ids;
use kr_snapshot::{ImageFault, SnapFault};
use kr_store::{Counts, Store};
use std::alloc::{AllocError, Global};

/// Does each job once and prints a line on each.
pub(crate) fn print_jobs<R: Print + AllocGlobal>(rt: &R) -> Result<()> {
    print_checksum(rt)?;
    print_batch(rt, Kind::Changes)?;
    print_batch(rt, Kind::Settings)?;
    print_request(rt, Form::Half)?;
    print_request(rt, Form::Whole)?;
    print_request(rt, Form::Promising)?;
    print_placed(rt)?;
    print_beats(rt)?;
    print_image(rt)
}

fn print_checksum<R: Print + AllocGlobal>(rt: &R) -> Result<()> {
    let (size, sum) = checksum(rt.alloc())?;
    println!(rt; "crc32c: {size} bytes, sum {sum:#010x}")?;
    Ok(())
}

fn checksum(alloc: Global) -> Result<(usize, u32), AllocError> {
    let bytes = numbers(alloc)?;
    Ok((bytes.len(), crc32c(&bytes)))
}

fn print_batch<R: Print + AllocGlobal>(rt: &R, kind: Kind) -> Result<()> {
    let encoded = Encoded::new(rt.alloc(), kind)?;
    print_encoded(rt, kind, &encoded)?;
    print_decoded(rt, kind, &encoded)
}

fn print_encoded<R: Print + AllocGlobal>(rt: &R, kind: Kind, encoded: &Encoded) -> Result<()> {
    let (size, sum) = encode(rt.alloc(), encoded)?;
    let (name, _) = kind.names();
    let records = encoded.records();
    println!(rt; "{name}: {records} records, {size} bytes, sum {sum:#010x}")?;
    Ok(())
}

fn encode(alloc: Global, encoded: &Encoded) -> Result<(usize, u32), AllocError> {
    let mut bytes = Vec::new(alloc);
    encoded.encode(&mut bytes)?;
    Ok((bytes.len(), crc32c(&bytes)))
}

fn print_decoded<R: Print + AllocGlobal>(rt: &R, kind: Kind, encoded: &Encoded) -> Result<()> {
    let (records, is_same) = decode(rt.alloc(), encoded)?;
    let (_, name) = kind.names();
    let size = encoded.as_bytes().len();
    let is = if is_same { "the same" } else { "another" };
    println!(rt; "{name}: {size} bytes, {records} records, {is} batch")?;
    Ok(())
}

fn decode(alloc: Global, encoded: &Encoded) -> Result<(usize, bool), BatchFault> {
    let batch = encoded.decode(alloc)?;
    Ok((batch.items.len(), encoded.has(&batch)))
}

fn print_request<R: Print + AllocGlobal>(rt: &R, form: Form) -> Result<()> {
    let (size, topics) = read_request(rt.alloc(), form)?;
    println!(rt; "{}: {size} bytes, {topics} topics", form.name())?;
    Ok(())
}

fn read_request(alloc: Global, form: Form) -> Result<(usize, usize), AllocError> {
    let message = form.message(alloc)?;
    let ask = ask(alloc, &message)?;
    Ok((message.len(), topics_of(&ask).unwrap_or(0)))
}

fn print_placed<R: Print + AllocGlobal>(rt: &R) -> Result<()> {
    let brokers = brokers(rt.alloc())?;
    let placed = place_all(rt.alloc(), &brokers)?;
    print_last(rt, brokers.len(), &placed)
}

fn print_last<R: Print>(rt: &R, brokers: usize, placed: &[Ids]) -> Result<()> {
    let partitions = placed.len();
    print!(rt; "place: {partitions} partitions over {brokers} brokers, the last on")?;
    if let Some(ids) = placed.last() {
        for id in ids.as_slice() {
            print!(rt; " {id}")?;
        }
    }
    println!(rt; "")?;
    Ok(())
}

fn print_beats<R: Print + AllocGlobal>(rt: &R) -> Result<()> {
    if let Some((broker, time)) = oldest_of(rt.alloc(), MANY)? {
        println!(rt; "beat: {BEATS} times by {MANY} brokers, the oldest by {broker} at {time}")?;
    }
    Ok(())
}

fn oldest_of(alloc: Global, brokers: u16) -> Result<Option<(i32, i64)>, AllocError> {
    let mut list = list_of(alloc, brokers)?;
    beat_all(&mut list, brokers, 0)?;
    Ok(list.oldest())
}

fn print_image<R: Print + AllocGlobal>(rt: &R) -> Result<()> {
    let image = Written::new(rt.alloc())?;
    print_written(rt, &image)?;
    print_read(rt, &image)
}

fn print_written<R: Print + AllocGlobal>(rt: &R, image: &Written) -> Result<()> {
    let (size, sum) = write(rt.alloc(), image)?;
    println!(rt; "write image: {size} bytes, sum {sum:#010x}")?;
    Ok(())
}

fn write(alloc: Global, image: &Written) -> Result<(usize, u32), SnapFault> {
    let mut bytes = Vec::new(alloc);
    image.write(alloc, &mut bytes)?;
    Ok((bytes.len(), crc32c(&bytes)))
}

fn print_read<R: Print + AllocGlobal>(rt: &R, image: &Written) -> Result<()> {
    let (offset, counts) = read(rt.alloc(), image)?;
    let Counts {
        brokers,
        topics,
        partitions,
        config_bytes,
        ..
    } = counts;
    println!(rt;
        "read image: at {offset}, {brokers} brokers, {topics} topics, {partitions} partitions, {config_bytes} bytes of settings"
    )?;
    Ok(())
}

fn read(alloc: Global, image: &Written) -> Result<(i64, Counts), ImageFault> {
    let (offset, store) = image.read(alloc)?;
    Ok((offset, store.counts()))
}
