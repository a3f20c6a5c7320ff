//! The image at a pinned place, written while the log goes on.

ghost use Rattle.std.specs.Prelude.{◌≡◌, ◌<◌, ◌≤◌, ◌^◌, ◌-◌, ◌≤ℤ◌, pos, None, IfErr, IfOk, IsErrOf, OnErr, OnOk, length};
ghost use Rattle.std.specs.Io.KnownBytes.{Appends};
ghost use Rattle.kr_base.specs.Causes.{Rose};
ghost use Rattle.kr_base.specs.FailedPuts.{AppendsFront};
ghost use Rattle.kr_calls.specs.SeatList.{image_below, loads_of};
ghost use Rattle.kr_defs.specs.Records.{records_of};
ghost use Rattle.kr_snapshot.specs.ImageText.{image_head};
ghost use Rattle.kr_snapshot.specs.Written.{IsNextText, MayPut, after_put, put_bytes};
ghost use Rattle.kr_shared.specs.declared.image_writing.ImageWriteFault.TheVariants as faults;
ghost use Rattle.kr_shared.specs.ImageWrites.{HasMiss, IsOver, IsPutFault, SeesMore, WritesImage, WritesText};

use crate::clients::ClientSeat;
use crate::image_walk::Walk;
use kr_base::{NoMemory, Sink};
use kr_defs::Records;
use kr_snapshot::Writer;
use kr_view::ScanFault;
use std::alloc::Global;

/// Why an image isn't written to its end.
#[derive(Clone, Copy, Debug, Drop, PartialEq, Eq)]
pub enum ImageWriteFault {
    /// The seat got no records: the place isn't kept, as no pin is once an image came in place of all, or there was no copy or
    /// no memory.
    Scan(ScanFault),
    /// Another image may have come in place of all since the first call.
    Loaded {
        /// The number of these images that the first call saw.
        first: u64,
        /// The number that a later one saw: another one, or the greatest u64.
        later: u64,
    },
    /// The sink failed.
    WriteFault,
    /// There was no memory.
    NoMemory,
}

impl From<ScanFault> for ImageWriteFault {
    ghost from_gives = { λ fault answer. answer ≡ faults.Scan fault };

    fn from(fault: ScanFault) -> ImageWriteFault {
        ImageWriteFault::Scan(fault)
    }
}

impl From<NoMemory> for ImageWriteFault {
    ghost from_gives = { λ _ answer. answer ≡ faults.NoMemory };

    fn from(_refused: NoMemory) -> ImageWriteFault {
        ImageWriteFault::NoMemory
    }
}

// Writes bytes by one put.
fn put<K: Sink>(sink: &mut K, bytes: &[u8]) -> Result<(), ImageWriteFault>
    ensures ok { OnOk result (Appends (K.written sink.old) (K.written sink.new) bytes.now) }
    ensures err { OnErr result
        (AppendsFront (K.written sink.old) (K.written sink.new) bytes.now) }
    ensures fault { IfErr result (λ fault. fault ≡ faults.WriteFault) }
    ensures rose { OnErr result (Rose (K.faults sink.old) (K.faults sink.new)) }
    ensures later { K.faults sink.old ≤ K.faults sink.new }
{
    match sink.put(bytes) {
        Ok(()) => Ok(()),
        Err(_failed) => Err(ImageWriteFault::WriteFault),
    }
}

// Begins the text of an image of so many records.
#[tactic(auto, using(crate::proofs::ImageWritten::no_front))]
fn put_head<K: Sink>(
    alloc: Global,
    place: &i64,
    count: u64,
    sink: &mut K,
) -> Result<Writer, ImageWriteFault>
    requires place { pos 0 ≤ℤ place.now }
    requires count { count < 2 ^ 63 }
    ensures ok { OnOk result
        (Appends (K.written sink.old) (K.written sink.new) (image_head place.now (pos count))) }
    ensures writer { IfOk result (λ w. w ≡ record {
      count = count;
      done = 0;
    }) }
    ensures err { OnErr result
        (AppendsFront (K.written sink.old) (K.written sink.new) (image_head place.now (pos count))) }
    ensures fault { IfErr result IsPutFault }
    ensures rose { IsErrOf result faults.WriteFault →
        Rose (K.faults sink.old) (K.faults sink.new) }
    ensures later { K.faults sink.old ≤ K.faults sink.new }
{
    let mut bytes = Vec::new(alloc);
    let writer = Writer::new(alloc, *place, count as i64, &mut bytes)?;
    put(sink, &bytes)?;
    Ok(writer)
}

// Goes on by one batch.
#[tactic(auto, using(crate::proofs::ImageWritten::no_front))]
fn put_batch<K: Sink>(
    alloc: Global,
    writer: &mut Writer,
    page: &Records,
    sink: &mut K,
) -> Result<(), ImageWriteFault>
    requires { MayPut writer.old page.now }
    ensures ok { OnOk result
        (Appends (K.written sink.old) (K.written sink.new) (put_bytes writer.old page.now)) }
    ensures writer { OnOk result (writer.new ≡ after_put writer.old page.now) }
    ensures text { IsNextText writer.old page.now (put_bytes writer.old page.now) }
    ensures err { OnErr result
        (AppendsFront (K.written sink.old) (K.written sink.new) (put_bytes writer.old page.now)) }
    ensures fault { IfErr result IsPutFault }
    ensures rose { IsErrOf result faults.WriteFault →
        Rose (K.faults sink.old) (K.faults sink.new) }
    ensures later { K.faults sink.old ≤ K.faults sink.new }
{
    let mut bytes = Vec::new(alloc);
    writer.put(page, &mut bytes)?;
    put(sink, &bytes)
}

// Writes the image of so many records that the walk goes over.
fn write_counted<K: Sink>(
    alloc: Global,
    seat: &mut ClientSeat,
    walk: &mut Walk,
    count: u64,
    sink: &mut K,
) -> Result<(), ImageWriteFault>
    requires over { IsOver walk.old seat.old.seen.list }
    requires start { walk.old.after ≡ None }
    requires few { loads_of seat.old.seen.list < 2 ^ 64 - 1 }
    requires count { count ≡ length
        (records_of (image_below walk.old.place seat.old.seen.list)) }
    requires small { count < 2 ^ 63 }
    ensures reads { SeesMore seat.old seat.new }
    ensures writes { WritesText walk.old.place seat.old.seen.list seat.new.seen.list
        (K.written sink.old) (K.written sink.new) result }
    ensures rose { IsErrOf result faults.WriteFault →
        Rose (K.faults sink.old) (K.faults sink.new) }
    ensures later { K.faults sink.old ≤ K.faults sink.new }
    ensures misses { HasMiss seat.old.misses seat.new.misses result }
{
    let mut writer = put_head(alloc, &walk.place, count, sink)?;
    let mut done = 0;
    while done < count {
        let page = walk.next_page(alloc, seat)?;
        put_batch(alloc, &mut writer, &page, sink)?;
        done += page.len() as u64;
    }
    Ok(())
}

// Counts the records that the walk goes over, and writes their image.
fn write_walk<K: Sink>(
    alloc: Global,
    seat: &mut ClientSeat,
    walk: &mut Walk,
    sink: &mut K,
) -> Result<(), ImageWriteFault>
    requires over { IsOver walk.old seat.old.seen.list }
    requires start { walk.old.after ≡ None }
    ensures reads { SeesMore seat.old seat.new }
    ensures writes { WritesText walk.old.place seat.old.seen.list seat.new.seen.list
        (K.written sink.old) (K.written sink.new) result }
    ensures rose { IsErrOf result faults.WriteFault →
        Rose (K.faults sink.old) (K.faults sink.new) }
    ensures later { K.faults sink.old ≤ K.faults sink.new }
    ensures misses { HasMiss seat.old.misses seat.new.misses result }
{
    let count = walk.count(alloc, seat)?;
    walk.restart();
    write_counted(alloc, seat, walk, count, sink)
}

/// Writes the image at a place that is kept, as one that the seat pinned: the place, how many records the image has, and these
/// in batches of 1,000, each by one put. It waits for nobody, and other seats may write meanwhile. It holds the records of one
/// batch at a time.
///
/// It answers Scan where a call of the seat gave no records, with nothing written where that was the first one; Loaded exactly
/// where a later call saw another number of images in place of all than the first one, or the greatest u64; WriteFault where
/// the sink failed; NoMemory where memory ran out.
pub fn write_image<K: Sink>(
    alloc: Global,
    seat: &mut ClientSeat,
    place: i64,
    sink: &mut K,
) -> Result<(), ImageWriteFault>
    // The seat may have seen more, and is as before otherwise.
    ensures reads { SeesMore seat.old seat.new }
    // Where the sink tells: at Ok the text of the image at the place, and else a front of that which the first call saw.
    ensures writes { WritesImage place seat.old.seen.list seat.new.seen.list (K.written sink.old)
        (K.written sink.new) result }
    // A failed write is told only where the sink's count rose, and no copy only where the seat's did.
    ensures rose { IsErrOf result faults.WriteFault →
        Rose (K.faults sink.old) (K.faults sink.new) }
    ensures misses { HasMiss seat.old.misses seat.new.misses result }
    // The sink's count never falls.
    ensures later { K.faults sink.old ≤ K.faults sink.new }
{
    let mut walk = Walk::begin(seat, place)?;
    write_walk(alloc, seat, &mut walk, sink)
}
