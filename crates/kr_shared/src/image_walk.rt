//! A walk over the records of the image at a place, a page after the other.

ghost use Rattle.std.specs.Prelude.{◌≡◌, ◌+◌, ◌<◌, ◌≤◌, ◌^◌, None, Some, IfErr, IfOk, IsTrue, OnErr, OnOk, length};
ghost use Rattle.kr_calls.specs.SeatList.{image_below, pinned_log};
ghost use Rattle.kr_defs.specs.declared.limits.TheConstants.{IMAGE_BATCH as most};
ghost use Rattle.kr_defs.specs.Records.{records_of};
ghost use Rattle.kr_view.specs.declared.record_key.RecordKey.TheVariants as keys;
ghost use Rattle.kr_view.specs.Readers.{HasScanCause};
ghost use Rattle.kr_view.specs.RecordPages.{record_page};
ghost use Rattle.kr_view.specs.Scans.{IsNotThere};
ghost use Rattle.kr_shared.specs.Clients.{client_reading};
ghost use Rattle.kr_shared.specs.ImageWrites.{HasMiss, IsNextPage, IsOver, IsReaderFault, IsStop, SeesMore, StillKept, walk_from};
ghost use Rattle.kr_shared.specs.KeysBehind.{key_behind, keys_behind, topic_name_in};

use crate::clients::ClientSeat;
use crate::image_writing::ImageWriteFault;
use kr_base::NoMemory;
use kr_calls::laws::kept_places_stay;
use kr_defs::laws::empty_is_valid;
use kr_defs::limits::IMAGE_BATCH;
use kr_defs::{Copied, Record, Records, Text};
use kr_view::{RecordKey, RecordReader, ScanFault};
use std::alloc::Global;

// The greatest number of records that the head of an image tells.
const GREATEST_COUNT: u64 = 9223372036854775807;

fn topic_name_in(alloc: Global, last: Option<RecordKey>) -> Text
    ensures { result ≡ topic_name_in last }
{
    match last {
        Some(RecordKey::Topic { name }) => name,
        Some(RecordKey::Partition { topic, .. }) => topic,
        _ => Text::new(alloc),
    }
}

fn setting_key(alloc: Global, kind: &i8, name: &Text, key: &Text) -> Result<RecordKey, NoMemory>
    ensures { IfOk result (λ k. k ≡ keys.Setting kind.now name.now key.now) }
{
    Ok(RecordKey::Setting {
        kind: *kind,
        name: name.copied(alloc)?,
        key: key.copied(alloc)?,
    })
}

// The key of the record behind the one with the last key. Its record tells a partition's topic by the id alone.
fn key_behind(
    alloc: Global,
    last: Option<RecordKey>,
    value: &Record,
) -> Result<Option<RecordKey>, NoMemory>
    ensures { IfOk result (λ key. key ≡ key_behind last value.now) }
{
    let key = match value {
        Record::FeatureLevel { name, .. } => RecordKey::Feature {
            name: name.copied(alloc)?,
        },
        Record::RegisterBroker { broker, .. } => RecordKey::Broker { id: *broker },
        Record::Topic { name, .. } => RecordKey::Topic {
            name: name.copied(alloc)?,
        },
        Record::Partition { index, .. } => RecordKey::Partition {
            topic: topic_name_in(alloc, last),
            index: *index,
        },
        Record::Config {
            kind,
            name,
            key,
            ..
        } => setting_key(alloc, kind, name, key)?,
        _ => return Ok(last),
    };
    Ok(Some(key))
}

// The key of the last record of several.
fn keys_behind(
    alloc: Global,
    last: Option<RecordKey>,
    records: &Records,
) -> Result<Option<RecordKey>, NoMemory>
    ensures { IfOk result (λ key. key ≡ keys_behind last records.now) }
{
    let mut key = last;
    let records = records.as_slice();
    for value in records {
        key = key_behind(alloc, key, value)?;
    }
    Ok(key)
}

// So many, and those of the page. Memory doesn't hold more than the head tells.
fn count_with(count: u64, page: &Records) -> Result<u64, NoMemory>
    requires { count < 2 ^ 63 }
    ensures sum { IfOk result (λ sum. sum ≡ count + length page.now) }
    ensures small { IfOk result (λ sum. sum < 2 ^ 63) }
{
    let more = page.len() as u64;
    if GREATEST_COUNT - count < more {
        return Err(NoMemory);
    }
    Ok(count + more)
}

/// Where a walk over the records of the image at a place stands.
#[derive(Drop)]
pub(crate) struct Walk {
    /// The place.
    pub place: i64,
    // The number of images in place of all when it began.
    loads: u64,
    // The key of the last record.
    after: Option<RecordKey>,
}

impl Walk {
    /// The first call, which asks for no records: it finds the place.
    pub fn begin(seat: &mut ClientSeat, place: i64) -> Result<Walk, ScanFault>
        ensures reads { SeesMore seat.old seat.new }
        ensures walk { IfOk result (λ w. w ≡ walk_from place seat.new.seen.list) }
        ensures over { IfOk result (λ w. IsOver w seat.new.seen.list) }
        ensures fault { IfErr result (IsNotThere (pinned_log seat.new.seen.list) place) }
        ensures cause { HasScanCause (client_reading seat.old) (client_reading seat.new) result }
    {
        empty_is_valid();
        seat.records(place, None, 0)?;
        Ok(Walk {
            place,
            loads: seat.loads(),
            after: None,
        })
    }

    /// Goes back before the first record.
    pub fn restart(&mut self)
        ensures { self.new ≡ record self.old { after = None } }
    {
        self.after = None;
    }

    // The records behind the last one, of the image with which the walk began.
    #[tactic(auto, using(crate::proofs::KeptImages::same_images))]
    fn read(&self, seat: &mut ClientSeat) -> Result<Records, ImageWriteFault>
        requires { IsOver self.now seat.old.seen.list }
        ensures reads { SeesMore seat.old seat.new }
        ensures page { IfOk result (λ page. page ≡ record_page
            (image_below self.now.place seat.old.seen.list) self.now.after most) }
        ensures kept { OnOk result (StillKept self.now.place seat.old.seen.list seat.new.seen.list) }
        ensures fault { IfErr result IsReaderFault }
        ensures stop { IfErr result
            (IsStop self.now.place seat.old.seen.list seat.new.seen.list) }
        ensures misses { HasMiss seat.old.misses seat.new.misses result }
    {
        kept_places_stay();
        let page = seat.records(self.place, self.after.as_ref(), IMAGE_BATCH as u32)?;
        let later = seat.loads();
        if later != self.loads || later == u64::MAX {
            return Err(ImageWriteFault::Loaded {
                first: self.loads,
                later,
            });
        }
        Ok(page)
    }

    /// The next page: 1,000 records, or all that are left.
    pub fn next_page(
        &mut self,
        alloc: Global,
        seat: &mut ClientSeat,
    ) -> Result<Records, ImageWriteFault>
        requires { IsOver self.old seat.old.seen.list }
        ensures reads { SeesMore seat.old seat.new }
        ensures page { IfOk result
            (IsNextPage seat.old.seen.list seat.new.seen.list self.old self.new) }
        ensures fault { IfErr result IsReaderFault }
        ensures stop { IfErr result
            (IsStop self.old.place seat.old.seen.list seat.new.seen.list) }
        ensures misses { HasMiss seat.old.misses seat.new.misses result }
    {
        let page = self.read(seat)?;
        self.after = keys_behind(alloc, self.after.take(), &page)?;
        Ok(page)
    }

    /// How many records there are from the first one on.
    pub fn count(&mut self, alloc: Global, seat: &mut ClientSeat) -> Result<u64, ImageWriteFault>
        requires over { IsOver self.old seat.old.seen.list }
        requires start { self.old.after ≡ None }
        ensures reads { SeesMore seat.old seat.new }
        ensures count { IfOk result (λ count. count ≡ length
            (records_of (image_below self.old.place seat.old.seen.list))) }
        ensures small { IfOk result (λ count. count < 2 ^ 63) }
        ensures walk { OnOk result (self.new
            ≡ record self.old { after = self.new.after }) }
        ensures kept { OnOk result (StillKept self.old.place seat.old.seen.list seat.new.seen.list) }
        ensures fault { IfErr result IsReaderFault }
        ensures stop { IfErr result
            (IsStop self.old.place seat.old.seen.list seat.new.seen.list) }
        ensures misses { HasMiss seat.old.misses seat.new.misses result }
    {
        let mut count = 0;
        loop {
            let page = self.next_page(alloc, seat)?;
            count = count_with(count, &page)?;
            if page.len() < IMAGE_BATCH {
                return Ok(count);
            }
        }
    }
}
