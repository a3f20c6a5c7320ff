//! The image at one place of a reader, which is the same at each call while no image comes in place of all.

ghost use Rattle.std.specs.Prelude.{◌≡◌, ◌≤◌, ◌<◌, ◌-◌, ◌^◌, IfErr, IfOk, OnOk, Some, slice_get};
ghost use Rattle.kr_view.specs.RecordPages.{record_of_key, record_page};
ghost use Rattle.kr_view.specs.Seats.{Onward};
ghost use Rattle.kr_describe.specs.declared.steady.PageFault.TheVariants as faults;
ghost use Rattle.kr_describe.specs.SteadyReads.{Calls, GoesSteadily, HasPageCause, IsOtherCount, IsPageStop, IsSteady, steady_image};

use kr_base::NoMemory;
use kr_calls::laws::kept_places_stay;
use kr_defs::Record;
use kr_defs::laws::empty_is_valid;
use kr_view::{RecordKey, RecordReader, ScanFault};
use std::alloc::AllocError;

/// Why there is no page.
#[derive(Clone, Copy, Debug, Drop, PartialEq, Eq)]
pub enum PageFault {
    /// The reader gave no records: the place isn't kept, as no pin is once an image came in place of all, or there was no copy or
    /// no memory.
    Scan(ScanFault),
    /// Another image may have come in place of all since the first call.
    Loaded {
        /// The number of these images that the first call saw.
        first: u64,
        /// The number that a later one saw: another one, or the greatest u64.
        later: u64,
    },
    /// There was no memory.
    NoMemory,
}

impl From<ScanFault> for PageFault {
    ghost from_gives = { λ fault answer. answer ≡ faults.Scan fault };

    fn from(fault: ScanFault) -> PageFault {
        PageFault::Scan(fault)
    }
}

impl From<NoMemory> for PageFault {
    ghost from_gives = { λ _ answer. answer ≡ faults.NoMemory };

    fn from(_refused: NoMemory) -> PageFault {
        PageFault::NoMemory
    }
}

impl From<AllocError> for PageFault {
    ghost from_gives = { λ _ answer. answer ≡ faults.NoMemory };

    fn from(_refused: AllocError) -> PageFault {
        PageFault::NoMemory
    }
}

/// The calls for one page, at one place of a reader's images.
#[derive(Drop)]
pub(crate) struct Steady {
    /// The place.
    pub place: i64,
    /// The number of images in place of all at the first call.
    pub loads: u64,
}

impl Steady {
    /// The first call, which asks for no records: it finds the place.
    pub fn begin<R: RecordReader>(reader: &mut R, place: i64) -> Result<Steady, PageFault>
        ensures calls { Calls R.reading R.with_reading reader.old reader.new }
        ensures onward { Onward (R.reading reader.old).seen (R.reading reader.new).seen }
        ensures cause { HasPageCause (R.reading reader.old) (R.reading reader.new) result }
        ensures steady { IfOk result (λ s. IsSteady s (R.reading reader.new)) }
        ensures place { IfOk result (λ s. s.place ≡ place) }
        ensures stop { IfErr result (IsPageStop place (R.reading reader.old).seen.list
            (R.reading reader.new).seen.list) }
    {
        empty_is_valid();
        reader.records(place, None, 0)?;
        let loads = reader.loads();
        if loads == u64::MAX {
            return Err(PageFault::Loaded {
                first: loads,
                later: loads,
            });
        }
        Ok(Steady { place, loads })
    }

    // No image came in place of all by now.
    fn stays(&self, later: u64) -> Result<(), PageFault>
        ensures ok { OnOk result ((later ≡ self.now.loads) × (later < 2 ^ 64 - 1)) }
        ensures err { IfErr result (λ fault. (fault ≡ faults.Loaded self.now.loads later)
            × IsOtherCount self.now.loads later) }
    {
        if later != self.loads || later == u64::MAX {
            return Err(PageFault::Loaded {
                first: self.loads,
                later,
            });
        }
        Ok(())
    }

    /// The record behind a key, of the image that the first call found.
    pub fn next<R: RecordReader>(
        &self,
        reader: &mut R,
        after: &RecordKey,
    ) -> Result<Option<Record>, PageFault>
        requires { IsSteady self.now (R.reading reader.old) }
        ensures went { GoesSteadily R.reading R.with_reading self.now reader.old reader.new result }
        ensures next { IfOk result (λ next. next ≡ slice_get
            (record_page (steady_image self.now (R.reading reader.old)) (Some after.now) 1) 0) }
    {
        kept_places_stay();
        let page = reader.records(self.place, Some(after), 1)?;
        self.stays(reader.loads())?;
        Ok(page.into_vec().pop())
    }

    /// The record of a key, of the image that the first call found.
    pub fn one<R: RecordReader>(
        &self,
        reader: &mut R,
        key: &RecordKey,
    ) -> Result<Option<Record>, PageFault>
        requires { IsSteady self.now (R.reading reader.old) }
        ensures went { GoesSteadily R.reading R.with_reading self.now reader.old reader.new result }
        ensures one { IfOk result (λ one. one ≡ record_of_key
            (steady_image self.now (R.reading reader.old)) key.now) }
    {
        kept_places_stay();
        let record = reader.record(self.place, key)?;
        self.stays(reader.loads())?;
        Ok(record)
    }
}
