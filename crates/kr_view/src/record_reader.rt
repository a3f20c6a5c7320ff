//! What gives the records of an image at a kept place.

ghost use Rattle.std.specs.Prelude.{◌≡◌};
ghost use Rattle.std.specs.Option.{option_copied};
ghost use Rattle.kr_calls.specs.SeatList.{loads_of};
ghost use Rattle.kr_view.specs.Readers.{HasScanCause, Reading};
ghost use Rattle.kr_view.specs.RecordPages.{IsRecordAt, IsRecordPage};
ghost use Rattle.kr_view.specs.Scans.{AnswersAt};
ghost use Rattle.kr_view.specs.Seats.{Onward};

use crate::record_key::RecordKey;
use crate::scans::ScanFault;
use kr_defs::{Record, Records};

/// A reader of the records of images. While the number of loads stays the same below the greatest u64, the image at a place
/// that is kept at two calls is the same at both.
pub trait RecordReader {
    /// What it has seen, and how often it got no copy.
    ghost reading: { Self → Reading };

    /// The reader that has seen this, and is as before otherwise.
    ghost with_reading: { Self → Reading → Self };

    /// How many images in place of all the list has that the last call used; the number stands still at the greatest u64. It
    /// enters no copy, and takes no memory.
    fn loads(&self) -> u64
        ensures { result ≡ loads_of (reading self.now).seen.list };

    /// At most `max` records of the image at the place behind the key, or from the first on where there is none: fewer only
    /// where no more follow. It waits for nobody. Gone exactly where all kept places are later ones, NotKept exactly where the
    /// place isn't kept otherwise, NoCopy only where the reader got no copy, and then nothing but the count has changed.
    fn records(
        &mut self,
        place: i64,
        after: Option<&RecordKey>,
        max: u32,
    ) -> Result<Records, ScanFault>
        ensures onward { Onward (reading self.old).seen (reading self.new).seen }
        ensures same { self.new ≡ with_reading self.old (reading self.new) }
        ensures records { AnswersAt (reading self.new).seen.list place (IsRecordPage
            (option_copied after.entry) max) result }
        ensures cause { HasScanCause (reading self.old) (reading self.new) result };

    /// The record of the key in the image at the place, if there is one. Faults come as from `records`.
    fn record(&mut self, place: i64, key: &RecordKey) -> Result<Option<Record>, ScanFault>
        ensures onward { Onward (reading self.old).seen (reading self.new).seen }
        ensures same { self.new ≡ with_reading self.old (reading self.new) }
        ensures record { AnswersAt (reading self.new).seen.list place (IsRecordAt key.now) result }
        ensures cause { HasScanCause (reading self.old) (reading self.new) result };
}
