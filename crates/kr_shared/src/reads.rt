//! What a client's seat reads of the images at the places of the log.

ghost use Rattle.std.specs.Prelude.{◌≡◌};
ghost use Rattle.std.specs.Option.{option_copied};
ghost use Rattle.kr_view.specs.Readers.{HasScanCause};
ghost use Rattle.kr_view.specs.Scans.{AnswersAt, IsPage};
ghost use Rattle.kr_view.specs.Seats.{Onward};

use crate::clients::ClientSeat;
use kr_defs::{Record, Records};
use kr_view::{Page, RecordKey, RecordReader, ScanFault, ScanKey};

impl ClientSeat {
    ghost use Rattle.kr_shared.specs.Clients.{client_reading, with_client_reading};

    /// The first `max` partitions behind the key, or from the first on where there is none, in walking order, of the image at
    /// a kept place: fewer only where no more follow. It waits for nobody. Gone exactly where all kept places are later ones,
    /// NotKept exactly where the place isn't kept otherwise, NoCopy only where the seat got no copy, and then nothing but the
    /// count has changed.
    pub fn scan(&mut self, place: i64, after: Option<&ScanKey>, max: u32) -> Result<Page, ScanFault>
        ensures onward { Onward self.old.seen self.new.seen }
        ensures page { AnswersAt self.new.seen.list place (IsPage (option_copied after.entry)
            max) result }
        ensures cause { HasScanCause (client_reading self.old) (client_reading self.new) result }
        ensures same { self.new ≡ with_client_reading self.old (client_reading self.new) }
    {
        self.reader.scan(place, after, max)
    }
}

impl RecordReader for ClientSeat {
    ghost use Rattle.kr_shared.specs.Clients.{client_reading, with_client_reading};

    ghost reading = { client_reading };

    ghost with_reading = { with_client_reading };

    fn loads(&self) -> u64 {
        self.reader.loads()
    }

    fn records(
        &mut self,
        place: i64,
        after: Option<&RecordKey>,
        max: u32,
    ) -> Result<Records, ScanFault> {
        self.reader.records(place, after, max)
    }

    fn record(&mut self, place: i64, key: &RecordKey) -> Result<Option<Record>, ScanFault> {
        self.reader.record(place, key)
    }
}
