//! A seat's place is kept while it writes, until the seat gives it back.

use crate::calls::{Write, is_at};
use crate::setup::is_set_up;
use crate::threads::{COMMITS, Part, serve};
use kr_base::{NoMemory, OpenGate};
use kr_defs::{Record, Text};
use kr_shared::{ClientSeat, MOST_PLACES, PinFault};
use kr_view::{PageRow, RecordKey, RecordReader, ScanFault};
use std::alloc::Global;
use std::sync::Wait;
use std::test::Fail;

// One client sets up the log, pins a place, and writes.
#[derive(Drop)]
struct PinnedPlace {
    alloc: Global,
}

impl Part for PinnedPlace {
    fn play<R: Wait>(&self, rt: &R, seat: &mut ClientSeat) -> bool {
        self.is_kept(rt, seat).unwrap_or(false)
    }
}

// The row is of partition 0 of this topic.
fn is_first_of(row: &PageRow, name: &str) -> bool {
    row.key.topic.as_str() == name && row.key.index == 0
}

// The scan gives partition 0 of each of these topics.
fn shows(seat: &mut ClientSeat, place: i64, names: &[&str]) -> bool {
    let Ok(page) = seat.scan(place, None, 10) else {
        return false;
    };
    are_first_of(page.as_slice(), names)
}

// The rows are of partition 0 of each of these topics.
fn are_first_of(rows: &[PageRow], names: &[&str]) -> bool {
    for (row, name) in rows.iter().zip(names) {
        if !is_first_of(row, name) {
            return false;
        }
    }
    rows.len() == names.len()
}

// How many records there are at the place, of ten at most.
fn count_records(seat: &mut ClientSeat, place: i64) -> Option<usize> {
    match seat.records(place, None, 10) {
        Ok(records) => Some(records.len()),
        Err(_) => None,
    }
}

impl PinnedPlace {
    // The topic is seen at the place, or it isn't.
    fn has_topic(&self, seat: &mut ClientSeat, place: i64, name: &str) -> Result<bool, NoMemory> {
        let name = Text::from_str(self.alloc, name)?;
        Ok(matches!(
            seat.record(place, &RecordKey::Topic { name }),
            Ok(Some(Record::Topic { .. }))
        ))
    }

    // Seven records at the pinned place and nine at the end, the topic among these alone.
    fn has_records(&self, seat: &mut ClientSeat) -> Result<bool, NoMemory> {
        let before = self.has_topic(seat, 12, "u")?;
        let after = self.has_topic(seat, 14, "u")?;
        let seven = count_records(seat, 12) == Some(7);
        let nine = count_records(seat, 14) == Some(9);
        Ok(!before && after && seven && nine && seat.loads() == 0)
    }

    fn is_kept<R: Wait>(&self, rt: &R, seat: &mut ClientSeat) -> Result<bool, NoMemory> {
        let pinned = is_set_up(rt, self.alloc, seat) && seat.pin(rt) == Ok(12);
        let written = is_at(rt, self.alloc, seat, Write::Topic("u"), 12);
        let both = shows(seat, 12, &["t"]) && shows(seat, 14, &["t", "u"]);
        let records = self.has_records(seat)?;
        let given_back = seat.unpin(rt, 12).is_ok() && seat.pins() == 0;
        let more = is_at(rt, self.alloc, seat, Write::Topic("v"), 14);
        Ok(pinned && written && both && records && given_back && more && is_gone(seat))
    }
}

// The place isn't kept any more, and is before the oldest one that is.
fn is_gone(seat: &mut ClientSeat) -> bool {
    matches!(
        seat.scan(12, None, 10),
        Err(ScanFault::Gone {
            asked: 12,
            oldest: 16,
        },)
    )
}

#[test]
fn a_pinned_place_is_kept(rt: HostRuntime) -> Result<(), Fail> {
    let alloc = rt.alloc();
    let part = PinnedPlace { alloc };
    assert!(rt; serve(&rt, alloc, 1, &mut OpenGate, COMMITS, &part)?.is_some());
    Ok(())
}

// A seat that pins the end before each of its writes holds sixteen places, and no more.
#[derive(Drop)]
struct SixteenPlaces {
    alloc: Global,
}

impl Part for SixteenPlaces {
    fn play<R: Wait>(&self, rt: &R, seat: &mut ClientSeat) -> bool {
        for place in 0..MOST_PLACES {
            if !self.is_pinned(rt, seat, place) {
                return false;
            }
        }
        is_full(rt, seat) && seat.unpin(rt, 3).is_ok() && seat.pins() == 15
    }
}

fn is_full<R: Wait>(rt: &R, seat: &mut ClientSeat) -> bool {
    matches!(seat.pin(rt), Err(PinFault::Pins { held: 16 })) && seat.pins() == 16
}

impl SixteenPlaces {
    // The end is pinned, and then something is written there.
    fn is_pinned<R: Wait>(&self, rt: &R, seat: &mut ClientSeat, place: u32) -> bool {
        let at = i64::from(place);
        let write = Write::Setting(u64::from(place) + 1);
        seat.pin(rt) == Ok(at) && is_at(rt, self.alloc, seat, write, at)
    }
}

#[test]
fn a_seat_holds_sixteen_places(rt: HostRuntime) -> Result<(), Fail> {
    let alloc = rt.alloc();
    let part = SixteenPlaces { alloc };
    assert!(rt; serve(&rt, alloc, 1, &mut OpenGate, COMMITS, &part)?.is_some());
    Ok(())
}
