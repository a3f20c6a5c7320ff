//! A place is kept while more is shown, until it is given back.

ghost use Rattle.std.specs.Prelude.{◌≡◌, [], ◌∷◌, pos, OnOk};
ghost use Rattle.kr_calls.specs.declared.events.Entry.TheVariants as entries;
ghost use Rattle.kr_view.specs.StagedLaws.{HasNothing};

use crate::pages::pages_show_both;
use crate::shown::{options, partition, show_plain, stage_record, topic};
use kr_base::NoMemory;
use kr_calls::{Entry, Pin};
use kr_defs::{Records, Text};
use kr_view::{
    Opening, PageRow, Publisher, ReaderSeat, ReaderSeats, RecordReader, ScanFault, ScanKey, open,
};
use std::alloc::Global;
use std::sync::Wait;

// Where the log begins, and the pin of it.
const START: i64 = 12;

const PIN: Pin = Pin {
    seat: 1,
    ticket: 1,
    place: START,
};

#[test]
fn a_pinned_place_is_kept(rt: HostRuntime) -> Result<(), NoMemory> {
    let alloc = rt.alloc();
    let mut opening = Opening::new();
    let Ok((mut publisher, seats)) = open(&rt, alloc, &mut opening, options(alloc), 1) else {
        return Err(NoMemory);
    };
    let outcome = show_and_scan(&rt, alloc, &mut publisher, seats);
    publisher.close(&rt);
    assert!(rt; outcome?);
    Ok(())
}

// The log begins by an image without records.
fn show_start<R: Wait>(rt: &R, alloc: Global, publisher: &mut Publisher) -> Result<(), NoMemory>
    requires nothing { HasNothing publisher.old }
    requires list { publisher.old.list ≡ [] }
    ensures nothing { OnOk result (HasNothing publisher.new) }
    ensures list { OnOk result (publisher.new.list ≡ entries.Load (pos 12) [] ∷ []) }
{
    let load = Entry::Load {
        offset: START,
        records: Records::new(alloc),
    };
    if publisher.stage(load).is_err() {
        return Err(NoMemory);
    }
    publisher.publish(rt, START)
}

// The end is pinned.
fn show_pin<R: Wait>(rt: &R, publisher: &mut Publisher) -> Result<(), NoMemory>
    requires nothing { HasNothing publisher.old }
    requires list { publisher.old.list ≡ entries.Load (pos 12) [] ∷ [] }
    ensures { OnOk result (HasNothing publisher.new) }
{
    if publisher.stage(Entry::Pin { pin: PIN }).is_err() {
        return Err(NoMemory);
    }
    publisher.publish(rt, START)
}

// A topic with one partition.
fn show_topic<R: Wait>(
    rt: &R,
    alloc: Global,
    publisher: &mut Publisher,
    name: &str,
    id: u128,
    place: i64,
) -> Result<(), NoMemory>
    requires { HasNothing publisher.old }
    ensures { OnOk result (HasNothing publisher.new) }
{
    let first = partition(alloc, id, 0)?;
    stage_record(publisher, place, topic(alloc, name, id)?)?;
    stage_record(publisher, place.wrapping_add(1), first)?;
    show_plain(rt, publisher, place.wrapping_add(2))
}

// The pin is given back.
fn show_unpin<R: Wait>(rt: &R, publisher: &mut Publisher) -> Result<(), NoMemory>
    requires { HasNothing publisher.old }
    ensures { OnOk result (HasNothing publisher.new) }
{
    if publisher.stage(Entry::Unpin { pin: PIN }).is_err() {
        return Err(NoMemory);
    }
    show_plain(rt, publisher, START)
}

// The row is of partition 0 of this topic.
fn is_first_of(row: &PageRow, name: &str) -> bool {
    row.key.topic.as_str() == name && row.key.index == 0 && row.partition.leader == 1
}

// The scan gives partition 0 of each of these topics.
fn shows(
    seat: &mut ReaderSeat,
    place: i64,
    after: Option<&ScanKey>,
    max: u32,
    names: &[&str],
) -> bool {
    let Ok(page) = seat.scan(place, after, max) else {
        return false;
    };
    let rows = page.as_slice();
    rows.len() == names.len()
        && rows
            .iter()
            .zip(names)
            .all(|(row, name)| is_first_of(row, name))
}

// All records of the image, in pages of so many.
fn count_records(seat: &mut ReaderSeat, place: i64) -> Option<usize> {
    match seat.records(place, None, 10) {
        Ok(records) => Some(records.len()),
        Err(_) => None,
    }
}

fn show_and_scan<R: Wait>(
    rt: &R,
    alloc: Global,
    publisher: &mut Publisher,
    seats: ReaderSeats,
) -> Result<bool, NoMemory>
    requires nothing { HasNothing publisher.old }
    requires list { publisher.old.list ≡ [] }
{
    let Some(mut seat) = seats.into_vec().pop() else {
        return Err(NoMemory);
    };
    show_start(rt, alloc, publisher)?;
    show_pin(rt, publisher)?;
    show_topic(rt, alloc, publisher, "u", 7, 12)?;
    let first = sees_both(&mut seat);
    show_unpin(rt, publisher)?;
    show_topic(rt, alloc, publisher, "v", 8, 14)?;
    let second = sees_the_end(alloc, &mut seat)?;
    let third = pages_show_both(alloc, &mut seat)?;
    Ok(first && second && third)
}

// At the pinned place there is nothing, at the end `u` 0, and no place between them is kept.
fn sees_both(seat: &mut ReaderSeat) -> bool {
    shows(seat, 12, None, 10, &[])
        && shows(seat, 14, None, 10, &["u"])
        && matches!(
            seat.scan(13, None, 10),
            Err(ScanFault::NotKept { asked: 13 })
        )
        && matches!(
            seat.scan(11, None, 10),
            Err(ScanFault::Gone {
                asked: 11,
                oldest: 12
            })
        )
        && count_records(seat, 12) == Some(0)
        && seat.loads() == 1
}

// The pinned place is gone, and at the end stand `u` 0 and `v` 0.
fn sees_the_end(alloc: Global, seat: &mut ReaderSeat) -> Result<bool, NoMemory> {
    let topic = Text::from_str(alloc, "u")?;
    let after = ScanKey { topic, index: 0 };
    Ok(
        matches!(
            seat.scan(12, None, 10),
            Err(ScanFault::Gone {
                asked: 12,
                oldest: 16
            })
        ) && shows(seat, 16, None, 10, &["u", "v"])
            && shows(seat, 16, None, 1, &["u"])
            && shows(seat, 16, Some(&after), 10, &["v"])
            && count_records(seat, 16) == Some(4),
    )
}
