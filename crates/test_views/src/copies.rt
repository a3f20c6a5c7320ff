//! Partitions are shown in runs, and read meanwhile in another thread.

ghost use Rattle.kr_view.specs.StagedLaws.{HasNothing, IsPlain};
ghost use Rattle.std.specs.Prelude.{OnOk};

use crate::shown::{all_topics, options, partition, show_plain, stage_record, topic};
use kr_base::NoMemory;
use kr_calls::{MetadataReply, Reply};
use kr_view::{Opening, Publisher, ReaderSeat, ReaderSeats, open};
use std::alloc::Global;
use std::sync::Wait;
use std::thread;
use std::thread::Threads;

// How many partitions are shown at one step, how many steps there are, and how often they are read meanwhile.
const AT_ONCE: i32 = 1_000;

const RUNS: i32 = 9;

const READS: u32 = 50;

const TOPIC: u128 = 7;

#[test]
fn partitions_are_shown_while_they_are_read(rt: HostRuntime) -> Result<(), NoMemory> {
    let alloc = rt.alloc();
    let mut opening = Opening::new();
    let Ok((mut publisher, seats)) = open(&rt, alloc, &mut opening, options(alloc), 1) else {
        return Err(NoMemory);
    };
    let holds = show_and_read(&rt, alloc, &mut publisher, seats);
    publisher.close(&rt);
    assert!(rt; holds?);
    assert!(rt; opening.refusals() == 0);
    Ok(())
}

// Whether the reader saw whole runs alone, never fewer partitions than before, and all of them in the end.
fn show_and_read<R: Threads + Wait>(
    rt: &R,
    alloc: Global,
    publisher: &mut Publisher,
    seats: ReaderSeats,
) -> Result<bool, NoMemory>
    requires { HasNothing publisher.old }
{
    let Some(seat) = seats.into_vec().pop() else {
        return Err(NoMemory);
    };
    let Ok(reader) = thread::spawn(rt, move || read_often(seat)) else {
        return Err(NoMemory);
    };
    let shown = show_all(rt, alloc, publisher);
    let (is_whole, mut seat) = reader.join(rt);
    shown?;
    Ok(is_whole && sees_all(&mut seat))
}

fn sees_all(seat: &mut ReaderSeat) -> bool {
    read_once(seat) == Some(9_000) && seat.end() == 9_001 && seat.misses() == 0
}

// The topic stands at place 0, and its partitions at the places from 1 on.
fn stage_run(alloc: Global, publisher: &mut Publisher, first: i32, end: i32) -> Result<(), NoMemory>
    requires { HasNothing publisher.old }
    ensures { OnOk result (IsPlain publisher.new) }
{
    for place in first..end {
        let record = partition(alloc, TOPIC, place.wrapping_sub(1))?;
        stage_record(publisher, i64::from(place), record)?;
    }
    Ok(())
}

// Shows the partitions from the first place up to the end at one step.
fn show_run<R: Wait>(
    rt: &R,
    alloc: Global,
    publisher: &mut Publisher,
    first: i32,
    end: i32,
) -> Result<(), NoMemory>
    requires { HasNothing publisher.old }
    ensures { OnOk result (HasNothing publisher.new) }
{
    stage_run(alloc, publisher, first, end)?;
    show_plain(rt, publisher, i64::from(end))
}

fn show_all<R: Wait>(rt: &R, alloc: Global, publisher: &mut Publisher) -> Result<(), NoMemory>
    requires { HasNothing publisher.old }
{
    stage_record(publisher, 0, topic(alloc, "orders", TOPIC)?)?;
    show_plain(rt, publisher, 1)?;
    for run in 0..RUNS {
        let first = run.wrapping_mul(AT_ONCE).wrapping_add(1);
        show_run(rt, alloc, publisher, first, first.wrapping_add(AT_ONCE))?;
    }
    Ok(())
}

// How many partitions the reply has of the one topic.
fn partitions_in(reply: &MetadataReply) -> usize {
    match reply.topics.as_slice().first() {
        Some(topic) => topic.partitions.len(),
        None => 0,
    }
}

// How many partitions the seat sees.
fn read_once(seat: &mut ReaderSeat) -> Option<usize> {
    let reply = seat.read(&all_topics());
    match &reply {
        Ok(Reply::Metadata(reply)) => Some(partitions_in(reply)),
        _ => None,
    }
}

// Reads again and again, and says whether the seat saw whole runs and never fewer partitions than before.
fn read_often(seat: ReaderSeat) -> (bool, ReaderSeat) {
    let mut seat = seat;
    let is_whole = sees_whole_runs(&mut seat);
    (is_whole, seat)
}

fn sees_whole_runs(seat: &mut ReaderSeat) -> bool {
    let mut before = 0;
    for _ in 0..READS {
        let Some(count) = read_once(seat) else {
            return false;
        };
        if count < before || count % 1_000 != 0 {
            return false;
        }
        before = count;
    }
    true
}
