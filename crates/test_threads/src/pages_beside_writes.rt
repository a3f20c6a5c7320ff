//! A client asks for the pages of all topics, one after the other, while another client deletes and creates one of them.

use crate::calls::{Write, all_topics, is_at};
use crate::threads::{COMMITS, Part, serve};
use kr_base::{Failed, MemorySink, MemorySource, NoMemory, OpenGate, Sink};
use kr_calls::Reply;
use kr_defs::Text;
use kr_pages::{Described, DescribedTopic};
use kr_server::{Exchange, MemoryTranscript, NoTranscript, ServeEnd, Transcript, serve_client};
use kr_shared::{Bell, ClientSeat, MOST_PLACES};
use std::alloc::Global;
use std::sync::Wait;
use std::sync::atomic::{AtomicBool, AtomicU64, Ordering};
use std::test::Fail;

// The partitions of the topic in the middle; the first and the last topic have one each.
const MIDDLE: i32 = 8_998;

// The lines are so many, and the pages.
const LINES: i32 = 9_000;

const PAGE_LINES: i32 = 100;

const PAGES: i32 = 90;

// One active broker, and the three topics: what is written, and its place.
const SET_UP: [(Write<'static>, i64); 5] = [
    (Write::Register(1), 0),
    (Write::Heartbeat(1, 0, 9), 1),
    (Write::Topic("a"), 2),
    (Write::Partitions("m", MIDDLE), 4),
    (Write::Topic("z"), 9_003),
];

// That the topic `z` is deleted, and that it is created with one partition, each behind its size.
const DELETION: [u8; 40] = [
    0, 0, 0, 36, 0, 20, 0, 6, 0, 0, 0, 1, 255, 255, 0, 2, 2, 122, 0, 0, 0, 0, 0, 0, 0, 0, 0, 0, 0,
    0, 0, 0, 0, 0, 0, 0, 0, 0, 0, 0,
];

const CREATION: [u8; 33] = [
    0, 0, 0, 29, 0, 19, 0, 7, 0, 0, 0, 1, 255, 255, 0, 2, 2, 122, 0, 0, 0, 1, 0, 1, 1, 1, 0, 0, 0,
    0, 0, 0, 0,
];

// Client 1 walks; client 2 deletes the last topic, creates it and so on, a write behind each page.
#[derive(Drop)]
struct PagesBesideWrites {
    alloc: Global,
    // How many writes are asked for, and how many are done.
    asked: AtomicU64,
    written: AtomicU64,
    // The walk is over.
    is_over: AtomicBool,
    // A write failed.
    has_failed: AtomicBool,
    // Rung at each of these.
    news: Bell,
}

impl Part for PagesBesideWrites {
    fn play<R: Wait>(&self, rt: &R, seat: &mut ClientSeat) -> bool {
        if seat.number() == 1 {
            let fine = self.walks(rt, seat).unwrap_or(false);
            self.is_over.store(true, Ordering::SeqCst);
            self.news.ring(rt);
            fine
        } else {
            self.writes(rt, seat)
        }
    }
}

impl PagesBesideWrites {
    // A write for each that is asked for, until the walk is over.
    fn writes<R: Wait>(&self, rt: &R, seat: &mut ClientSeat) -> bool {
        for _ in rt.forever() {
            let seen = self.news.number(rt);
            let done = self.written.load(Ordering::SeqCst);
            if done < self.asked.load(Ordering::SeqCst) {
                if !self.is_written(rt, seat, done).unwrap_or(false) {
                    self.has_failed.store(true, Ordering::SeqCst);
                    self.news.ring(rt);
                    return false;
                }
                self.written.fetch_add(1, Ordering::SeqCst);
                self.news.ring(rt);
            } else if self.is_over.load(Ordering::SeqCst) {
                return true;
            } else {
                self.news.wait_past(rt, seen);
            }
        }
        unreachable!()
    }

    // On a connection of its own the last topic is deleted, and every other time created.
    fn is_written<R: Wait>(
        &self,
        rt: &R,
        seat: &mut ClientSeat,
        done: u64,
    ) -> Result<bool, NoMemory> {
        let alloc = self.alloc;
        let message = change(alloc, done)?;
        let mut sink = MemorySink::new(alloc, 1_000, 10, Vec::new(alloc))?;
        let mut source = MemorySource::new(message, Vec::new(alloc));
        Ok(
            is_closed(rt, alloc, seat, &mut source, &mut sink, &mut NoTranscript)
                && has_no_error(sink.written()),
        )
    }

    // Has one more write done, and waits for it.
    fn ask_for_write<R: Wait>(&self, rt: &R) {
        let asked = self.asked.fetch_add(1, Ordering::SeqCst).saturating_add(1);
        self.news.ring(rt);
        for _ in rt.forever() {
            let seen = self.news.number(rt);
            let is_done = self.written.load(Ordering::SeqCst) >= asked;
            if is_done || self.has_failed.load(Ordering::SeqCst) {
                return;
            }
            self.news.wait_past(rt, seen);
        }
        unreachable!()
    }

    fn is_set_up<R: Wait>(&self, rt: &R, seat: &mut ClientSeat) -> bool {
        for (write, place) in &SET_UP {
            if !is_at(rt, self.alloc, seat, *write, *place) {
                return false;
            }
        }
        true
    }

    // All pages are of the topics that stood at the first of them.
    fn walks<R: Wait>(&self, rt: &R, seat: &mut ClientSeat) -> Result<bool, NoMemory> {
        if !self.is_set_up(rt, seat) {
            return Ok(false);
        }
        let before = id_of(seat, "z");
        let mut transcript = MemoryTranscript::new(self.alloc);
        let is_served = self.is_served(rt, seat, &mut transcript)?;
        let after = id_of(seat, "z");
        Ok(is_served && is_walk(transcript.exchanges(), before) && are_two(before, after))
    }

    // All pages are asked for and put, and no place is held any more.
    fn is_served<R: Wait>(
        &self,
        rt: &R,
        seat: &mut ClientSeat,
        transcript: &mut MemoryTranscript,
    ) -> Result<bool, NoMemory> {
        let mut source = MemorySource::new(messages(self.alloc)?, Vec::new(self.alloc));
        let mut sink = AskingSink {
            rt,
            part: self,
            puts: 0,
        };
        let is_closed = is_closed(rt, self.alloc, seat, &mut source, &mut sink, transcript);
        Ok(is_closed && sink.puts == PAGES && seat.pins() == 0)
    }
}

// A connection is served to its end.
fn is_closed<R: Wait, K: Sink, T: Transcript>(
    rt: &R,
    alloc: Global,
    seat: &mut ClientSeat,
    source: &mut MemorySource,
    sink: &mut K,
    transcript: &mut T,
) -> bool {
    if seat.pins() >= MOST_PLACES {
        return false;
    }
    matches!(
        serve_client(rt, alloc, seat, source, sink, transcript),
        ServeEnd::Closed
    )
}

// It takes all, and has the other client write behind each reply.
#[derive(Drop)]
struct AskingSink<'a, R: Wait> {
    rt: &'a R,
    part: &'a PagesBesideWrites,
    puts: i32,
}

impl<R: Wait> Sink for AskingSink<'_, R> {
    ghost use Rattle.std.specs.Prelude.{None};

    ghost written = { λ _. None };

    ghost faults = { λ _. 0 };

    fn put(&mut self, _piece: &[u8]) -> Result<(), Failed> {
        self.puts = self.puts.saturating_add(1);
        self.part.ask_for_write(self.rt);
        Ok(())
    }

    fn faults(&self) -> u64 {
        0
    }
}

// The topic's error in both replies: behind the size, the header, the throttle, the name and the id.
fn has_no_error(reply: &[u8]) -> bool {
    reply.get(32) == Some(&0) && reply.get(33) == Some(&0)
}

// ---- the messages

// Deletes the last topic, or creates it.
fn change(alloc: Global, done: u64) -> Result<Vec<u8>, NoMemory> {
    let mut message = Vec::new(alloc);
    if done % 2 == 0 {
        message.extend_from_slice(&DELETION)?;
    } else {
        message.extend_from_slice(&CREATION)?;
    }
    Ok(message)
}

// The message for a page, behind its size: from this partition of the topic in the middle on, or from the first line.
fn add_message(bytes: &mut Vec<u8>, number: i32, cursor: Option<i32>) -> Result<(), NoMemory> {
    let size = if cursor.is_some() { 25i32 } else { 18i32 };
    bytes.extend_from_slice(&size.to_be_bytes())?;
    bytes.extend_from_slice(&[0, 75, 0, 0])?;
    bytes.extend_from_slice(&number.to_be_bytes())?;
    // No client id, no tags, and no names.
    bytes.extend_from_slice(&[255, 255, 0, 1])?;
    bytes.extend_from_slice(&PAGE_LINES.to_be_bytes())?;
    match cursor {
        None => bytes.extend_from_slice(&[255, 0])?,
        Some(index) => {
            bytes.extend_from_slice(&[1, 2, 109])?;
            bytes.extend_from_slice(&index.to_be_bytes())?;
            bytes.extend_from_slice(&[0, 0])?;
        }
    }
    Ok(())
}

// The lines are `a` 0, then the partitions of `m`, then `z` 0. So the line with the number n is partition n - 1 of `m`.
fn messages(alloc: Global) -> Result<Vec<u8>, NoMemory> {
    let mut bytes = Vec::new(alloc);
    add_message(&mut bytes, 0, None)?;
    let mut last = PAGE_LINES - 1;
    for number in 1..PAGES {
        add_message(&mut bytes, number, Some(last))?;
        last = last.saturating_add(PAGE_LINES);
    }
    Ok(bytes)
}

// ---- what came

// The id that the topic has now.
fn id_of(seat: &mut ClientSeat, name: &str) -> Option<u128> {
    match &seat.read(&all_topics()) {
        Ok(Reply::Metadata(reply)) => {
            for topic in reply.topics.as_slice() {
                if has_name(&topic.name, name) {
                    return Some(topic.topic);
                }
            }
            None
        }
        _ => None,
    }
}

// Two ids that differ.
fn are_two(before: Option<u128>, after: Option<u128>) -> bool {
    match (before, after) {
        (Some(before), Some(after)) => before != after,
        _ => false,
    }
}

fn has_name(own: &Option<Text>, name: &str) -> bool {
    match own {
        Some(own) => own.as_str() == name,
        None => false,
    }
}

// The name and the index of a line.
fn line(number: i32) -> (&'static str, i32) {
    if number == 0 {
        ("a", 0)
    } else if number == LINES - 1 {
        ("z", 0)
    } else {
        ("m", number.saturating_sub(1))
    }
}

// The topic's partitions are the lines from this number on; it answers the number behind them.
fn lines_behind(topic: &DescribedTopic, first: i32) -> Option<i32> {
    let mut next = first;
    for part in topic.parts.as_slice() {
        let (name, index) = line(next);
        if !has_name(&topic.name, name) || part.index != index {
            return None;
        }
        next = next.saturating_add(1);
    }
    Some(next)
}

// The page has the lines from this number on, and the next one begins behind them; it answers that number.
fn page_behind(described: &Described, first: i32) -> Option<i32> {
    let mut next = first;
    for topic in described.topics.as_slice() {
        next = lines_behind(topic, next)?;
    }
    let (name, index) = line(next);
    let goes_on = match &described.next {
        None => next == LINES,
        Some(key) => next < LINES && key.topic.as_str() == name && key.index == index,
    };
    if goes_on { Some(next) } else { None }
}

// The last topic of the page has this id.
fn ends_with(described: &Described, id: Option<u128>) -> bool {
    match described.topics.as_slice() {
        [.., last] => Some(last.id) == id,
        [] => false,
    }
}

// The pages have all lines, each once, and are of one place; the last topic's id is the one that it had.
fn is_walk(exchanges: &[Exchange], id: Option<u128>) -> bool {
    let mut next = 0i32;
    let mut at = None;
    let mut has_id = false;
    for exchange in exchanges {
        let Exchange::Page {
            place,
            described,
            ..
        } = exchange
        else {
            return false;
        };
        let Some(behind) = page_behind(described, next) else {
            return false;
        };
        if at.is_some_and(|first: i64| first != *place) {
            return false;
        }
        at = Some(*place);
        next = behind;
        has_id = ends_with(described, id);
    }
    next == LINES && has_id
}

#[test]
fn pages_of_a_walk_are_of_one_place(rt: HostRuntime) -> Result<(), Fail> {
    let alloc = rt.alloc();
    let part = PagesBesideWrites {
        alloc,
        asked: AtomicU64::new(0),
        written: AtomicU64::new(0),
        is_over: AtomicBool::new(false),
        has_failed: AtomicBool::new(false),
        news: Bell::new(),
    };
    assert!(rt; serve(&rt, alloc, 2, &mut OpenGate, COMMITS, &part)?.is_some());
    Ok(())
}
