//! The image at a pinned place is written while another client writes.

use crate::calls::{Write, is_at};
use crate::setup::is_set_up;
use crate::threads::{COMMITS, Part, serve};
use kr_base::{Failed, MemorySink, NoMemory, OpenGate, Sink};
use kr_shared::{Bell, ClientSeat, write_image};
use std::alloc::Global;
use std::sync::Wait;
use std::sync::atomic::{AtomicBool, Ordering};
use std::test::Fail;

// The bytes and the puts that a sink takes.
const ROOM: usize = 100_000;

const PUTS: usize = 10;

// The place and how many records there are: five brokers, the topic and its partition.
const HEAD: [u8; 16] = [0, 0, 0, 0, 0, 0, 0, 12, 0, 0, 0, 0, 0, 0, 0, 7];

// The same once the other client's topic stands.
const LATER_HEAD: [u8; 16] = [0, 0, 0, 0, 0, 0, 0, 14, 0, 0, 0, 0, 0, 0, 0, 9];

// Client 1 writes an image; client 2 writes a topic once that is begun.
#[derive(Drop)]
struct BesideCommits {
    alloc: Global,
    // The image is begun, or there will be none.
    is_begun: AtomicBool,
    // The topic is written, or there will be none.
    is_written: AtomicBool,
    // Rung at each of these.
    news: Bell,
}

impl Part for BesideCommits {
    fn play<R: Wait>(&self, rt: &R, seat: &mut ClientSeat) -> bool {
        if seat.number() == 1 {
            let fine = self.writes_image(rt, seat).unwrap_or(false);
            self.tell(rt, &self.is_begun);
            fine
        } else {
            self.wait_for(rt, &self.is_begun);
            let fine = is_at(rt, self.alloc, seat, Write::Topic("u"), 12);
            self.tell(rt, &self.is_written);
            fine
        }
    }
}

impl BesideCommits {
    fn tell<R: Wait>(&self, rt: &R, flag: &AtomicBool) {
        flag.store(true, Ordering::SeqCst);
        self.news.ring(rt);
    }

    fn wait_for<R: Wait>(&self, rt: &R, flag: &AtomicBool) {
        for _ in rt.forever() {
            let seen = self.news.number(rt);
            if flag.load(Ordering::SeqCst) {
                return;
            }
            self.news.wait_past(rt, seen);
        }
        unreachable!()
    }

    fn memory(&self) -> Result<MemorySink, NoMemory> {
        MemorySink::new(self.alloc, ROOM, PUTS, Vec::new(self.alloc))
    }

    // The image at the place, written into memory.
    fn image_at(&self, seat: &mut ClientSeat, place: i64) -> Result<MemorySink, NoMemory> {
        let mut sink = self.memory()?;
        match write_image(self.alloc, seat, place, &mut sink) {
            Ok(()) => Ok(sink),
            Err(_) => Err(NoMemory),
        }
    }

    // The image at 12 is the same before the topic is written and while it is.
    fn writes_image<R: Wait>(&self, rt: &R, seat: &mut ClientSeat) -> Result<bool, NoMemory> {
        let pinned = is_set_up(rt, self.alloc, seat) && seat.pin(rt) == Ok(12);
        let before = self.image_at(seat, 12)?;
        let mut beside = WaitingSink {
            rt,
            part: self,
            has_waited: false,
            kept: self.memory()?,
        };
        let written = write_image(self.alloc, seat, 12, &mut beside).is_ok();
        let later = self.image_at(seat, 14)?;
        let image = before.written();
        Ok(
            pinned
                && written
                && image.starts_with(&HEAD)
                && beside.kept.written() == image
                && later.written().starts_with(&LATER_HEAD),
        )
    }
}

// It keeps what is written. At its first put it has the other client write, and waits until that is committed.
#[derive(Drop)]
struct WaitingSink<'a, R: Wait> {
    rt: &'a R,
    part: &'a BesideCommits,
    has_waited: bool,
    kept: MemorySink,
}

impl<R: Wait> Sink for WaitingSink<'_, R> {
    ghost use Rattle.std.specs.Prelude.{Some};

    ghost written = { λ s. Some s.kept.written };

    ghost faults = { λ s. s.kept.faults };

    fn put(&mut self, piece: &[u8]) -> Result<(), Failed> {
        if !self.has_waited {
            self.has_waited = true;
            self.part.tell(self.rt, &self.part.is_begun);
            self.part.wait_for(self.rt, &self.part.is_written);
        }
        self.kept.put(piece)
    }

    fn faults(&self) -> u64 {
        self.kept.faults()
    }
}

#[test]
fn an_image_is_written_beside_commits(rt: HostRuntime) -> Result<(), Fail> {
    let alloc = rt.alloc();
    let part = BesideCommits {
        alloc,
        is_begun: AtomicBool::new(false),
        is_written: AtomicBool::new(false),
        news: Bell::new(),
    };
    assert!(rt; serve(&rt, alloc, 2, &mut OpenGate, COMMITS, &part)?.is_some());
    Ok(())
}
