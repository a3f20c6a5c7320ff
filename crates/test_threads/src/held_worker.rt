//! Readers are answered while the worker is held.

use crate::calls::{Write, is_at, topics_seen};
use crate::threads::{COMMITS, Part, serve};
use kr_base::Gate;
use kr_shared::ClientSeat;
use std::alloc::Global;
use std::sync::Wait;
use std::sync::atomic::{AtomicU64, Ordering};
use std::test::Fail;
use std::thread;

// How often is looked for a sign at most.
const TURNS: u64 = 500_000_000;

// The number of the held job: before it come the lead, two writes, and the commit of each.
const HELD: u64 = 6;

// The first client writes, and the others read while the worker is held before its last write.
#[derive(Drop)]
struct HeldWorker {
    alloc: Global,
    // 1 once the worker is held.
    reached: AtomicU64,
    // How many readers are done.
    opened: AtomicU64,
}

// Whether the sign is given so often.
fn is_given(sign: &AtomicU64, times: u64) -> bool {
    for _ in 0..TURNS {
        if sign.load(Ordering::SeqCst) >= times {
            return true;
        }
        thread::yield_now();
    }
    false
}

// It holds the worker before one job, until both readers are done, or it gives up.
#[derive(Drop)]
struct HoldingGate<'a> {
    signs: &'a HeldWorker,
    // The worker was held there, and both readers let it go.
    held: bool,
}

impl Gate for HoldingGate<'_> {
    fn before(&mut self, number: u64) {
        if number == HELD {
            self.signs.reached.store(1, Ordering::SeqCst);
            self.held = is_given(&self.signs.opened, 2);
        }
    }
}

impl Part for HeldWorker {
    fn play<R: Wait>(&self, rt: &R, seat: &mut ClientSeat) -> bool {
        match seat.number() {
            1 => self.write(rt, seat),
            2 => self.read(seat, 1000),
            _ => self.read(seat, 1),
        }
    }
}

impl HeldWorker {
    // Writes, and then sees the topic.
    fn write<R: Wait>(&self, rt: &R, seat: &mut ClientSeat) -> bool {
        let written = is_at(rt, self.alloc, seat, Write::Register(1), 0)
            && is_at(rt, self.alloc, seat, Write::Heartbeat(1, 0, 9), 1)
            && is_at(rt, self.alloc, seat, Write::Topic("t"), 2);
        self.reached.store(1, Ordering::SeqCst);
        written && topics_seen(seat) == Some(1)
    }

    // Reads so often while the worker is held, and sees no topic.
    fn read(&self, seat: &mut ClientSeat, times: u64) -> bool {
        let mut none = is_given(&self.reached, 1);
        for _ in 0..times {
            none = none && topics_seen(seat) == Some(0);
        }
        self.opened.fetch_add(1, Ordering::SeqCst);
        none
    }
}

#[test]
fn readers_are_answered_while_the_worker_is_held(rt: HostRuntime) -> Result<(), Fail> {
    let alloc = rt.alloc();
    let part = HeldWorker {
        alloc,
        reached: AtomicU64::new(0),
        opened: AtomicU64::new(0),
    };
    let mut gate = HoldingGate {
        signs: &part,
        held: false,
    };
    let kept = serve(&rt, alloc, 3, &mut gate, COMMITS, &part)?;
    assert!(rt; gate.held && kept.is_some());
    Ok(())
}
