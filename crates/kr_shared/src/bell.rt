//! Numbers that one thread raises and others wait for. No clause rests on them.

use kr_base::NoMemory;
use std::alloc::Global;
use std::sync::atomic::{AtomicBool, Ordering};
use std::sync::{Condvar, Mutex, Wait};

// The number, and how many wait for it to rise.
#[derive(Drop)]
struct Rung {
    number: u64,
    waiting: u32,
}

/// A number behind a lock. Who waits for it to rise sleeps.
#[derive(Drop)]
pub struct Bell {
    // Raised by each ring.
    rung: Mutex<Rung>,
    // Wakes those that wait.
    raised: Condvar,
}

impl Bell {
    /// A bell that wasn't rung.
    pub fn new() -> Bell {
        Bell {
            rung: Mutex::new(Rung {
                number: 0,
                waiting: 0,
            }),
            raised: Condvar::new(),
        }
    }

    // Raises the number, and answers whether somebody waits.
    fn raise<R: Wait>(&self, rt: &R) -> bool {
        let mut rung = self.rung.lock(rt);
        rung.number = rung.number.wrapping_add(1);
        rung.waiting > 0
    }

    /// Raises the number.
    pub fn ring<R: Wait>(&self, rt: &R) {
        if self.raise(rt) {
            self.raised.notify_all();
        }
    }

    /// The number.
    pub fn number<R: Wait>(&self, rt: &R) -> u64 {
        let rung = self.rung.lock(rt);
        rung.number
    }

    /// Waits until the number isn't this one.
    pub fn wait_past<R: Wait>(&self, rt: &R, seen: u64) {
        let mut rung = self.rung.lock(rt);
        rung.waiting = rung.waiting.saturating_add(1);
        let mut rung = self.raised.wait_while(rt, rung, |rung| rung.number == seen);
        rung.waiting = rung.waiting.saturating_sub(1);
    }
}

// The bell of a seat.
#[derive(Drop)]
struct SeatBell {
    bell: Bell,
    // The seat is told something in what is published next.
    is_owed: AtomicBool,
}

/// A bell for each client's seat, which the worker rings once it has published what the seat is told.
#[derive(Drop)]
pub struct SeatBells {
    // Those of the seats 1, 2 and so on.
    seats: Vec<SeatBell>,
}

impl SeatBells {
    /// The bells of so many seats.
    pub(crate) fn new(alloc: Global, clients: u32) -> Result<SeatBells, NoMemory> {
        let mut seats = Vec::new(alloc);
        for _ in 0..clients {
            seats.push(SeatBell {
                bell: Bell::new(),
                is_owed: AtomicBool::new(false),
            })?;
        }
        Ok(SeatBells { seats })
    }

    fn at(&self, seat: u32) -> Option<&SeatBell> {
        self.seats.get(seat.saturating_sub(1) as usize)
    }

    /// The number of a seat's bell.
    pub(crate) fn number<R: Wait>(&self, rt: &R, seat: u32) -> u64 {
        match self.at(seat) {
            Some(seat) => seat.bell.number(rt),
            None => 0,
        }
    }

    /// Waits until the number of a seat's bell isn't this one.
    pub(crate) fn wait_past<R: Wait>(&self, rt: &R, seat: u32, seen: u64) {
        if let Some(seat) = self.at(seat) {
            seat.bell.wait_past(rt, seen);
        }
    }

    /// What is published next tells the seat something.
    pub(crate) fn owe(&self, seat: u32) {
        if let Some(seat) = self.at(seat) {
            seat.is_owed.store(true, Ordering::SeqCst);
        }
    }

    /// What is published next tells each seat something.
    pub(crate) fn owe_all(&self) {
        for seat in &self.seats {
            seat.is_owed.store(true, Ordering::SeqCst);
        }
    }

    /// It was published: the bells of those that it tells something are rung.
    pub(crate) fn ring_owed<R: Wait>(&self, rt: &R) {
        for seat in &self.seats {
            if seat.is_owed.load(Ordering::SeqCst) {
                seat.is_owed.store(false, Ordering::SeqCst);
                seat.bell.ring(rt);
            }
        }
    }
}
