//! 63 clients write at once, while a link commits: the log holds exactly what they were told.

use crate::calls::{Told, Write, answer_to};
use crate::threads::{COMMITS, Part, serve};
use kr_base::{MemoryQuorum, NoMemory, OpenGate};
use kr_batch::decode;
use kr_defs::{Item, Record};
use kr_shared::ClientSeat;
use std::alloc::Global;
use std::sync::Wait;
use std::sync::atomic::{AtomicU64, Ordering};
use std::test::Fail;

const CLIENTS: u32 = 63;

// How many writes each client has.
const EACH: u64 = 50;

// How many writes all have.
const WRITES: usize = 3_150;

// Each client sets its own values, one after the other.
#[derive(Drop)]
struct Settings {
    alloc: Global,
    // The value that a client was told to stand at the place; 0 where none was.
    told: Vec<AtomicU64>,
}

impl Part for Settings {
    fn play<R: Wait>(&self, rt: &R, seat: &mut ClientSeat) -> bool {
        let first = u64::from(seat.number()) * 100;
        for n in 0..EACH {
            if !self.is_set(rt, seat, first + n) {
                return false;
            }
        }
        true
    }
}

impl Settings {
    fn new(alloc: Global) -> Result<Settings, NoMemory> {
        let mut told = Vec::new(alloc);
        for _ in 0..WRITES {
            told.push(AtomicU64::new(0))?;
        }
        Ok(Settings { alloc, told })
    }

    // Sets the value, and keeps at which place the client was told that it stands.
    fn is_set<R: Wait>(&self, rt: &R, seat: &mut ClientSeat, value: u64) -> bool {
        match answer_to(rt, self.alloc, seat, Write::Setting(value)) {
            Told::Answer(place, 0) => self.is_first(place, value),
            _ => false,
        }
    }

    // No client was told of this place before.
    fn is_first(&self, place: i64, value: u64) -> bool {
        match self.told_at(place) {
            Some(told) => told.swap(value, Ordering::SeqCst) == 0,
            None => false,
        }
    }

    fn told_at(&self, place: i64) -> Option<&AtomicU64> {
        match usize::try_from(place) {
            Ok(place) => self.told.get(place),
            Err(_) => None,
        }
    }

    // A client was told that this value stands at the place, and no batch before had it.
    fn is_told(&self, place: i64, value: u64) -> bool {
        match self.told_at(place) {
            Some(told) => told.swap(0, Ordering::SeqCst) == value,
            None => false,
        }
    }

    // Each batch of the log sets what a client was told to stand there, and there are as many as clients were told of.
    fn stand_in(&self, log: &MemoryQuorum) -> bool {
        let mut left = log.bytes();
        for size in log.sizes() {
            let Some((batch, rest)) = left.split_at_checked(*size) else {
                return false;
            };
            match value_in(self.alloc, batch) {
                Some((place, value)) if self.is_told(place, value) => left = rest,
                _ => return false,
            }
        }
        log.sizes().len() == WRITES
    }
}

// The one setting of a batch: its place, and its value.
fn value_in(alloc: Global, bytes: &[u8]) -> Option<(i64, u64)> {
    let Ok(batch) = decode(alloc, bytes) else {
        return None;
    };
    match batch.items.as_slice() {
        [
            Item::Record(
                Record::Config {
                    value: Some(value),
                    ..
                },
            ),
        ] => {
            match value.as_str().parse::<u64>() {
                Ok(value) => Some((batch.base, value)),
                Err(_) => None,
            }
        }
        _ => None,
    }
}

#[test]
fn the_log_holds_what_63_clients_were_told(rt: HostRuntime) -> Result<(), Fail> {
    let alloc = rt.alloc();
    let part = Settings::new(alloc)?;
    match serve(&rt, alloc, CLIENTS, &mut OpenGate, COMMITS, &part)? {
        Some(kept) => assert!(rt; part.stand_in(&kept)),
        None => assert!(rt; false),
    }
    Ok(())
}
