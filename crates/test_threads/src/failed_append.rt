//! A failed append loses the leadership, and with it each write that waits.

ghost use Rattle.std.specs.Prelude.{◌<◌, ◌≤◌};

use crate::calls::{Told, Write, answer_to};
use crate::threads::{Part, Plan, serve};
use kr_base::{NoMemory, OpenGate};
use kr_shared::ClientSeat;
use std::alloc::Global;
use std::sync::Wait;
use std::sync::atomic::{AtomicI64, Ordering};
use std::test::Fail;
use std::thread::Threads;

// Kafka's NOT_CONTROLLER.
const LOST: i16 = 41;

// Each client writes twice, and each write is lost.
#[derive(Drop)]
struct LostWrites {
    alloc: Global,
    // The sum of the places at which they were decided.
    places: AtomicI64,
}

impl Part for LostWrites {
    fn play<R: Wait>(&self, rt: &R, seat: &mut ClientSeat) -> bool {
        self.is_lost(rt, seat) && self.is_lost(rt, seat)
    }
}

impl LostWrites {
    fn is_lost<R: Wait>(&self, rt: &R, seat: &mut ClientSeat) -> bool {
        match answer_to(rt, self.alloc, seat, Write::Register(1)) {
            Told::Answer(place, LOST) => {
                self.places.fetch_add(place, Ordering::SeqCst);
                true
            }
            _ => false,
        }
    }
}

// What is to come of the writes: the sum of their places, how many appends there are, and how many are taken.
#[derive(Drop)]
struct Losses {
    places: i64,
    appends: u64,
    taken: usize,
}

// So many clients lose each write where the append of this number fails.
fn are_lost<R: Threads + Wait + Sync>(
    rt: &R,
    alloc: Global,
    clients: u32,
    failing: u64,
    lost: Losses,
) -> Result<bool, NoMemory>
    requires { (0 < clients) × (clients ≤ 64) }
{
    let part = LostWrites {
        alloc,
        places: AtomicI64::new(0),
    };
    let plan = Plan { failing, last: 0 };
    match serve(rt, alloc, clients, &mut OpenGate, plan, &part)? {
        Some(kept) => Ok(
            part.places.load(Ordering::SeqCst) == lost.places
                && kept.calls() == lost.appends
                && kept.sizes().len() == lost.taken,
        ),
        None => Ok(false),
    }
}

// The first append fails: its write is lost at place 0, and so is the next one, since no node leads.
#[test]
fn a_failed_append_loses_the_leadership(rt: HostRuntime) -> Result<(), Fail> {
    let lost = Losses {
        places: 0,
        appends: 1,
        taken: 0,
    };
    assert!(rt; are_lost(&rt, rt.alloc(), 1, 1, lost)?);
    Ok(())
}

// Nothing is committed, and the second append fails: the write at place 0, which waits, is lost with the one at place 1, and
// so are the other clients' writes, at place 0 again, which aren't appended.
#[test]
fn a_failed_append_loses_what_waits(rt: HostRuntime) -> Result<(), Fail> {
    let lost = Losses {
        places: 1,
        appends: 2,
        taken: 1,
    };
    assert!(rt; are_lost(&rt, rt.alloc(), 3, 2, lost)?);
    Ok(())
}
