//! A leadership that is lost inside a transaction which another leader left open.

ghost use Rattle.std.specs.Prelude.{IfOk, IsTrue};
ghost use Rattle.kr_queue.specs.Jobs.{is_link_event};

use crate::threads::{Plan, Signs, TellingQuorum, options};
use kr_base::{MemoryClock, OpenGate};
use kr_calls::Event;
use kr_defs::Bytes;
use kr_shared::{ClientSeat, LinkSeat, Turn, WorkerSeat, open};
use kr_view::{Opening, RecordReader};
use std::alloc::Global;
use std::sync::Wait;
use std::test::Fail;
use std::thread;
use std::thread::Threads;

// A batch at place 0 of epoch 1: a begin, and the broker default's minimum 2.
const BEGUN: &str =
    "00000000000000000000005f000000010230ae141d00000000000100000000000000000000000000000000ffffffffffffffffffffffffffff0000000214000000010801170000004400000201380104000401146d696e2e696e73796e632e7265706c6963617302320000";

// A batch at place 2: the end.
const ENDED: &str =
    "00000000000000020000003c0000000102b7e62b4a00000000000000000000000000000000000000000000ffffffffffffffffffffffffffff000000011400000001080118000000";

fn batch(alloc: Global, hex: &str) -> Result<Event, Fail>
    ensures { IfOk result (λ event. IsTrue (is_link_event event)) }
{
    Ok(Event::Batch {
        bytes: Bytes::from_vec(hex::decode(alloc, hex)?),
    })
}

// The worker does its next job, for which it waits.
fn does_next<R: Wait>(
    rt: &R,
    alloc: Global,
    worker: &mut WorkerSeat,
    quorum: &mut TellingQuorum<'_>,
) -> bool {
    let mut clock = MemoryClock::new(Vec::new(alloc));
    for _ in rt.forever() {
        let seen = worker.jobs().number(rt);
        match worker.turn(rt, &mut OpenGate, quorum, &mut clock) {
            Ok(Turn::Did) => return true,
            Ok(Turn::Idle) => worker.jobs().wait_past(rt, seen),
            _ => return false,
        }
    }
    unreachable!()
}

// A worker with its link and a client.
#[derive(Drop)]
struct Stage<'a, 'q> {
    alloc: Global,
    worker: &'a mut WorkerSeat,
    link: &'a mut LinkSeat,
    seat: &'a mut ClientSeat,
    quorum: &'a mut TellingQuorum<'q>,
}

impl Stage<'_, '_> {
    fn takes<R: Wait>(&mut self, rt: &R, event: Event) -> bool
        requires { IsTrue (is_link_event event) }
    {
        self.link.push(rt, event).is_ok() && does_next(rt, self.alloc, self.worker, self.quorum)
    }

    // A leader comes, and loses its leadership before the abort that it appends is committed.
    fn leads_in_vain<R: Wait>(&mut self, rt: &R) -> bool {
        let lead = Event::Lead {
            epoch: 2,
            next: 2,
            now: 1000,
        };
        self.takes(rt, lead) && self.takes(rt, Event::Lost { epoch: 2 })
    }

    // The client pins the closed end, on a thread of its own: it is at this place.
    fn pins<R: Threads + Wait + Sync>(&mut self, rt: &R, place: i64) -> bool {
        let alloc = self.alloc;
        let (seat, worker, quorum) = (&mut *self.seat, &mut *self.worker, &mut *self.quorum);
        let (pinned, did) = thread::join(
            rt,
            move || seat.pin(rt) == Ok(place),
            || does_next(rt, alloc, worker, quorum),
        );
        pinned && did
    }

    // So many records are seen at the place.
    fn sees(&mut self, place: i64, count: usize) -> bool {
        match self.seat.records(place, None, 10) {
            Ok(records) => records.len() == count,
            Err(_) => false,
        }
    }

    fn plays<R: Threads + Wait + Sync>(&mut self, rt: &R) -> Result<bool, Fail> {
        let (begun, ended) = (batch(self.alloc, BEGUN)?, batch(self.alloc, ENDED)?);
        Ok(
            self.takes(rt, begun)
                && self.leads_in_vain(rt)
                && self.pins(rt, 0)
                && self.takes(rt, ended)
                && self.sees(0, 0)
                && self.sees(3, 1),
        )
    }
}

#[test]
fn a_transaction_outlasts_a_lost_leadership(rt: HostRuntime) -> Result<(), Fail> {
    let alloc = rt.alloc();
    let signs = Signs::new();
    let plan = Plan {
        failing: 9,
        last: 0,
    };
    let mut quorum = TellingQuorum::new(alloc, plan, &signs)?;
    let mut opening = Opening::new();
    let options = options(alloc)?;
    let opened = open(&rt, alloc, &mut opening, options, 1);
    assert!(rt; opened.is_ok());
    if let Ok((mut worker, mut link, seats)) = opened {
        let mut seats = seats.into_vec();
        let played = match seats.pop() {
            Some(mut seat) => Stage {
                alloc,
                worker: &mut worker,
                link: &mut link,
                seat: &mut seat,
                quorum: &mut quorum,
            }
            .plays(&rt),
            None => Ok(false),
        };
        worker.close(&rt);
        assert!(rt; played?);
        assert_eq!(rt; quorum.kept.calls(), 1);
    }
    Ok(())
}
