//! Where events of the link go in, for any number of threads.

ghost use Rattle.std.specs.Prelude.{◌≡◌, IfErr, IsTrue};
ghost use Rattle.kr_queue.specs.Jobs.{is_link_event};
ghost use Rattle.kr_host.specs.Unpushed.{event_back};

use crate::event_seat::{EventSeat, Unpushed, stop};
use crate::events::rest;
use kr_calls::Event;
use kr_flow::Origin;
use kr_shared::Bell;
use std::sync::{Mutex, Wait};
use std::time;

/// The link's seat behind a lock, with a bell for those that wait for room.
#[derive(Drop)]
pub(crate) struct Inlet {
    seat: Mutex<EventSeat>,
    // Rung where the worker took an event and somebody waits for room.
    freed: Bell,
}

impl Inlet {
    pub(crate) fn new(seat: EventSeat) -> Inlet {
        Inlet {
            seat: Mutex::new(seat),
            freed: Bell::new(),
        }
    }

    /// Pushes an event, where it has room.
    pub(crate) fn offer<R: Wait>(
        &self,
        rt: &R,
        event: Event,
        origin: Origin,
    ) -> Result<(), Unpushed>
        requires { IsTrue (is_link_event event) }
        ensures { IfErr result (λ unpushed. event_back unpushed ≡ event) }
    {
        let mut seat = self.seat.lock(rt);
        seat.push(rt, event, origin)
    }

    /// Pushes an event once it has room, again and again where there is no memory for it. It waits for the worker, which must not
    /// call it.
    pub(crate) fn push<R: Wait + time::Clock>(&self, rt: &R, event: Event, origin: Origin)
        requires { IsTrue (is_link_event event) }
    {
        let mut event = event;
        for _ in rt.forever() {
            let seen = self.freed.number(rt);
            match self.offer(rt, event, origin) {
                Ok(()) => return,
                Err(Unpushed::NoRoom(back)) => {
                    event = back;
                    self.freed.wait_past(rt, seen);
                }
                Err(Unpushed::NoMemory(back)) => {
                    event = back;
                    rest(rt);
                }
            }
        }
        unreachable!()
    }

    /// The worker has taken so many events in all. It answers the number among the quorum's of the one that it took last.
    pub(crate) fn note<R: Wait>(&self, rt: &R, events: u64) -> Option<u64> {
        let (number, was_awaited) = self.note_at_seat(rt, events);
        if was_awaited {
            self.freed.ring(rt);
        }
        number
    }

    fn note_at_seat<R: Wait>(&self, rt: &R, events: u64) -> (Option<u64>, bool) {
        let mut seat = self.seat.lock(rt);
        let number = seat.note(events);
        let was_awaited = seat.was_awaited();
        (number, was_awaited)
    }

    /// A Tick of the daemon's own clock waits for the worker.
    pub(crate) fn has_tick<R: Wait>(&self, rt: &R) -> bool {
        let seat = self.seat.lock(rt);
        seat.has_tick()
    }

    /// Stops the worker.
    pub(crate) fn stop<R: Wait + time::Clock>(&self, rt: &R) {
        let mut seat = self.seat.lock(rt);
        stop(rt, &mut *seat);
    }
}
