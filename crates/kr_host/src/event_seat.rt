//! The link's seat, with the room for the events that wait for the worker.

ghost use Rattle.std.specs.Prelude.{◌≡◌, ◌++◌, ◌∷◌, [], IfErr, OnErr, OnOk, IsTrue};
ghost use Rattle.kr_queue.specs.declared.jobs.Job.TheVariants as jobs;
ghost use Rattle.kr_calls.specs.LinkEvents.{is_link_event};
ghost use Rattle.kr_flow.specs.Rooms.{room_noted};
ghost use Rattle.kr_host.specs.Seats.{IsPushed, number_noted};
ghost use Rattle.kr_host.specs.Unpushed.{event_back};

use crate::events::{rest, waiting_of};
use kr_base::NoMemory;
use kr_calls::Event;
use kr_flow::{EventRoom, Origin};
use kr_shared::LinkSeat;
use std::alloc::Global;
use std::marker::Model;
use std::sync::Wait;
use std::time;

// The number of the one stop.
const STOP: u64 = 1;

/// Why an event wasn't pushed. It comes back.
#[derive(Drop)]
pub(crate) enum Unpushed {
    /// As much waits as may.
    NoRoom(Event),
    NoMemory(Event),
}

/// The link's seat, with the room for the events that wait for the worker.
#[derive(Drop)]
pub struct EventSeat {
    link: LinkSeat,
    room: EventRoom,
    // Somebody waits until there is room.
    is_awaited: bool,
    // A Tick of the daemon's own clock waits.
    has_tick: bool,
}

impl Model for EventSeat {
    ghost use Rattle.kr_host.specs.Seated.{Seated};

    ghost Value = { Seated };

    ghost view = { λ s. record { pushed = s.link; flow = s.room } };
}

impl EventSeat {
    /// The seat, of whose events none waits.
    pub fn new(alloc: Global, link: LinkSeat) -> EventSeat
        ensures { result ≡ record {
          pushed = link;
          flow = record { waiting = []; taken = 0; of_quorum = 0 };
        } }
    {
        EventSeat {
            link,
            room: EventRoom::new(alloc),
            is_awaited: false,
            has_tick: false,
        }
    }

    /// Pushes an event, where it has room.
    pub(crate) fn push<R: Wait>(
        &mut self,
        rt: &R,
        event: Event,
        origin: Origin,
    ) -> Result<(), Unpushed>
        requires { IsTrue (is_link_event event) }
        ensures ok { OnOk result (IsPushed self.old self.new event origin) }
        ensures err { IfErr result (λ unpushed. (self.new ≡ self.old)
            × (event_back unpushed ≡ event)) }
    {
        let waiting = waiting_of(origin, &event);
        if !self.room.has_room(waiting.bytes) {
            self.is_awaited = true;
            return Err(Unpushed::NoRoom(event));
        }
        if self.room.enter(waiting).is_err() {
            return Err(Unpushed::NoMemory(event));
        }
        match self.link.push(rt, event) {
            Ok(()) => {
                self.has_tick = self.has_tick || matches!(origin, Origin::Clock);
                Ok(())
            }
            Err((_, back)) => {
                self.room.cancel();
                Err(Unpushed::NoMemory(back))
            }
        }
    }

    /// The worker has taken so many events in all, at most one more than before. It answers which of the quorum's own events,
    /// by its number from 1, that one is; none where it is the clock's.
    pub(crate) fn note(&mut self, events: u64) -> Option<u64>
        ensures number { result ≡ number_noted self.old events }
        ensures rest { self.new ≡ record self.old { flow = room_noted self.old.flow events } }
    {
        let taken = self.room.note(events)?;
        match taken.origin {
            Origin::Quorum => Some(self.room.of_quorum()),
            Origin::Clock => {
                self.has_tick = false;
                None
            }
        }
    }

    /// A Tick of the daemon's own clock waits.
    pub(crate) fn has_tick(&self) -> bool {
        self.has_tick
    }

    /// Whether somebody waited for room since this was last asked.
    pub(crate) fn was_awaited(&mut self) -> bool {
        let was_awaited = self.is_awaited;
        self.is_awaited = false;
        was_awaited
    }

    // Stops the worker, where there is memory for it.
    fn try_stop<R: Wait>(&mut self, rt: &R) -> Result<(), NoMemory>
        ensures ok { OnOk result (self.new
            ≡ record self.old { pushed = self.old.pushed ++ jobs.Stop 1 ∷ [] }) }
        ensures err { OnErr result (self.new ≡ self.old) }
    {
        self.link.stop(rt, STOP)
    }
}

/// Stops the worker: again and again where there is no memory for it.
pub(crate) fn stop<R: Wait + time::Clock>(rt: &R, seat: &mut EventSeat)
    ensures { seat.new ≡ record seat.old { pushed = seat.old.pushed ++ jobs.Stop 1 ∷ [] } }
{
    for _ in rt.forever() {
        match seat.try_stop(rt) {
            Ok(()) => return,
            Err(NoMemory) => rest(rt),
        }
    }
    unreachable!()
}
