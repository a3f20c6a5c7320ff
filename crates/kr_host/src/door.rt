//! Where clients and events come in.

ghost use Rattle.std.specs.Prelude.{◌≡◌, IfErr, IsTrue};
ghost use Rattle.kr_calls.specs.LinkEvents.{is_link_event};
ghost use Rattle.kr_host.specs.Unpushed.{event_back};

use crate::event_seat::{EventSeat, Unpushed};
use crate::inlet::Inlet;
use kr_base::{Clock, SystemClock};
use kr_calls::Event;
use kr_flow::Origin;
use std::net::TcpListener;
use std::sync::Wait;
use std::sync::atomic::{AtomicU64, Ordering};
use std::time;

/// What the threads of a daemon share: the listener that all seats accept from, whether connections are still served, and the
/// link's seat.
#[derive(Drop)]
pub struct Door {
    pub(crate) listener: TcpListener,
    closed: AtomicU64,
    inlet: Inlet,
}

impl Door {
    /// An open door.
    pub fn new(listener: TcpListener, seat: EventSeat) -> Door {
        Door {
            listener,
            closed: AtomicU64::new(0),
            inlet: Inlet::new(seat),
        }
    }

    /// From now on no connection is served that comes in.
    pub fn close(&self) {
        self.closed.store(1, Ordering::SeqCst);
    }

    /// No connection is served any more.
    pub(crate) fn is_closed(&self) -> bool {
        self.closed.load(Ordering::SeqCst) != 0
    }

    /// Pushes an event of the quorum's, once it has room.
    pub(crate) fn push<R: Wait + time::Clock>(&self, rt: &R, event: Event)
        requires { IsTrue (is_link_event event) }
    {
        self.inlet.push(rt, event, Origin::Quorum);
    }

    /// Pushes an event of a quorum of this process, where it has room.
    pub(crate) fn offer<R: Wait>(&self, rt: &R, event: Event) -> Result<(), Unpushed>
        requires { IsTrue (is_link_event event) }
        ensures { IfErr result (λ unpushed. event_back unpushed ≡ event) }
    {
        self.inlet.offer(rt, event, Origin::Quorum)
    }

    /// Tells the controller the time, unless the last Tick still waits.
    pub(crate) fn tick<R: Wait + time::Clock + Copy>(&self, rt: &R) {
        if self.inlet.has_tick(rt) {
            return;
        }
        let now = SystemClock::new(*rt).now();
        self.inlet.push(rt, Event::Tick { now }, Origin::Clock);
    }

    /// The worker has taken so many events of the link in all. It answers the number among the quorum's own of the one that it took
    /// last.
    pub(crate) fn note<R: Wait>(&self, rt: &R, events: u64) -> Option<u64> {
        self.inlet.note(rt, events)
    }

    /// Stops the worker.
    pub fn stop<R: Wait + time::Clock>(&self, rt: &R) {
        self.inlet.stop(rt);
    }
}
