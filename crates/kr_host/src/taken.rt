//! How far the worker is with the link's events.

use crate::door::Door;
use kr_shared::WorkerSeat;
use std::sync::Wait;

/// How many events of the link the worker had taken when it was last looked at.
#[derive(Drop)]
pub(crate) struct Taken {
    events: u64,
}

impl Taken {
    pub(crate) fn none() -> Taken {
        Taken { events: 0 }
    }

    /// Behind a turn: what the worker took waits no more. It answers the number among the quorum's own events of the one that the
    /// turn took, if it took one of them.
    pub(crate) fn note<R: Wait>(
        &mut self,
        rt: &R,
        worker: &WorkerSeat,
        door: &Door,
    ) -> Option<u64> {
        let events = worker.events();
        if events == self.events {
            return None;
        }
        self.events = events;
        door.note(rt, events)
    }
}
