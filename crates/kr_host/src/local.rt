//! A controller with a quorum of its own, which commits at once.

ghost use Rattle.std.specs.Prelude.{◌≡◌, ◌++◌, ◌∷◌, [], IsTrue};
ghost use Rattle.kr_queue.specs.declared.jobs.Job.TheVariants as jobs;
ghost use Rattle.kr_queue.specs.Jobs.{is_link_event};
ghost use Rattle.kr_host.specs.Leading.{PushesLead};

use crate::commits::Commits;
use crate::door::Door;
use crate::ended::Ended;
use crate::event_seat::{EventSeat, Unpushed};
use crate::events::{link_event, rest};
use crate::shortage::Shortage;
use crate::taken::Taken;
use kr_base::{Clock, OpenGate, SystemClock};
use kr_calls::Event;
use kr_flow::Origin;
use kr_local::LocalQuorum;
use kr_shared::{LinkSeat, Turn, WorkerSeat};
use std::alloc::Global;
use std::io::Eprint;
use std::sync::Wait;
use std::time;

// The epoch in which it leads.
const EPOCH: i32 = 1;

// Pushes an event, again and again where it isn't pushed.
fn push<R: Wait + time::Clock>(rt: &R, seat: &mut EventSeat, event: Event)
    requires { IsTrue (is_link_event event) }
    ensures { seat.new.pushed ≡ seat.old.pushed ++ jobs.Link event ∷ [] }
{
    let mut event = event;
    for _ in rt.forever() {
        match seat.push(rt, event, Origin::Quorum) {
            Ok(()) => return,
            Err(Unpushed::NoRoom(back)) => event = back,
            Err(Unpushed::NoMemory(back)) => event = back,
        }
        rest(rt);
    }
    unreachable!()
}

/// Leads from the first place of the log on.
pub fn lead_alone<R: Wait + time::Clock + Copy>(rt: &R, alloc: Global, link: LinkSeat) -> EventSeat
    ensures { PushesLead link result.pushed }
{
    let mut seat = EventSeat::new(alloc, link);
    let lead = Event::Lead {
        epoch: EPOCH,
        next: 0,
        now: SystemClock::new(*rt).now(),
    };
    push(rt, &mut seat, lead);
    seat
}

// Pushes the commit that is due, if one is. Where it isn't pushed it is due still.
fn commit<R: Wait>(
    rt: &R,
    door: &Door,
    quorum: &mut LocalQuorum,
    due: Option<Event>,
) -> Option<Event> {
    let event = match due {
        Some(event) => event,
        None => quorum.next_event()?,
    };
    match door.offer(rt, link_event(event)?) {
        Ok(()) => None,
        Err(Unpushed::NoRoom(back)) => Some(back),
        Err(Unpushed::NoMemory(back)) => Some(back),
    }
}

/// The worker's turns, with a quorum that commits all that was appended once no job waits, and behind 64 turns at the latest,
/// until it is stopped. What a turn without memory leaves is taken up by the next, after a rest.
pub fn turn_alone<R: Wait + Eprint + time::Clock + Copy>(
    rt: &R,
    worker: &mut WorkerSeat,
    quorum: &mut LocalQuorum,
    door: &Door,
) -> Ended {
    let mut clock = SystemClock::new(*rt);
    let mut shortage = Shortage::none();
    let mut taken = Taken::none();
    let mut commits = Commits::new();
    let mut due = None;
    for _ in rt.forever() {
        let rung = worker.jobs().number(rt);
        let turn = worker.turn(rt, &mut OpenGate, quorum, &mut clock);
        taken.note(rt, worker, door);
        if commits.are_due(matches!(turn, Ok(Turn::Did))) {
            due = commit(rt, door, quorum, due);
        }
        shortage.note(rt, turn.is_err());
        match turn {
            Ok(Turn::Did) => {}
            Ok(Turn::Idle) if due.is_none() => worker.jobs().wait_past(rt, rung),
            Ok(Turn::Stopped) => return Ended::Done,
            Ok(Turn::Idle) | Err(_) => rest(rt),
        }
    }
    unreachable!()
}
