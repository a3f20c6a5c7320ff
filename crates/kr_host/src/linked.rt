//! The turns of a worker whose quorum is at the other end of the link.

use crate::door::Door;
use crate::ended::Ended;
use crate::events::rest;
use crate::link_quorum::LinkQuorum;
use crate::shortage::Shortage;
use crate::taken::Taken;
use kr_base::{OpenGate, SystemClock};
use kr_shared::{Turn, WorkerSeat};
use std::io::Eprint;
use std::sync::Wait;
use std::time;

// Tells the quorum why its event of this number was refused, if the last turn's was: again and again where there is no memory for
// it.
fn tell_refusal<R: Wait + time::Clock, L: Wait + time::Clock + Copy>(
    rt: &R,
    worker: &WorkerSeat,
    number: u64,
    quorum: &LinkQuorum<L>,
) {
    let Some(reason) = worker.refusal() else {
        return;
    };
    for _ in rt.forever() {
        match quorum.refuse(number, *reason) {
            Ok(()) => return,
            Err(_) => rest(rt),
        }
    }
    unreachable!()
}

/// The worker's turns, until it is stopped. A refused event of the quorum's is answered, with its number among the quorum's own
/// events, from 1; a refused Tick of the daemon's own clock is not. What a turn without memory leaves is taken up by the next,
/// after a rest.
pub fn turn_linked<R: Wait + Eprint + time::Clock + Copy>(
    rt: &R,
    worker: &mut WorkerSeat,
    quorum: &mut LinkQuorum<R>,
    door: &Door,
) -> Ended {
    let mut clock = SystemClock::new(*rt);
    let mut shortage = Shortage::none();
    let mut taken = Taken::none();
    for _ in rt.forever() {
        let rung = worker.jobs().number(rt);
        let turn = worker.turn(rt, &mut OpenGate, quorum, &mut clock);
        if let Some(number) = taken.note(rt, worker, door) {
            tell_refusal(rt, worker, number, quorum);
        }
        shortage.note(rt, turn.is_err());
        match turn {
            Ok(Turn::Did) => {}
            Ok(Turn::Idle) => worker.jobs().wait_past(rt, rung),
            Ok(Turn::Stopped) => return Ended::Done,
            Err(_) => rest(rt),
        }
    }
    unreachable!()
}
