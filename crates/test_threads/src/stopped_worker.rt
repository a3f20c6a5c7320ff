//! A stop ends the writes that wait.

use crate::calls::{Told, Write, answer_to};
use crate::threads::{Part, Plan, serve};
use kr_base::OpenGate;
use kr_shared::ClientSeat;
use std::alloc::Global;
use std::sync::Wait;
use std::test::Fail;

// Each client's write waits until the worker is stopped.
#[derive(Drop)]
struct EndedWrites {
    alloc: Global,
}

impl Part for EndedWrites {
    fn play<R: Wait>(&self, rt: &R, seat: &mut ClientSeat) -> bool {
        matches!(
            answer_to(rt, self.alloc, seat, Write::Register(1)),
            Told::Stop(1)
        )
    }
}

#[test]
fn a_stop_ends_the_writes_that_wait(rt: HostRuntime) -> Result<(), Fail> {
    let alloc = rt.alloc();
    let plan = Plan {
        failing: 0,
        last: 3,
    };
    match serve(&rt, alloc, 3, &mut OpenGate, plan, &EndedWrites { alloc })? {
        Some(kept) => assert!(rt; kept.calls() == 3),
        None => assert!(rt; false),
    }
    Ok(())
}
