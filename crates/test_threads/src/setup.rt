//! The log that tests of places begin with.

use crate::calls::{Write, is_at};
use kr_shared::ClientSeat;
use std::alloc::Global;
use std::sync::Wait;

const BROKERS: i32 = 5;

// Five active brokers, and the topic `t`. The log ends at 12.
pub(crate) fn is_set_up<R: Wait>(rt: &R, alloc: Global, seat: &mut ClientSeat) -> bool {
    for n in 0..BROKERS {
        if !is_at(rt, alloc, seat, Write::Register(n + 1), i64::from(n)) {
            return false;
        }
    }
    for n in 0..BROKERS {
        let heard = Write::Heartbeat(n + 1, i64::from(n), 4);
        if !is_at(rt, alloc, seat, heard, i64::from(n) + 5) {
            return false;
        }
    }
    is_at(rt, alloc, seat, Write::Topic("t"), 10)
}
