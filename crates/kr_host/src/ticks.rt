//! The time, told to the controller.

use crate::door::Door;
use kr_base::NoMemory;
use std::alloc::Global;
use std::sync::{Arc, Wait};
use std::thread::{JoinHandle, Threads};
use std::time::Duration;
use std::{thread, time};

/// How long it is between two Ticks, in milliseconds.
pub const TICK_MS: u64 = 500;

// Ticks until the door is closed.
fn tick_all<R: Wait + time::Clock + Copy>(rt: &R, door: &Door) {
    for _ in rt.forever() {
        thread::sleep(rt, Duration::from_millis(TICK_MS));
        if door.is_closed() {
            return;
        }
        door.tick(rt);
    }
}

/// A thread that tells the controller the time, in the order of all other events of the link.
pub fn spawn_ticks<R: Threads + Wait + time::Clock + Send + Copy + 'static>(
    rt: R,
    door: &Arc<Door, Global>,
) -> Result<JoinHandle<()>, NoMemory> {
    let door = Arc::try_clone(door)?;
    match thread::spawn(&rt, move || tick_all(&rt, &door)) {
        Ok(thread) => Ok(thread),
        Err(_) => Err(NoMemory),
    }
}
