//! Connections that are waited for too long are ended.

use crate::door::Door;
use kr_base::NoMemory;
use kr_flow::{Phase, Watched};
use std::alloc::Global;
use std::io::Eprint;
use std::net::{Shutdown, TcpStream};
use std::sync::{Arc, Mutex, Wait};
use std::thread::{JoinHandle, Threads};
use std::time::Duration;
use std::{thread, time};

// How long it is between two looks at the connections, in seconds.
const LOOK_SECONDS: u64 = 1;

// The connection of a seat, if one is served, and what is waited for on it.
#[derive(Drop)]
struct Connection {
    stream: Option<Arc<TcpStream, Global>>,
    watched: Watched,
}

/// The connection that a seat serves, for the thread that serves it and the one that watches all.
#[derive(Drop)]
pub(crate) struct Watch {
    connection: Mutex<Connection>,
}

impl Watch {
    /// A watch of a seat that serves none.
    pub(crate) fn new() -> Watch {
        Watch {
            connection: Mutex::new(Connection {
                stream: None,
                watched: Watched::new(),
            }),
        }
    }

    /// A connection begins.
    pub(crate) fn begin<R: Wait>(&self, rt: &R, stream: Arc<TcpStream, Global>) {
        let mut connection = self.connection.lock(rt);
        connection.stream = Some(stream);
        connection.watched = Watched::new();
    }

    /// It has ended.
    pub(crate) fn end<R: Wait>(&self, rt: &R) {
        let mut connection = self.connection.lock(rt);
        connection.stream = None;
    }

    /// From now on this is waited for.
    pub(crate) fn enter<R: Wait>(&self, rt: &R, phase: Phase) {
        let mut connection = self.connection.lock(rt);
        connection.watched.enter(phase);
    }

    // Ends a connection that is waited for too long at the second `now`; it answers what for.
    fn look<R: Wait>(&self, rt: &R, now: u64) -> Option<Phase> {
        let mut connection = self.connection.lock(rt);
        if connection.stream.is_none() || !connection.watched.is_over(now) {
            return None;
        }
        if let Some(stream) = connection.stream.take() {
            let _ = stream.shutdown(Shutdown::Both);
        }
        Some(connection.watched.phase)
    }
}

// What a connection didn't do in time.
fn reason_of(phase: Phase) -> &'static str {
    match phase {
        Phase::Idle => "nothing came",
        Phase::Message => "a message was unfinished",
        Phase::Answer => "no answer came",
        Phase::Reply => "a reply wasn't taken",
    }
}

// Tells why a connection was ended, on standard error.
fn tell<R: Eprint>(rt: &R, phase: Phase) {
    let reason = reason_of(phase);
    let seconds = phase.limit().unwrap_or(0);
    let _ = eprintln!(rt; "kr_daemon: a connection ended: {reason} for {seconds} seconds");
}

// Looks at all connections, again and again, until the door is closed.
fn watch_all<R: Wait + Eprint + time::Clock>(rt: &R, watches: &[Arc<Watch, Global>], door: &Door) {
    let mut second: u64 = 0;
    for _ in rt.forever() {
        thread::sleep(rt, Duration::from_secs(LOOK_SECONDS));
        if door.is_closed() {
            return;
        }
        second = second.saturating_add(LOOK_SECONDS);
        for watch in watches {
            if let Some(phase) = watch.look(rt, second) {
                tell(rt, phase);
            }
        }
    }
}

/// A thread that ends the connections that are waited for too long.
pub(crate) fn spawn_watch<R: Threads + Wait + Eprint + time::Clock + Send + Copy + 'static>(
    rt: R,
    watches: Vec<Arc<Watch, Global>>,
    door: &Arc<Door, Global>,
) -> Result<JoinHandle<()>, NoMemory> {
    let door = Arc::try_clone(door)?;
    match thread::spawn(&rt, move || watch_all(&rt, watches.as_slice(), &door)) {
        Ok(thread) => Ok(thread),
        Err(_) => Err(NoMemory),
    }
}
