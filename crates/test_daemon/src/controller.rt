//! A controller that commits each append at once, and its one client's connection over memory, in another thread.

use crate::replies::ReplySink;
use crate::talk::{First, Talk};
use kr_base::{MemoryClock, MemorySource, NoMemory, OpenGate};
use kr_calls::Event;
use kr_local::LocalQuorum;
use kr_server::{MemoryTranscript, ServeEnd, serve_client};
use kr_shared::{ClientSeat, ClientSeats, LinkSeat, MOST_PLACES, Turn, WorkerSeat, open};
use kr_view::Opening;
use std::alloc::{AllocError, Global};
use std::sync::Wait;
use std::sync::atomic::{AtomicU64, Ordering};
use std::thread;
use std::thread::Threads;

// The number of the stop that ends the worker.
const STOP: u64 = 3;

// What the worker asks of the outside, and what the client brings.
#[derive(Drop)]
struct Outside {
    quorum: LocalQuorum,
    clock: MemoryClock,
    source: MemorySource,
    sink: ReplySink,
}

/// What came of a connection.
#[derive(Drop)]
pub(crate) struct Outcome {
    end: ServeEnd,
    same: usize,
    puts: usize,
    exchanges: usize,
}

impl Outcome {
    /// How it ended, how many of the puts were the expected replies, and how many exchanges were told.
    pub(crate) fn text(&self, alloc: Global) -> Result<String, AllocError> {
        let Outcome {
            end,
            same,
            puts,
            exchanges,
        } = self;
        format!(in alloc; "{end:?}, {same} of {puts} replies, {exchanges} exchanges")
    }
}

/// Serves the connection of the one client of a controller whose worker is told the first thing before.
pub(crate) fn serve_talk<R: Threads + Wait + Sync>(
    rt: &R,
    alloc: Global,
    talk: Talk,
) -> Result<Outcome, NoMemory> {
    let Talk {
        setting,
        first,
        bytes,
        times,
        failing_reads,
        failing_puts,
        replies,
    } = talk;
    let mut outside = Outside {
        quorum: LocalQuorum::new(alloc, Vec::new(alloc), Vec::new(alloc))?,
        clock: MemoryClock::new(times),
        source: MemorySource::new(bytes, failing_reads),
        sink: ReplySink::new(replies, failing_puts),
    };
    let mut opening = Opening::new();
    match open(rt, alloc, &mut opening, setting.options, 1) {
        Err(_) => Err(NoMemory),
        Ok((mut worker, mut link, seats)) => {
            let outcome = match begin(rt, &mut link, first) {
                Err(NoMemory) => Err(NoMemory),
                Ok(()) => serve_first(rt, alloc, &mut worker, &mut link, seats, &mut outside),
            };
            worker.close(rt);
            outcome
        }
    }
}

fn begin<R: Wait>(rt: &R, link: &mut LinkSeat, first: First) -> Result<(), NoMemory> {
    let pushed = match first {
        First::Stop => return link.stop(rt, STOP),
        First::Load(bytes) => link.push(rt, Event::Load { bytes }),
        First::Lead => link.push(
            rt,
            Event::Lead {
                epoch: 1,
                next: 0,
                now: 0,
            },
        ),
    };
    match pushed {
        Ok(()) => Ok(()),
        Err(_) => Err(NoMemory),
    }
}

// Serves the client with the last of the seats, in another thread, while the worker turns in this one.
fn serve_first<R: Threads + Wait + Sync>(
    rt: &R,
    alloc: Global,
    worker: &mut WorkerSeat,
    link: &mut LinkSeat,
    seats: ClientSeats,
    outside: &mut Outside,
) -> Result<Outcome, NoMemory> {
    let Some(mut seat) = seats.into_vec().pop() else {
        return Err(NoMemory);
    };
    let Outside {
        quorum,
        clock,
        source,
        sink,
    } = outside;
    let done = AtomicU64::new(0);
    let (served, has_turned) = thread::join(
        rt,
        || connect(rt, alloc, &mut seat, source, sink, &done),
        || turn_all(rt, worker, link, quorum, clock, &done),
    );
    if !has_turned {
        return Err(NoMemory);
    }
    let (end, exchanges) = served;
    let (same, puts) = sink.counts();
    Ok(Outcome {
        end,
        same,
        puts,
        exchanges,
    })
}

// Turns until it is stopped, which it is once the client is done. True where nothing failed.
fn turn_all<R: Wait>(
    rt: &R,
    worker: &mut WorkerSeat,
    link: &mut LinkSeat,
    quorum: &mut LocalQuorum,
    clock: &mut MemoryClock,
    done: &AtomicU64,
) -> bool {
    let mut gate = OpenGate;
    let mut is_stopping = false;
    for _ in rt.forever() {
        match worker.turn(rt, &mut gate, quorum, clock) {
            Ok(Turn::Stopped) => return true,
            Ok(Turn::Did) => {
                if !commit(rt, link, quorum) {
                    return false;
                }
            }
            Ok(Turn::Idle) => {
                if !is_stopping && done.load(Ordering::SeqCst) == 1 {
                    is_stopping = link.stop(rt, STOP).is_ok();
                }
                thread::yield_now();
            }
            Err(_) => return false,
        }
    }
    unreachable!()
}

// Commits what is due, by the link.
fn commit<R: Wait>(rt: &R, link: &mut LinkSeat, quorum: &mut LocalQuorum) -> bool {
    match quorum.next_event() {
        Some(Event::Commit { epoch, end }) => {
            link.push(rt, Event::Commit { epoch, end }).is_ok()
        }
        _ => true,
    }
}

// The client's part: how it ended, and how many exchanges were told.
fn connect<R: Wait>(
    rt: &R,
    alloc: Global,
    seat: &mut ClientSeat,
    source: &mut MemorySource,
    sink: &mut ReplySink,
    done: &AtomicU64,
) -> (ServeEnd, usize) {
    // A seat that is just opened holds none.
    if seat.pins() >= MOST_PLACES {
        done.store(1, Ordering::SeqCst);
        return (ServeEnd::NoMemory, 0);
    }
    let mut transcript = MemoryTranscript::new(alloc);
    let end = serve_client(rt, alloc, seat, source, sink, &mut transcript);
    done.store(1, Ordering::SeqCst);
    (end, transcript.exchanges().len())
}
