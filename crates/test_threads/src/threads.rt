//! A worker, and beside it a link that commits and the clients, each on a thread of its own.

ghost use Rattle.std.specs.Prelude.{◌<◌, ◌≤◌, IfOk, IsTrue};
ghost use Rattle.kr_defs.specs.OpenOptions.{are_options};

use kr_base::{Failed, Gate, MemoryClock, MemoryQuorum, NoMemory, Quorum};
use kr_batch::head;
use kr_calls::Event;
use kr_defs::{Options, Text};
use kr_shared::{Bell, ClientSeat, LinkSeat, Turn, WorkerSeat, open};
use kr_view::Opening;
use std::alloc::Global;
use std::sync::Wait;
use std::sync::atomic::{AtomicBool, AtomicI64, Ordering};
use std::thread;
use std::thread::Threads;

// What each client does on its thread.
pub(crate) trait Part {
    // True where all came as it should.
    fn play<R: Wait>(&self, rt: &R, seat: &mut ClientSeat) -> bool;
}

// What the threads tell the link's.
#[derive(Drop)]
pub(crate) struct Signs {
    // Where the quorum's log ends.
    end: AtomicI64,
    // All clients are done, or the worker is to be stopped.
    done: AtomicBool,
    // Something came to a client that should not.
    is_wrong: AtomicBool,
    // Rung where the link may have something to do.
    news: Bell,
}

impl Signs {
    pub(crate) fn new() -> Signs {
        Signs {
            end: AtomicI64::new(0),
            done: AtomicBool::new(false),
            is_wrong: AtomicBool::new(false),
            news: Bell::new(),
        }
    }
}

/// What the quorum does.
#[derive(Clone, Copy)]
pub(crate) struct Plan {
    // The append of this number fails; 0 for none.
    pub failing: u64,
    // After so many appends the worker is stopped; at 0 once all clients are done.
    pub last: u64,
}

/// It takes each append, and commits it.
pub(crate) const COMMITS: Plan = Plan {
    failing: 0,
    last: 0,
};

// It keeps what is appended, and tells where the log ends. Where an append fails or a number of them stops the worker it tells
// nothing, so that nothing is committed.
#[derive(Drop)]
pub(crate) struct TellingQuorum<'a> {
    pub kept: MemoryQuorum,
    plan: Plan,
    signs: &'a Signs,
}

impl TellingQuorum<'_> {
    pub(crate) fn new(
        alloc: Global,
        plan: Plan,
        signs: &Signs,
    ) -> Result<TellingQuorum<'_>, NoMemory> {
        let failing = vec![in alloc; plan.failing]?;
        Ok(TellingQuorum {
            kept: MemoryQuorum::new(alloc, 1_000_000, 4_000, failing)?,
            plan,
            signs,
        })
    }

    fn is_silent(&self) -> bool {
        self.plan.failing != 0 || self.plan.last != 0
    }
}

impl Quorum for TellingQuorum<'_> {
    ghost use Rattle.std.specs.Prelude.{Some};

    ghost pieces = { λ s. Some s.kept.pieces };

    ghost faults = { λ s. s.kept.faults };

    fn append(&mut self, bytes: &[u8]) -> Result<(), Failed> {
        self.kept.append(bytes)?;
        if !self.is_silent() {
            self.signs.end.store(end_after(bytes), Ordering::SeqCst);
        }
        if self.kept.calls() == self.plan.last {
            self.signs.done.store(true, Ordering::SeqCst);
        }
        Ok(())
    }

    fn faults(&self) -> u64 {
        self.kept.faults()
    }
}

fn end_after(batch: &[u8]) -> i64 {
    match head(batch) {
        Some(heading) => heading.base.saturating_add(i64::from(heading.count)),
        None => 0,
    }
}

pub(crate) fn options(alloc: Global) -> Result<Options, NoMemory>
    ensures { IfOk result (λ options. IsTrue (are_options options)) }
{
    Ok(Options {
        node: 1,
        salt: 7,
        session_ms: 9000,
        partitions: 1,
        factor: 1,
        minimum: 1,
        cluster: Text::from_str(alloc, "c1")?,
    })
}

// Commits what is appended, until all clients are done, and then stops the worker. True where nothing failed.
fn commit_all<R: Wait>(rt: &R, link: &mut LinkSeat, signs: &Signs) -> bool {
    let mut committed = 0i64;
    for _ in rt.forever() {
        let seen = signs.news.number(rt);
        let end = signs.end.load(Ordering::SeqCst);
        if end > committed {
            committed = end;
            if link.push(rt, Event::Commit { epoch: 1, end }).is_err() {
                return false;
            }
        } else if signs.done.load(Ordering::SeqCst) {
            return link.stop(rt, 1).is_ok();
        } else {
            signs.news.wait_past(rt, seen);
        }
    }
    unreachable!()
}

fn play<R: Wait, P: Part>(rt: &R, seat: &mut ClientSeat, part: &P, signs: &Signs) {
    if !part.play(rt, seat) {
        signs.is_wrong.store(true, Ordering::SeqCst);
    }
}

// Each client plays on a thread of its own, and the link hears when all are done.
fn play_all<R: Threads + Wait + Sync, P: Part + Sync>(
    rt: &R,
    seats: &mut Vec<ClientSeat>,
    part: &P,
    signs: &Signs,
) {
    let threads = seats.len().max(1);
    thread::for_each_mut(
        rt,
        seats,
        threads,
        &|_, seat: &mut ClientSeat| { play(rt, seat, part, signs) },
    );
    signs.done.store(true, Ordering::SeqCst);
    signs.news.ring(rt);
}

// True where all came as it should.
fn play_and_commit<R: Threads + Wait + Sync, P: Part + Sync>(
    rt: &R,
    link: &mut LinkSeat,
    seats: &mut Vec<ClientSeat>,
    part: &P,
    signs: &Signs,
) -> bool {
    let (committed, ()) = thread::join(
        rt,
        || commit_all(rt, link, signs),
        || play_all(rt, seats, part, signs),
    );
    committed && !signs.is_wrong.load(Ordering::SeqCst)
}

// Turns until the stop comes. Where no job is left, the link hears of it. True where nothing failed.
fn turn_all<R: Wait, G: Gate>(
    rt: &R,
    alloc: Global,
    worker: &mut WorkerSeat,
    gate: &mut G,
    quorum: &mut TellingQuorum<'_>,
) -> bool {
    let signs = quorum.signs;
    let mut clock = MemoryClock::new(Vec::new(alloc));
    for _ in rt.forever() {
        let seen = worker.jobs().number(rt);
        match worker.turn(rt, gate, quorum, &mut clock) {
            Ok(Turn::Stopped) => return true,
            Ok(Turn::Did) => {}
            Ok(Turn::Idle) => {
                signs.news.ring(rt);
                worker.jobs().wait_past(rt, seen);
            }
            Err(_) => return false,
        }
    }
    unreachable!()
}

// The worker turns on this thread, and the others are beside it.
fn turn_beside<R: Threads + Wait + Sync, G: Gate, P: Part + Sync>(
    rt: &R,
    alloc: Global,
    worker: &mut WorkerSeat,
    link: &mut LinkSeat,
    seats: &mut Vec<ClientSeat>,
    gate: &mut G,
    quorum: &mut TellingQuorum<'_>,
    part: &P,
) -> bool {
    let signs = quorum.signs;
    let (played, turned) = thread::join(
        rt,
        || play_and_commit(rt, link, seats, part, signs),
        || turn_all(rt, alloc, worker, gate, quorum),
    );
    played && turned
}

fn lead<R: Wait>(rt: &R, link: &mut LinkSeat) -> bool {
    let lead = Event::Lead {
        epoch: 1,
        next: 0,
        now: 1000,
    };
    link.push(rt, lead).is_ok()
}

// A controller that leads from place 0 on serves so many clients, which play their parts. True where all came as it should.
fn is_served<R: Threads + Wait + Sync, G: Gate, P: Part + Sync>(
    rt: &R,
    alloc: Global,
    clients: u32,
    gate: &mut G,
    quorum: &mut TellingQuorum<'_>,
    part: &P,
) -> Result<bool, NoMemory>
    requires { (0 < clients) × (clients ≤ 64) }
{
    let options = options(alloc)?;
    let mut opening = Opening::new();
    let Ok((mut worker, mut link, seats)) = open(rt, alloc, &mut opening, options, clients) else {
        return Ok(false);
    };
    let leads = lead(rt, &mut link);
    let mut seats = seats.into_vec();
    let played = turn_beside(
        rt,
        alloc,
        &mut worker,
        &mut link,
        &mut seats,
        gate,
        quorum,
        part,
    );
    worker.close(rt);
    Ok(leads && played)
}

/// What a quorum kept that followed the plan; none where something came that should not.
pub(crate) fn serve<R: Threads + Wait + Sync, G: Gate, P: Part + Sync>(
    rt: &R,
    alloc: Global,
    clients: u32,
    gate: &mut G,
    plan: Plan,
    part: &P,
) -> Result<Option<MemoryQuorum>, NoMemory>
    requires { (0 < clients) × (clients ≤ 64) }
{
    let signs = Signs::new();
    let mut quorum = TellingQuorum::new(alloc, plan, &signs)?;
    let served = is_served(rt, alloc, clients, gate, &mut quorum, part)?;
    let TellingQuorum { kept, .. } = quorum;
    Ok(if served { Some(kept) } else { None })
}
