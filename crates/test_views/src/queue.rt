//! One thread, and a worker with four clients on threads of their own.

ghost use Rattle.std.specs.Prelude.{◌≡◌, ◌+◌, length, OnOk, IsTrue};
ghost use Rattle.kr_queue.specs.declared.passes.Role.TheVariants.{Worker, Link, Client};
ghost use Rattle.kr_queue.specs.Jobs.{may_push};
ghost use Rattle.kr_queue.specs.Passes.{view, IsPassOf, AreClients};

use kr_base::NoMemory;
use kr_calls::{Call, Request, UnregisterBroker};
use kr_queue::{Job, Pass, Passes, Queue, open};
use std::alloc::Global;
use std::sync::Wait;
use std::thread;
use std::thread::Threads;

// How many writes each client pushes.
const EACH: u64 = 100;

#[derive(Drop)]
struct Popper<'a> {
    queue: &'a Queue,
    pass: Pass,
    ghost own: { IsPassOf queue.now pass × ((view pass).role ≡ Worker) },
}

#[derive(Drop)]
struct Stopper<'a> {
    queue: &'a Queue,
    pass: Pass,
    ghost own: { IsPassOf queue.now pass × ((view pass).role ≡ Link) },
}

#[derive(Drop)]
struct Writer<'a> {
    queue: &'a Queue,
    pass: Pass,
    seat: u32,
    ghost own: { IsPassOf queue.now pass × ((view pass).role ≡ Client seat) },
}

#[test]
fn a_job_is_popped_once(rt: HostRuntime) -> Result<(), NoMemory> {
    let (queue, mut passes) = open(rt.alloc(), 0)?;
    let pushed = queue.push(&rt, &mut passes.link, Job::Stop { number: 7 });
    assert!(rt; pushed.is_ok());
    let popped = queue.pop(&rt, &mut passes.worker);
    assert!(rt; matches!(popped, Some(Job::Stop { number: 7 })));
    assert!(rt; queue.pop(&rt, &mut passes.worker).is_none());
    Ok(())
}

#[test]
fn each_job_comes_once_and_in_its_pushers_order(rt: HostRuntime) -> Result<(), NoMemory> {
    let (queue, passes) = open(rt.alloc(), 4)?;
    let (pushed, writes) = exchange(&rt, rt.alloc(), &queue, passes)?;
    assert!(rt; pushed);
    assert_eq!(rt; writes.len(), 400);
    for seat in 1..5 {
        assert!(rt; is_in_order(writes.as_slice(), seat));
    }
    assert!(rt; !is_in_order(writes.as_slice(), 5));
    Ok(())
}

// The seat's tickets are 0, 1 and so on, up to EACH.
fn is_in_order(writes: &[(u32, u64)], seat: u32) -> bool {
    let mut next = 0u64;
    for write in writes {
        if write.0 == seat {
            if write.1 != next {
                return false;
            }
            next = next.wrapping_add(1);
        }
    }
    next == EACH
}

// What the worker popped of four clients, and whether all was pushed.
fn exchange<R: Threads + Wait + Sync>(
    rt: &R,
    alloc: Global,
    queue: &Queue,
    passes: Passes,
) -> Result<(bool, Vec<(u32, u64)>), NoMemory>
    requires worker { IsPassOf queue.now passes.worker × ((view passes.worker).role ≡ Worker) }
    requires link { IsPassOf queue.now passes.link × ((view passes.link).role ≡ Link) }
    requires clients { AreClients queue.now passes.clients × (length passes.clients ≡ 4) }
{
    let Passes {
        worker,
        link,
        clients,
    } = passes;
    let popper = Popper {
        queue,
        pass: worker,
    };
    let stopper = Stopper { queue, pass: link };
    let mut clients = clients.into_vec();
    let fourth = last_writer(queue, &mut clients, 4)?;
    let third = last_writer(queue, &mut clients, 3)?;
    let second = last_writer(queue, &mut clients, 2)?;
    let first = last_writer(queue, &mut clients, 1)?;
    let (pushed, popped) = thread::join(
        rt,
        move || push_and_stop(rt, stopper, first, second, third, fourth),
        move || pop_writes(rt, alloc, popper),
    );
    Ok((pushed, popped?))
}

// The client with the greatest seat.
#[tactic(auto, using(kr_queue::proofs::Clients::one_less))]
fn last_writer<'a>(
    queue: &'a Queue,
    clients: &mut Vec<Pass>,
    seat: u32,
) -> Result<Writer<'a>, NoMemory>
    requires clients { AreClients queue.now clients.old.items }
    requires count { length clients.old.items ≡ seat }
    ensures clients { AreClients queue.now clients.new.items }
    ensures count { OnOk result (length clients.new.items + 1 ≡ seat) }
{
    match clients.pop() {
        Some(pass) => Ok(Writer { queue, pass, seat }),
        None => Err(NoMemory),
    }
}

// Each client pushes on a thread of its own, and then the stop is pushed. False where memory ran out.
fn push_and_stop<R: Threads + Wait + Sync>(
    rt: &R,
    stopper: Stopper<'_>,
    first: Writer<'_>,
    second: Writer<'_>,
    third: Writer<'_>,
    fourth: Writer<'_>,
) -> bool {
    let (low, high) = thread::join(
        rt,
        move || push_both(rt, first, second),
        move || push_both(rt, third, fourth),
    );
    push_stop(rt, stopper) && low && high
}

fn push_both<R: Threads + Wait + Sync>(rt: &R, first: Writer<'_>, second: Writer<'_>) -> bool {
    let (one, other) = thread::join(
        rt,
        move || push_writes(rt, first),
        move || push_writes(rt, second),
    );
    one && other
}

fn push_writes<R: Wait>(rt: &R, writer: Writer<'_>) -> bool {
    let Writer {
        queue,
        mut pass,
        seat,
    } = writer;
    for ticket in 0..EACH {
        let pushed = queue.push(rt, &mut pass, a_write(seat, ticket));
        if pushed.is_err() {
            return false;
        }
    }
    true
}

fn a_write(seat: u32, ticket: u64) -> Job
    ensures { IsTrue (may_push (Client seat) result) }
{
    let call = Call {
        correlation: 0,
        request: Request::UnregisterBroker(UnregisterBroker { broker: 1 }),
    };
    Job::Write {
        seat,
        ticket,
        floor: 0,
        call,
    }
}

fn push_stop<R: Wait>(rt: &R, stopper: Stopper<'_>) -> bool {
    let Stopper { queue, mut pass } = stopper;
    let pushed = queue.push(rt, &mut pass, Job::Stop { number: 1 });
    pushed.is_ok()
}

// Pops until the stop comes, and answers each write's seat and ticket.
fn pop_writes<R: Wait>(
    rt: &R,
    alloc: Global,
    popper: Popper<'_>,
) -> Result<Vec<(u32, u64)>, NoMemory> {
    let Popper { queue, mut pass } = popper;
    let mut writes = Vec::new(alloc);
    for _ in rt.forever() {
        match queue.pop(rt, &mut pass) {
            Some(Job::Write { seat, ticket, .. }) => writes.push((seat, ticket))?,
            Some(Job::Link { .. } | Job::Pin { .. } | Job::Unpin { .. }) => {}
            Some(Job::Stop { .. }) => return Ok(writes),
            None => thread::yield_now(),
        }
    }
    unreachable!()
}
