//! The worker's seat, and its turn.

ghost use Rattle.std.specs.Prelude.{◌≡◌, ◌<◌, [], false, None, OnErr, OnOk, IfOk, IfSome, IfNone, IsTrue};
ghost use Rattle.std.specs.Option.{option_copied};
ghost use Rattle.std.specs.Arc.{arc_value};
ghost use Rattle.kr_queue.specs.declared.passes.Role.TheVariants as roles;
ghost use Rattle.kr_queue.specs.Jobs.{is_fit};
ghost use Rattle.kr_queue.specs.Passes.{view, IsPassOf};
ghost use Rattle.kr_queue.specs.Steps.{Holds};
ghost use Rattle.kr_shared.specs.Desks.{IsCaughtUp, DeskStands, settled};
ghost use Rattle.kr_shared.specs.Turns.{IsDoneLate, IsLate, IsTurnOf, StaysLate, TakesUp, Turned, events_with, is_stop, outside, turn_of};

use crate::bell::Bell;
use crate::clients::Bells;
use crate::desk::Desk;
use kr_base::{Clock, Gate, NoMemory, Quorum, Steps};
use kr_calls::Reason;
use kr_queue::{Job, Pass, Queue};
use std::alloc::Global;
use std::marker::{Brand, Model};
use std::sync::ledger::{Blank, Ledger};
use std::sync::{Arc, Wait};

/// What a turn did.
#[derive(Clone, Copy, Debug, Drop, PartialEq, Eq)]
pub enum Turn {
    /// A job.
    Did,
    /// Nothing: there was no job.
    Idle,
    /// A stop came, in this turn or before.
    Stopped,
}

/// The seat of the worker. It is not `Drop`: end it by `close`.
pub struct WorkerSeat {
    // Where jobs are popped.
    queue: Arc<Queue, Global>,
    // The right to pop them.
    pass: Pass,
    // The bell of the queue, and that of the copies.
    bells: Bells,
    // The engine, with what it published, what waits and what is due.
    desk: Desk,
    // A job for which there was no memory, before any other.
    stays: Option<Job>,
    // How many events of the link were taken.
    events: u64,
    // Why the last turn's event was refused, if it was.
    refusal: Option<Reason>,
    // How many jobs were taken up.
    pops: u64,
    // A stop was popped.
    stopped: bool,
    // There was no memory to publish what is due.
    late: bool,
}

impl Model for WorkerSeat {
    ghost use Rattle.kr_shared.specs.Turns.{Bench};

    ghost Value = { Bench };

    ghost use Rattle.kr_shared.specs.WorkerFields.{bench_of, IsWorker};

    ghost view = { bench_of };

    ghost invariant = { IsWorker };
}

fn turn_of(job: &Job) -> Turn
    ensures { result ≡ turn_of job.now }
{
    match job {
        Job::Stop { .. } => Turn::Stopped,
        Job::Link { .. } | Job::Write { .. } => Turn::Did,
        Job::Pin { .. } | Job::Unpin { .. } => Turn::Did,
    }
}

// The number stands still at the greatest u64.
fn events_with(events: u64, job: &Job) -> u64
    ensures { result ≡ events_with events job.now }
{
    match job {
        Job::Link { .. } => events.saturating_add(1),
        _ => events,
    }
}

fn is_stop(job: &Job) -> bool
    ensures { result ≡ is_stop job.now }
{
    matches!(job, Job::Stop { .. })
}

impl WorkerSeat {
    pub(crate) fn new(queue: Arc<Queue, Global>, pass: Pass, bells: Bells, desk: Desk) -> WorkerSeat
        requires pass { IsPassOf (arc_value queue) pass }
        requires role { (view pass).role ≡ roles.Worker }
        requires stands { DeskStands desk }
        requires rests { IsCaughtUp desk }
        ensures { result ≡ record {
          knows = view pass;
          work = settled desk;
          shown = desk.shelf.list;
          stays = None;
          events = 0;
          refusal = None;
          stopped = false;
          late = false;
        } }
    {
        WorkerSeat {
            queue,
            pass,
            bells,
            desk,
            stays: None,
            events: 0,
            refusal: None,
            pops: 0,
            stopped: false,
            late: false,
        }
    }

    /// How many events of the link were taken, so that a host can tell the link which of its events was refused; the count
    /// stands still at the greatest u64.
    pub fn events(&self) -> u64
        ensures { result ≡ self.now.events }
    {
        self.events
    }

    /// Why the event of the link was refused that the last turn took; none where it was not. Also a turn that found no memory
    /// to publish what came of it tells so.
    pub fn refusal(&self) -> Option<&Reason>
        ensures { option_copied result ≡ self.now.refusal }
    {
        self.refusal.as_ref()
    }

    /// The bell that rings after each push. Read its number before a turn, and wait past it where the turn found no job.
    pub fn jobs(&self) -> &Bell {
        &self.bells.jobs
    }

    // All that is due is published.
    fn catch_up<R: Wait>(&mut self, rt: &R) -> Result<(), NoMemory>
        ensures ok { OnOk result (self.new
            ≡ record self.old { shown = self.old.work.shelf.list; late = false }) }
        ensures err { OnErr result (StaysLate self.old self.new) }
    {
        if self.late {
            self.desk.owe(&self.bells.copies);
            self.desk.settle(rt)?;
            self.late = false;
            self.bells.copies.ring_owed(rt);
        }
        Ok(())
    }

    // A job that stayed, or else the next one.
    fn take_up<R: Wait, G: Gate>(&mut self, rt: &R, gate: &mut G) -> Option<Job>
        ensures some { IfSome result (λ job. TakesUp self.old.stays self.old.knows job
            self.new.knows × IsTrue (is_fit job)) }
        ensures none { IfNone result ((self.old.stays ≡ None) × (self.new ≡ self.old)
            × Holds self.old.knows []) }
        ensures same { self.new ≡ record self.old { knows = self.new.knows; stays = None } }
    {
        if let Some(job) = self.stays.take() {
            return Some(job);
        }
        let job = self.queue.pop(rt, &mut self.pass)?;
        self.pops = self.pops.saturating_add(1);
        gate.before(self.pops);
        Some(job)
    }

    // Does a job. Without memory it stays, or what is to be published of it is due.
    fn work<L: Ledger, R: Wait, Q: Quorum, C: Clock>(
        &mut self,
        rt: &R,
        quorum: &mut Q,
        clock: &mut C,
        job: Job,
        blank: Blank,
    ) -> Result<Turn, NoMemory>
        requires name { blank.name ≡ L.name }
        requires parts { blank.parts ≡ L.parts }
        requires some { 0 < L.parts }
        requires fit { IsTrue (is_fit job) }
        requires late { self.old.late ≡ false }
        ensures done { IfOk result (λ turn. IsTurnOf (outside Q.pieces Q.faults C.asks C.last
            quorum.old quorum.new clock.old clock.new) self.old self.new job turn) }
        ensures late { OnErr result (IsDoneLate (outside Q.pieces Q.faults C.asks C.last
            quorum.old quorum.new clock.old clock.new) self.old self.new job) }
    {
        let turn = turn_of(&job);
        let stops = is_stop(&job);
        let events = events_with(self.events, &job);
        let mut steps: Steps<L> = Steps::new(blank);
        match self.desk.do_job(quorum, clock, job, &mut steps) {
            Ok(refusal) => {
                self.events = events;
                self.refusal = refusal;
                self.stopped = stops;
                self.late = true;
            }
            Err(job) => {
                self.stays = Some(job);
                return Err(NoMemory);
            }
        }
        self.catch_up(rt)?;
        Ok(turn)
    }

    /// Takes the next job and does it: an event of the link or a client's write is a step of the engine, what the step appends
    /// goes to the quorum, what is below the closed end is published, and behind it an answer for each write that ends. Where an append
    /// failed, the leadership is lost in the same turn. Idle only where the queue was empty; after a stop each turn is
    /// Stopped. Without memory for the step the engine is as it was and the job stays, for the next turn; without memory to
    /// publish what came of a job the next turn begins with that.
    pub fn turn<R: Wait, G: Gate, Q: Quorum, C: Clock>(
        &mut self,
        rt: &R,
        gate: &mut G,
        quorum: &mut Q,
        clock: &mut C,
    ) -> Result<Turn, NoMemory>
        ensures turned { IfOk result (λ turn. Turned (outside Q.pieces Q.faults C.asks C.last
            quorum.old quorum.new clock.old clock.new) self.old self.new turn) }
        ensures late { OnErr result (IsLate (outside Q.pieces Q.faults C.asks C.last
            quorum.old quorum.new clock.old clock.new) self.old self.new) }
    {
        self.refusal = None;
        self.catch_up(rt)?;
        if self.stopped {
            return Ok(Turn::Stopped);
        }
        let Some(job) = self.take_up(rt, gate) else {
            return Ok(Turn::Idle);
        };
        self.work::<Brand, R, Q, C>(rt, quorum, clock, job, Blank::new(1))
    }

    /// Ends the seat. A client's seat that is used afterwards may get no copy.
    pub fn close<R: Wait>(self, rt: &R) {
        let WorkerSeat {
            queue: _queue,
            pass: _pass,
            bells: _bells,
            desk,
            stays: _stays,
            events: _events,
            refusal: _refusal,
            pops: _pops,
            stopped: _stopped,
            late: _late,
        } = self;
        desk.close(rt);
    }
}
