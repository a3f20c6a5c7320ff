//! The seats of clients.

ghost use Rattle.std.specs.Prelude.{◌≡◌, ◌++◌, ◌∷◌, not, [], Some, IfOk, IfErr, IfSome, OnOk, OnErr, IsTrue, MatchResult};
ghost use Rattle.std.specs.Arc.{arc_value};
ghost use Rattle.kr_base.specs.Causes.{raised};
ghost use Rattle.kr_shared.specs.declared.clients.SubmitFault.TheVariants as faults;
ghost use Rattle.kr_calls.specs.Decide.{is_read, query};
ghost use Rattle.kr_calls.specs.SeatList.{IsClosedList, end_of, image_of};
ghost use Rattle.kr_queue.specs.declared.passes.Role.TheVariants as roles;
ghost use Rattle.kr_queue.specs.Jobs.{may_push};
ghost use Rattle.kr_queue.specs.Passes.{view, IsPassOf};
ghost use Rattle.kr_queue.specs.QueueRule.{a_pass};
ghost use Rattle.kr_view.specs.Seats.{Onward};
ghost use Rattle.kr_shared.specs.Clients.{HasReadCause, MayRise, job_of_call, with_next_job};
ghost use Rattle.kr_shared.specs.Ends.{Ends, EndsBare};
ghost use Rattle.kr_shared.specs.Submit.{IsAnswered, IsSubmitCause, Pushed, PushedAtFault};

use crate::bell::{Bell, SeatBells};
use crate::places::Places;
use kr_base::{NoMemory, Shared};
use kr_calls::{Answer, AnswerKind, Answered, Call, Reply, SeatEntry};
use kr_defs::Rows;
use kr_defs::limits::GREATEST_TIP;
use kr_queue::{Job, Pass, Queue};
use kr_repeat::{same_call, write_again};
use kr_view::{CopyFault, Look, ReaderSeat};
use std::alloc::Global;
use std::marker::Model;
use std::sync::{Arc, Wait};
use std::thread;

/// Why a write has no answer.
#[derive(Clone, Copy, Debug, Drop, PartialEq, Eq)]
pub enum SubmitFault {
    /// The worker stops.
    Ended {
        /// Which stop it is.
        number: u64,
    },
    /// The client has seen more of the log than this controller has.
    Ahead {
        /// The place up to which the client had seen it.
        floor: i64,
        /// The end of this controller's log.
        tip: i64,
    },
    /// The log takes no more.
    Exhausted {
        /// The end of the log.
        tip: i64,
    },
    /// There was no memory.
    NoMemory,
}

/// The seats of the clients: number 1, number 2 and so on.
pub type ClientSeats = Rows<ClientSeat>;

// An answer to another call, or below another place, is none.
fn is_to(answered: &Answered, floor: &i64, call: &Call) -> bool
    ensures { IsTrue result → (answered.now.floor ≡ floor.now) × (answered.now.call ≡ call.now) }
{
    answered.floor == *floor && same_call(&answered.call, call)
}

// What an answer says to the call: how it ends, or nothing, where it isn't this call's.
fn end_of_call(
    answer: &Answer,
    floor: &i64,
    call: &Call,
) -> Option<Result<Shared<Answered>, SubmitFault>>
    ensures { IfSome result (λ end. Ends answer.now floor.now call.now end) }
{
    match &answer.answered {
        Some(answered) => {
            if is_to(answered.get(), floor, call) {
                Some(once_more(answered))
            } else {
                None
            }
        }
        None => bare_ending(answer.kind, &answer.place, floor),
    }
}

fn once_more(answered: &Shared<Answered>) -> Result<Shared<Answered>, SubmitFault>
    ensures ok { IfOk result (λ a. a ≡ answered.now) }
    ensures err { IfErr result (λ fault. fault ≡ faults.NoMemory) }
{
    match answered.again() {
        Ok(again) => Ok(again),
        Err(_) => Err(SubmitFault::NoMemory),
    }
}

// Where nothing was decided, the place shows why.
fn bare_ending(
    kind: AnswerKind,
    tip: &i64,
    floor: &i64,
) -> Option<Result<Shared<Answered>, SubmitFault>>
    ensures { IfSome result (λ end. EndsBare kind tip.now floor.now end) }
{
    match kind {
        AnswerKind::Ahead => {
            if *tip < *floor {
                Some(Err(SubmitFault::Ahead {
                    floor: *floor,
                    tip: *tip,
                }))
            } else {
                None
            }
        }
        AnswerKind::Exhausted => {
            if GREATEST_TIP < *tip {
                Some(Err(SubmitFault::Exhausted { tip: *tip }))
            } else {
                None
            }
        }
        AnswerKind::Stands | AnswerKind::Lost => None,
    }
}

// Looks until the answer to this call is found, or a stop is there.
#[tactic(auto, using(crate::proofs::Onwards::onward_refl, crate::proofs::Onwards::onward_trans, crate::proofs::Ends::ends_found, crate::proofs::Misses::stays, crate::proofs::Misses::looked_on))]
fn wait_for<R: Wait>(
    rt: &R,
    bells: &SeatBells,
    reader: &mut ReaderSeat,
    ticket: u64,
    floor: &i64,
    call: &Call,
) -> Result<Shared<Answered>, SubmitFault>
    ensures same { reader.new.number ≡ reader.old.number }
    ensures onward { Onward reader.old.seen reader.new.seen }
    ensures ok { IfOk result (λ a. IsAnswered reader.new.seen reader.old.number ticket floor.now
        call.now a) }
    ensures err { IfErr result (λ fault. IsSubmitCause reader.new.seen reader.old.number ticket
        floor.now fault) }
    ensures misses { MayRise reader.old.misses reader.new.misses }
{
    let seat = reader.number();
    for _ in rt.forever() {
        let seen = bells.number(rt, seat);
        match reader.look(ticket) {
            Ok(
                Look::Found {
                    entry: SeatEntry::Answer { answer },
                },
            ) => match end_of_call(&answer, floor, call) {
                Some(end) => return end,
                None => bells.wait_past(rt, seat, seen),
            },
            Ok(Look::Found { .. }) => bells.wait_past(rt, seat, seen),
            Ok(Look::Stopped { number }) => return Err(SubmitFault::Ended { number }),
            Ok(Look::NotYet) => bells.wait_past(rt, seat, seen),
            Err(CopyFault::NoMemory) => return Err(SubmitFault::NoMemory),
            Err(CopyFault::NoCopy) => thread::yield_now(),
        }
    }
    unreachable!()
}

/// The seat of one client. A clause sees its number, what it has seen, how often it got no copy, the number of its last
/// call, what it pushed, and the places that it holds.
#[derive(Drop)]
pub struct ClientSeat {
    // Where memory comes from.
    alloc: Global,
    // Where jobs are pushed.
    queue: Arc<Queue, Global>,
    // The right to push them.
    pass: Pass,
    // Rung at each push, for the worker.
    jobs: Arc<Bell, Global>,
    // Rung by the worker when it has published what a seat is told.
    pub(crate) copies: Arc<SeatBells, Global>,
    // The shown copies.
    pub(crate) reader: ReaderSeat,
    // The number of the last write, pin or unpin.
    pub(crate) ticket: u64,
    // The places that the seat holds.
    pub(crate) held: Places,
}

impl Model for ClientSeat {
    ghost use Rattle.kr_shared.specs.Clients.{Client};

    ghost Value = { Client };

    ghost use Rattle.kr_shared.specs.ClientFields.{client_of, IsClientSeat};

    ghost view = { client_of };

    ghost invariant = { IsClientSeat };
}

// The bells of a worker and its clients: of what was pushed, and of what each was told.
#[derive(Drop)]
pub(crate) struct Bells {
    pub jobs: Arc<Bell, Global>,
    pub copies: Arc<SeatBells, Global>,
}

impl Bells {
    pub(crate) fn new(alloc: Global, clients: u32) -> Result<Bells, NoMemory> {
        Ok(Bells {
            jobs: Arc::new(alloc, Bell::new())?,
            copies: Arc::new(alloc, SeatBells::new(alloc, clients)?)?,
        })
    }

    pub(crate) fn again(&self) -> Result<Bells, NoMemory> {
        Ok(Bells {
            jobs: Arc::try_clone(&self.jobs)?,
            copies: Arc::try_clone(&self.copies)?,
        })
    }
}

impl ClientSeat {
    pub(crate) fn new(
        alloc: Global,
        queue: Arc<Queue, Global>,
        pass: Pass,
        reader: ReaderSeat,
        bells: Bells,
        held: Places,
    ) -> ClientSeat
        requires pass { IsPassOf (arc_value queue) pass }
        requires new { view pass ≡ a_pass (roles.Client reader.number) 0 }
        requires none { held ≡ [] }
        ensures { result ≡ record {
          number = reader.number;
          seen = reader.seen;
          misses = reader.misses;
          ticket = 0;
          pushed = [];
          held = [];
        } }
    {
        let Bells { jobs, copies } = bells;
        ClientSeat {
            alloc,
            queue,
            pass,
            jobs,
            copies,
            reader,
            ticket: 0,
            held,
        }
    }

    /// The seat's number, from 1.
    pub fn number(&self) -> u32
        ensures { result ≡ self.now.number }
    {
        self.reader.number()
    }

    /// How often the seat got no copy; the count stands still at the greatest u64.
    pub fn misses(&self) -> u64
        ensures { result ≡ self.now.misses }
    {
        self.reader.misses()
    }

    /// The reply to a read on the image of all that is published, where no transaction is open. It waits for nobody. NoCopy
    /// only where the seat got no copy, and then nothing but the count has changed.
    pub fn read(&mut self, call: &Call) -> Result<Reply, CopyFault>
        requires { IsTrue (is_read call.now.request) }
        ensures onward { Onward self.old.seen self.new.seen }
        ensures closed { OnOk result (IsClosedList self.new.seen.list) }
        ensures reply { IfOk result (λ reply. query self.new.seen.options
            (image_of self.new.seen.list) call.now.request ≡ Some reply) }
        ensures cause { HasReadCause self.old self.new result }
        ensures same { self.new ≡ record self.old {
          seen = self.new.seen;
          misses = self.new.misses;
        } }
    {
        self.reader.read(call)
    }

    // Pushes a job, which has the seat's number.
    pub(crate) fn push<R: Wait>(&mut self, rt: &R, job: Job) -> Result<(), NoMemory>
        requires job { IsTrue (may_push (roles.Client self.old.number) job) }
        ensures ok { OnOk result (self.new
            ≡ record self.old { pushed = self.old.pushed ++ job ∷ [] }) }
        ensures err { OnErr result (self.new ≡ self.old) }
    {
        match self.queue.push(rt, &mut self.pass, job) {
            Ok(()) => {
                self.jobs.ring(rt);
                Ok(())
            }
            Err(_) => Err(NoMemory),
        }
    }

    // Pushes the write of the next call.
    fn ask<R: Wait>(&mut self, rt: &R, call: &Call, floor: &i64) -> Result<(), NoMemory>
        requires write { IsTrue (not (is_read call.now.request)) }
        requires floor { floor.now ≡ end_of self.old.seen.list }
        ensures ok { OnOk result (self.new ≡ with_next_job self.old
            (job_of_call self.old (raised self.old.ticket) call.now)) }
        ensures err { OnErr result (self.new
            ≡ record self.old { ticket = raised self.old.ticket }) }
    {
        self.ticket = self.ticket.saturating_add(1);
        let call = write_again(call, self.alloc)?;
        let job = Job::Write {
            seat: self.reader.number(),
            ticket: self.ticket,
            floor: *floor,
            call,
        };
        self.push(rt, job)
    }

    /// Writes, and waits for the answer: what was decided on a place that isn't below the end of all that the seat had seen,
    /// once its records stand in the list that the seat then holds; or Kafka's NOT_CONTROLLER, where the leadership was lost
    /// before. Ended where the worker stops, Ahead where the seat has seen more of the log than this controller has, and
    /// Exhausted where the log takes no more. However it ends, the seat holds the places that it held.
    #[tactic(auto, using(crate::proofs::Onwards::onward_refl, crate::proofs::Misses::stays))]
    pub fn submit<R: Wait>(&mut self, rt: &R, call: &Call) -> Result<Shared<Answered>, SubmitFault>
        requires { IsTrue (not (is_read call.now.request)) }
        ensures onward { Onward self.old.seen self.new.seen }
        ensures answered { IfOk result (λ a. IsAnswered self.new.seen self.old.number
            self.new.ticket (end_of self.old.seen.list) call.now a) }
        ensures cause { IfErr result (λ fault. IsSubmitCause self.new.seen self.old.number
            self.new.ticket (end_of self.old.seen.list) fault) }
        ensures pushed { MatchResult result (λ a. Pushed self.old self.new call.now)
            (λ fault. PushedAtFault self.old self.new call.now fault) }
        ensures number { self.new.number ≡ self.old.number }
        ensures ticket { self.new.ticket ≡ raised self.old.ticket }
        ensures misses { MayRise self.old.misses self.new.misses }
        ensures held { self.new.held ≡ self.old.held }
    {
        let floor = self.reader.end();
        if self.ask(rt, call, &floor).is_err() {
            return Err(SubmitFault::NoMemory);
        }
        let ticket = self.ticket;
        wait_for(rt, &self.copies, &mut self.reader, ticket, &floor, call)
    }
}
