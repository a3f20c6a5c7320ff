//! The places of the log that a client's seat holds.

ghost use Rattle.std.specs.Prelude.{◌≡◌, ◌<◌, ◌≤◌, length, IfOk, IfErr, IfSome, IsTrue, OnErr, OnOk, MatchResult};
ghost use Rattle.kr_base.specs.Causes.{raised};
ghost use Rattle.kr_calls.specs.SeatList.{end_of};
ghost use Rattle.kr_queue.specs.declared.passes.Role.TheVariants as roles;
ghost use Rattle.kr_queue.specs.Jobs.{may_push};
ghost use Rattle.kr_view.specs.Seats.{Onward};
ghost use Rattle.kr_shared.specs.Clients.{MayRise, with_next_job};
ghost use Rattle.kr_shared.specs.declared.pins.Wanted.TheVariants as wants;
ghost use Rattle.kr_shared.specs.declared.places.TheConstants.{MOST_PLACES};
ghost use Rattle.kr_shared.specs.HeldPlaces.{with_place, without_place};
ghost use Rattle.kr_shared.specs.Grants.{EndsAhead, EndsPlace, IsGranted, IsKeptFrom, IsPinCause, IsPlaceCause, PushedPlace, PushedPlaceAtFault, job_of_wanted, pin_at};

use crate::bell::SeatBells;
use crate::clients::{ClientSeat, SubmitFault};
use crate::places::MOST_PLACES;
use kr_base::NoMemory;
use kr_calls::{Answer, AnswerKind, SeatEntry};
use kr_queue::Job;
use kr_view::{CopyFault, Look, ReaderSeat};
use std::sync::Wait;
use std::thread;

/// Why no place is pinned.
#[derive(Clone, Copy, Debug, Drop, PartialEq, Eq)]
pub enum PinFault {
    /// The seat holds as many places as it may.
    Pins {
        /// So many.
        held: u32,
    },
    /// The worker didn't pin it.
    Submit(SubmitFault),
}

/// What a seat asks for.
#[derive(Clone, Copy, Drop)]
pub(crate) enum Wanted {
    /// That the closed end is kept.
    Pin,
    /// That the place is kept no more.
    Unpin { place: i64 },
}

// Where nothing is granted, the answer shows why: the seat has seen more of the log than there is.
fn end_of_answer(answer: &Answer, floor: &i64) -> Option<Result<i64, SubmitFault>>
    ensures { IfSome result (λ end. EndsAhead answer.now floor.now end) }
{
    match answer.kind {
        AnswerKind::Ahead => {
            if answer.place < *floor {
                Some(Err(SubmitFault::Ahead {
                    floor: *floor,
                    tip: answer.place,
                }))
            } else {
                None
            }
        }
        _ => None,
    }
}

// A pin below what the seat had seen is none of this call, nor is an unpin of another place.
fn end_of_place(entry: &SeatEntry, floor: &i64, wanted: &Wanted) -> Option<Result<i64, SubmitFault>>
    ensures { IfSome result (λ end. EndsPlace entry.now wanted.now floor.now end) }
{
    match (entry, wanted) {
        (SeatEntry::Answer { answer }, _) => end_of_answer(answer, floor),
        (SeatEntry::Pin { pin }, Wanted::Pin) => {
            if pin.place < *floor {
                None
            } else {
                Some(Ok(pin.place))
            }
        }
        (SeatEntry::Unpin { pin }, Wanted::Unpin { place }) => {
            if pin.place == *place {
                Some(Ok(*place))
            } else {
                None
            }
        }
        _ => None,
    }
}

// Looks until what was asked for is granted, or it is found why not.
#[tactic(auto, using(crate::proofs::Onwards::onward_refl, crate::proofs::Onwards::onward_trans, crate::proofs::PinnedPlaces::places_found, crate::proofs::Misses::stays, crate::proofs::Misses::looked_on))]
fn wait_for<R: Wait>(
    rt: &R,
    bells: &SeatBells,
    reader: &mut ReaderSeat,
    ticket: u64,
    floor: &i64,
    wanted: &Wanted,
) -> Result<i64, SubmitFault>
    ensures same { reader.new.number ≡ reader.old.number }
    ensures onward { Onward reader.old.seen reader.new.seen }
    ensures ok { IfOk result (λ place. IsGranted reader.new.seen reader.old.number ticket
        floor.now wanted.now place) }
    ensures err { IfErr result (λ fault. IsPlaceCause reader.new.seen reader.old.number ticket
        floor.now fault) }
    ensures misses { MayRise reader.old.misses reader.new.misses }
{
    let seat = reader.number();
    for _ in rt.forever() {
        let seen = bells.number(rt, seat);
        match reader.look(ticket) {
            Ok(Look::Found { entry }) => match end_of_place(&entry, floor, wanted) {
                Some(end) => return end,
                None => bells.wait_past(rt, seat, seen),
            },
            Ok(Look::Stopped { number }) => return Err(SubmitFault::Ended { number }),
            Ok(Look::NotYet) => bells.wait_past(rt, seat, seen),
            Err(CopyFault::NoMemory) => return Err(SubmitFault::NoMemory),
            Err(CopyFault::NoCopy) => thread::yield_now(),
        }
    }
    unreachable!()
}

fn job_of(seat: u32, ticket: u64, floor: &i64, wanted: &Wanted) -> Job
    ensures job { result ≡ job_of_wanted seat ticket floor.now wanted.now }
    ensures fit { IsTrue (may_push (roles.Client seat) result) }
{
    let floor = *floor;
    match wanted {
        Wanted::Pin => Job::Pin {
            seat,
            ticket,
            floor,
        },
        Wanted::Unpin { place } => Job::Unpin {
            seat,
            ticket,
            floor,
            place: *place,
        },
    }
}

impl ClientSeat {
    /// How many places the seat holds. It takes no memory.
    pub fn pins(&self) -> u32
        ensures value { result ≡ length self.now.held }
        ensures few { result ≤ MOST_PLACES }
    {
        self.held.len()
    }

    // Pushes what the next call wants.
    fn ask_for<R: Wait>(&mut self, rt: &R, wanted: &Wanted, floor: &i64) -> Result<(), NoMemory>
        ensures ok { OnOk result (self.new ≡ with_next_job self.old
            (job_of_wanted self.old.number (raised self.old.ticket) floor.now wanted.now)) }
        ensures err { OnErr result (self.new
            ≡ record self.old { ticket = raised self.old.ticket }) }
    {
        self.ticket = self.ticket.saturating_add(1);
        let job = job_of(self.reader.number(), self.ticket, floor, wanted);
        self.push(rt, job)
    }

    // Asks for a place, and waits for it.
    #[tactic(auto, using(crate::proofs::Onwards::onward_refl, crate::proofs::Misses::stays))]
    fn want<R: Wait>(&mut self, rt: &R, wanted: &Wanted) -> Result<i64, SubmitFault>
        ensures onward { Onward self.old.seen self.new.seen }
        ensures granted { IfOk result (λ place. IsGranted self.new.seen self.old.number
            self.new.ticket (end_of self.old.seen.list) wanted.now place) }
        ensures cause { IfErr result (λ fault. IsPlaceCause self.new.seen self.old.number
            self.new.ticket (end_of self.old.seen.list) fault) }
        ensures pushed { MatchResult result (λ place. PushedPlace self.old self.new wanted.now)
            (λ fault. PushedPlaceAtFault self.old self.new wanted.now fault) }
        ensures number { self.new.number ≡ self.old.number }
        ensures ticket { self.new.ticket ≡ raised self.old.ticket }
        ensures misses { MayRise self.old.misses self.new.misses }
        ensures held { self.new.held ≡ self.old.held }
    {
        let floor = self.reader.end();
        if self.ask_for(rt, wanted, &floor).is_err() {
            return Err(SubmitFault::NoMemory);
        }
        let ticket = self.ticket;
        wait_for(rt, &self.copies, &mut self.reader, ticket, &floor, wanted)
    }

    /// Pins the closed end, and waits for it: a place that isn't below the end of all that the seat had seen. The images at
    /// the places that a seat holds are kept, until it unpins them or an image comes in place of the log. It holds at most 16.
    #[tactic(auto, using(crate::proofs::PinnedPlaces::kept_from))]
    pub fn pin<R: Wait>(&mut self, rt: &R) -> Result<i64, PinFault>
        ensures onward { Onward self.old.seen self.new.seen }
        ensures granted { IfOk result (λ place. IsGranted self.new.seen self.old.number
            self.new.ticket (end_of self.old.seen.list) wants.Pin place) }
        ensures kept { IfOk result (λ place. IsKeptFrom self.new.seen.list
            (pin_at self.old.number self.new.ticket place)) }
        ensures held { IfOk result (λ place. self.new.held ≡ with_place self.old.held place) }
        ensures few { IfOk result (λ place. length self.old.held < MOST_PLACES) }
        ensures pushed { IfOk result (λ place. PushedPlace self.old self.new wants.Pin) }
        ensures ticket { IfOk result (λ place. self.new.ticket ≡ raised self.old.ticket) }
        ensures cause { IfErr result (λ fault. IsPinCause self.old self.new fault) }
        ensures number { self.new.number ≡ self.old.number }
        ensures misses { MayRise self.old.misses self.new.misses }
    {
        let held = self.pins();
        if MOST_PLACES <= held {
            return Err(PinFault::Pins { held });
        }
        match self.want(rt, &Wanted::Pin) {
            Ok(place) => {
                self.held.add(&place);
                Ok(place)
            }
            Err(fault) => Err(PinFault::Submit(fault)),
        }
    }

    /// Gives back a place. Without effect on one that the seat doesn't hold.
    pub fn unpin<R: Wait>(&mut self, rt: &R, place: i64) -> Result<(), SubmitFault>
        ensures onward { Onward self.old.seen self.new.seen }
        ensures granted { OnOk result (IsGranted self.new.seen self.old.number
            self.new.ticket (end_of self.old.seen.list) (wants.Unpin place) place) }
        ensures held { OnOk result (self.new.held ≡ without_place self.old.held place) }
        ensures same { OnErr result (self.new.held ≡ self.old.held) }
        ensures cause { IfErr result (λ fault. IsPlaceCause self.new.seen self.old.number
            self.new.ticket (end_of self.old.seen.list) fault) }
        ensures pushed { MatchResult result (λ r. PushedPlace self.old self.new (wants.Unpin place))
            (λ fault. PushedPlaceAtFault self.old self.new (wants.Unpin place) fault) }
        ensures number { self.new.number ≡ self.old.number }
        ensures ticket { self.new.ticket ≡ raised self.old.ticket }
        ensures misses { MayRise self.old.misses self.new.misses }
    {
        self.want(rt, &Wanted::Unpin { place })?;
        self.held.remove(&place);
        Ok(())
    }
}
