//! The room for the events that wait for the worker.

ghost use Rattle.std.specs.Prelude.{◌≡◌, List, [], ◌++◌, ◌∷◌, OnErr, OnOk, IsTrue};
ghost use Rattle.kr_flow.specs.declared.room.Waiting.{Waiting};
ghost use Rattle.kr_flow.specs.Rooms as rooms;

use kr_base::NoMemory;
use std::alloc::Global;
use std::collections::VecDeque;
use std::marker::Model;

/// How many bytes of events wait at most, unless a single one has more.
pub const MOST_WAITING_BYTES: u64 = 67_108_864;

/// Who an event is from.
#[derive(Clone, Copy, Debug, Drop, PartialEq, Eq)]
pub enum Origin {
    /// The quorum at the other end of the link, or of this process.
    Quorum,
    /// The daemon's own clock.
    Clock,
}

/// An event that waits.
#[derive(Clone, Copy, Debug, Drop, PartialEq, Eq)]
pub struct Waiting {
    /// Who it is from.
    pub origin: Origin,
    /// How many bytes it takes.
    pub bytes: u64,
}

/// The events that were pushed and not yet taken by the worker, with how many were taken so far.
#[derive(Drop)]
pub struct EventRoom {
    // In the order in which they were pushed.
    waiting: VecDeque<Waiting>,
    // How many bytes they take.
    bytes: u64,
    // How many were taken.
    taken: u64,
    // How many of those were the quorum's.
    of_quorum: u64,
}

impl Model for EventRoom {
    ghost use Rattle.std.specs.Prelude.{◌≡◌};
    ghost use Rattle.kr_flow.specs.Flows.{AreBounded, Flow, bytes_of};

    ghost Value = { Flow };

    ghost view = { λ s. record {
      waiting = s.waiting.items;
      taken = s.taken;
      of_quorum = s.of_quorum;
    } };

    ghost invariant = { λ s. (s.bytes ≡ bytes_of s.waiting.items) × AreBounded s.waiting.items };
}

fn is_of_quorum(waiting: &Waiting) -> bool
    ensures { result ≡ rooms.is_of_quorum waiting.now }
{
    match waiting.origin {
        Origin::Quorum => true,
        Origin::Clock => false,
    }
}

impl EventRoom {
    /// A room in which nothing waits, of a worker that took nothing.
    pub fn new(alloc: Global) -> EventRoom
        ensures { result ≡ record { waiting = []; taken = 0; of_quorum = 0 } }
    {
        EventRoom {
            waiting: VecDeque::new(alloc),
            bytes: 0,
            taken: 0,
            of_quorum: 0,
        }
    }

    /// An event of so many bytes has room: it is within the most with all that wait, or nothing waits.
    pub fn has_room(&self, bytes: u64) -> bool
        ensures { result ≡ rooms.has_room_for self.now.waiting bytes }
    {
        self.waiting.is_empty()
            || u128::from(self.bytes) + u128::from(bytes) <= u128::from(MOST_WAITING_BYTES)
    }

    /// How many events the worker took; the count stands still at the greatest u64.
    pub fn taken(&self) -> u64
        ensures { result ≡ self.now.taken }
    {
        self.taken
    }

    /// How many of those were the quorum's, which is the number of the last one of them among its own events.
    pub fn of_quorum(&self) -> u64
        ensures { result ≡ self.now.of_quorum }
    {
        self.of_quorum
    }

    /// One more waits, behind all others.
    #[tactic(auto, using(crate::proofs::Waits::more_is_bounded))]
    pub fn enter(&mut self, event: Waiting) -> Result<(), NoMemory>
        requires { IsTrue (rooms.has_room_for self.old.waiting event.bytes) }
        ensures ok { OnOk result (self.new
            ≡ record self.old { waiting = self.old.waiting ++ event ∷ [] }) }
        ensures err { OnErr result (self.new ≡ self.old) }
    {
        let bytes = event.bytes;
        self.waiting.push_back(event)?;
        self.bytes += bytes;
        Ok(())
    }

    /// The one that entered last, which couldn't be pushed, waits no more.
    #[tactic(auto, using(crate::proofs::Waits::front_is_bounded))]
    pub fn cancel(&mut self)
        ensures { (before : List Waiting) (event : Waiting)
            → self.old.waiting ≡ before ++ event ∷ []
            → self.new ≡ record self.old { waiting = before } }
    {
        if let Some(last) = self.waiting.pop_back() {
            self.bytes -= last.bytes;
        }
    }

    /// The worker has taken so many events in all, at most one more than before: where it is one more, the one that waited
    /// longest is taken, and is answered.
    #[tactic(auto, using(crate::proofs::Waits::rest_is_bounded, crate::proofs::Waits::not_more, crate::proofs::Waits::none_first, crate::proofs::Waits::one_more_taken, crate::proofs::Waits::one_first, crate::proofs::Waits::none_waits, crate::proofs::Waits::none_waits_first))]
    pub fn note(&mut self, events: u64) -> Option<Waiting>
        ensures first { result ≡ rooms.noted_first self.old events }
        ensures rest { self.new ≡ rooms.room_noted self.old events }
    {
        if events <= self.taken {
            return None;
        }
        let first = self.waiting.pop_front()?;
        self.bytes -= first.bytes;
        self.taken = self.taken.saturating_add(1);
        if is_of_quorum(&first) {
            self.of_quorum = self.of_quorum.saturating_add(1);
        }
        Some(first)
    }
}
