//! The places of the log that one seat holds, each once.

ghost use Rattle.std.specs.Prelude.{◌≡◌, ◌<◌, ◌≤◌, [], length, IfOk};
ghost use Rattle.kr_shared.specs.declared.places.TheConstants.{MOST_PLACES};
ghost use Rattle.kr_shared.specs.HeldPlaces.{with_place, without_place};

use kr_base::NoMemory;
use std::alloc::Global;
use std::marker::Model;

/// How many places a seat holds at most.
pub const MOST_PLACES: u32 = 16;

/// Places of the log, in the order in which they came. There is room for as many as a seat may hold.
#[derive(Drop)]
pub(crate) struct Places {
    list: Vec<i64>,
}

impl Model for Places {
    ghost use Rattle.std.specs.Prelude.{List, ℤ, ◌≤◌, length, vec_capacity};
    ghost use Rattle.kr_shared.specs.declared.places.TheConstants.{MOST_PLACES};

    ghost Value = { List ℤ };

    ghost view = { λ p. p.list.items };

    ghost invariant = { λ p. (length p.list.items ≤ MOST_PLACES)
        × (MOST_PLACES ≤ vec_capacity p.list) };
}

impl Places {
    /// No place, with room for as many as a seat may hold.
    pub(crate) fn with_room(alloc: Global) -> Result<Places, NoMemory>
        ensures { IfOk result (λ places. places ≡ []) }
    {
        Ok(Places {
            list: Vec::with_capacity(alloc, MOST_PLACES as usize)?,
        })
    }

    /// How many there are.
    pub(crate) fn len(&self) -> u32
        ensures value { result ≡ length self.now }
        ensures few { result ≤ MOST_PLACES }
    {
        self.list.len() as u32
    }

    /// One more, if it isn't there.
    pub(crate) fn add(&mut self, place: &i64)
        requires { length self.old < MOST_PLACES }
        ensures { self.new ≡ with_place self.old place.now }
    {
        if !self.list.as_slice().contains(place) {
            self.list.push_reserved(*place);
        }
    }

    /// Without this one.
    pub(crate) fn remove(&mut self, place: &i64)
        ensures { self.new ≡ without_place self.old place.now }
    {
        self.list.retain(|held| *held != *place);
    }
}
