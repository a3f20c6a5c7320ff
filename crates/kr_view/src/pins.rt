//! The pins of a copy.

ghost use Rattle.std.specs.Prelude.{◌≡◌, ◌∷◌, ◌++◌, [], OnOk, OnErr, filter, fold, not};
ghost use Rattle.std.specs.List.{list_any};
ghost use Rattle.std.specs.Ordering.{int_eq};
ghost use Rattle.kr_calls.specs.SeatList.{is_pinned, is_same_pin, lower};

use kr_base::NoMemory;
use kr_calls::Pin;
use std::alloc::Global;
use std::marker::Model;

/// The pins, in the order of their places.
#[derive(Drop)]
pub(crate) struct Pins {
    list: Vec<Pin>,
}

impl Model for Pins {
    ghost use Rattle.std.specs.Prelude.{List};
    ghost use Rattle.kr_calls.specs.declared.pins.Pin.{Pin as AnyPin};

    ghost Value = { List AnyPin };

    ghost view = { λ s. s.list.items };
}

// Of one seat, and of one place.
fn is_same(pin: &Pin, other: &Pin) -> bool
    ensures { result ≡ is_same_pin pin.now other.now }
{
    pin.seat == other.seat && pin.place == other.place
}

fn is_at(pin: &Pin, place: &i64) -> bool
    ensures { result ≡ int_eq pin.now.place place.now }
{
    pin.place == *place
}

// The lower one of the place and that of the pin.
fn lower(place: &i64, pin: &Pin) -> i64
    ensures { result ≡ lower place.now pin.now }
{
    if pin.place < *place {
        pin.place
    } else {
        *place
    }
}

impl Pins {
    pub(crate) fn new(alloc: Global) -> Pins
        ensures { result ≡ [] }
    {
        Pins {
            list: Vec::new(alloc),
        }
    }

    pub(crate) fn has(&self, pin: &Pin) -> bool
        ensures { result ≡ is_pinned self.now pin.now }
    {
        self.list.iter().any(|other| is_same(pin, other))
    }

    /// One of them is of the place.
    pub(crate) fn has_place(&self, place: &i64) -> bool
        ensures { result ≡ list_any (λ pin. int_eq pin.place place.now) self.now }
    {
        self.list.iter().any(|pin| is_at(pin, place))
    }

    /// Without memory nothing changes.
    pub(crate) fn push(&mut self, pin: &Pin) -> Result<(), NoMemory>
        ensures ok { OnOk result (self.new ≡ self.old ++ pin.now ∷ []) }
        ensures err { OnErr result (self.new ≡ self.old) }
    {
        self.list.push(*pin)?;
        Ok(())
    }

    /// Takes out the seat's pin of the place.
    pub(crate) fn remove(&mut self, pin: &Pin)
        ensures { self.new ≡ filter (λ other. not (is_same_pin pin.now other)) self.old }
    {
        self.list.retain(|other| !is_same(pin, other));
    }

    /// The oldest of their places and the end.
    pub(crate) fn oldest(&self, end: &i64) -> i64
        ensures { result ≡ fold lower end.now self.now }
    {
        let mut oldest = *end;
        let pins = self.list.as_slice();
        for pin in pins {
            oldest = lower(&oldest, pin);
        }
        oldest
    }
}
