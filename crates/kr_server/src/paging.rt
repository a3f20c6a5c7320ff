//! The place of the log that a connection holds for the pages of a walk.

ghost use Rattle.std.specs.Prelude.{◌≡◌, ◌<◌, length, None, IfErr, IfOk, IfSome, Some};
ghost use Rattle.kr_shared.specs.declared.places.TheConstants.{MOST_PLACES};
ghost use Rattle.kr_shared.specs.Grants.{pin_at};
ghost use Rattle.kr_server.specs.PagingCalls.{IsPlaceRefused, PinsOne, Unpins};
ghost use Rattle.kr_server.specs.inner.Paging.{GaveBack, HasPlaceLeft, KeepsPlaces, Renewed, TookOne};

use kr_shared::{ClientSeat, PinFault, SubmitFault};
use std::sync::Wait;

/// The place that a connection holds, if it does.
#[derive(Drop)]
pub(crate) struct Paging {
    /// The place.
    pub held: Option<i64>,
}

// Pins the closed end.
fn pin_end<R: Wait>(rt: &R, seat: &mut ClientSeat) -> Result<i64, SubmitFault>
    requires { length seat.old.held < MOST_PLACES }
    ensures pinned { IfOk result (λ place. PinsOne seat.old seat.new
        (pin_at seat.old.number seat.new.ticket place)) }
    ensures refused { IfErr result (λ fault. IsPlaceRefused seat.old seat.new fault) }
{
    match seat.pin(rt) {
        Ok(place) => Ok(place),
        Err(PinFault::Submit(fault)) => Err(fault),
        Err(PinFault::Pins { .. }) => unreachable!(),
    }
}

// Gives a place back.
fn unpin<R: Wait>(rt: &R, seat: &mut ClientSeat, place: i64) -> Result<(), SubmitFault>
    ensures { Unpins seat.old seat.new place result }
{
    seat.unpin(rt, place)
}

impl Paging {
    /// No place is held.
    pub(crate) fn none() -> Paging
        ensures { result.held ≡ None }
    {
        Paging { held: None }
    }

    /// Gives back the place that is held, if one is.
    #[tactic(auto, using(crate::proofs::HeldPlaces::places))]
    pub(crate) fn let_go<R: Wait>(
        &mut self,
        rt: &R,
        seat: &mut ClientSeat,
    ) -> Result<(), SubmitFault>
        ensures gave { GaveBack self.old.held seat.old seat.new self.new.held result }
        ensures places { KeepsPlaces seat.old self.old.held seat.new self.new.held }
    {
        let Some(place) = self.held else {
            return Ok(());
        };
        unpin(rt, seat, place)?;
        self.held = None;
        Ok(())
    }

    // Holds the closed end.
    #[tactic(auto, using(crate::proofs::HeldPlaces::places))]
    fn take<R: Wait>(&mut self, rt: &R, seat: &mut ClientSeat) -> Result<i64, SubmitFault>
        requires none { self.old.held ≡ None }
        requires room { HasPlaceLeft seat.old.held self.old.held }
        ensures took { TookOne seat.old seat.new self.new.held result }
        ensures places { KeepsPlaces seat.old self.old.held seat.new self.new.held }
    {
        match pin_end(rt, seat) {
            Err(fault) => Err(fault),
            Ok(place) => {
                self.held = Some(place);
                Ok(place)
            }
        }
    }

    /// Holds the closed end, once the place that is held is given back.
    #[tactic(auto, using(crate::proofs::HeldPlaces::places, crate::proofs::Pages::renewing))]
    pub(crate) fn renew<R: Wait>(
        &mut self,
        rt: &R,
        seat: &mut ClientSeat,
    ) -> Result<i64, SubmitFault>
        requires { HasPlaceLeft seat.old.held self.old.held }
        ensures renewed { Renewed self.old.held seat.old seat.new self.new.held result }
        ensures places { KeepsPlaces seat.old self.old.held seat.new self.new.held }
    {
        match self.let_go(rt, seat) {
            Err(fault) => Err(fault),
            Ok(()) => self.take(rt, seat),
        }
    }
}
