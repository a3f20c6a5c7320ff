//! The pages of the description of topics that a client asks for: those of one walk are of one place, unless its pin is lost.

ghost use Rattle.std.specs.Prelude.{◌≡◌, Option, Some, IfErr, IfOk, OnOk};
ghost use Rattle.std.specs.Option.{is_some};
ghost use Rattle.kr_calls.specs.declared.pins.Pin.{Pin};
ghost use Rattle.kr_pages.specs.declared.describe.LineKey.{LineKey};
ghost use Rattle.kr_server.specs.SeatCalls.{AsksForPages, Holder, holder};
ghost use Rattle.kr_server.specs.inner.Paging.{Finished, HasPlaceLeft, HoldsNext, IsPlaceEnd, IsPinPlace, IsPageMade, IsNoPage, IsReadyFor, KeepsPlaces, PageRead, TriedOnce, fault_end};

use crate::end::{ServeEnd, refusal_end};
use crate::paging::Paging;
use kr_describe::{PageFault, page};
use kr_pages::{Describe, Described};
use kr_shared::{ClientSeat, SubmitFault};
use kr_view::ScanFault;
use std::alloc::Global;
use std::sync::Wait;

// What came of reading a page at a place.
#[derive(Drop)]
pub(crate) enum Tried {
    // It was made.
    Page(Described),
    // The pin is lost; another place is held now.
    Lost { place: i64 },
}

// The page at the place.
fn page_at(
    alloc: Global,
    seat: &mut ClientSeat,
    place: i64,
    describe: &Describe,
) -> Result<Described, PageFault>
    ensures { PageRead seat.old seat.new place describe.now result }
{
    page(alloc, seat, place, describe)
}

// How the connection ends without the page; not at all where the pin is lost.
fn fault_end(fault: PageFault) -> Option<ServeEnd>
    ensures { result ≡ fault_end fault }
{
    match fault {
        PageFault::Scan(ScanFault::Gone { .. } | ScanFault::NotKept { .. })
        | PageFault::Loaded { .. } => None,
        PageFault::Scan(ScanFault::NoCopy) => Some(ServeEnd::NoCopy),
        PageFault::Scan(ScanFault::NoMemory) | PageFault::NoMemory => Some(ServeEnd::NoMemory),
    }
}

// The place for a page: the one that is held, where the walk goes on, and else the closed end.
#[tactic(auto, using(crate::proofs::HeldPlaces::places, crate::proofs::Pages::renewing))]
fn begin<R: Wait>(
    rt: &R,
    seat: &mut ClientSeat,
    paging: &mut Paging,
    goes_on: bool,
) -> Result<i64, SubmitFault>
    requires { HasPlaceLeft seat.old.held paging.old.held }
    ensures begun { (cursor : Option LineKey) (pin : Option Pin) → goes_on ≡ is_some cursor
        → IsPinPlace paging.old.held (holder seat.old pin)
        → IfOk result (IsReadyFor cursor (holder seat.old pin) seat.new) }
    ensures none { IfErr result (IsPlaceEnd seat.old seat.new) }
    ensures left { IfOk result (λ place. paging.new.held ≡ Some place) }
    ensures asks { OnOk result (AsksForPages seat.old seat.new) }
    ensures places { KeepsPlaces seat.old paging.old.held seat.new paging.new.held }
{
    let Some(place) = paging.held else {
        return paging.renew(rt, seat);
    };
    if goes_on {
        return Ok(place);
    }
    paging.renew(rt, seat)
}

// The place is given back where no line is left.
#[tactic(auto, using(crate::proofs::HeldPlaces::places))]
fn finish<R: Wait>(
    rt: &R,
    seat: &mut ClientSeat,
    paging: &mut Paging,
    goes_on: bool,
) -> Result<(), SubmitFault>
    ensures finished { Finished goes_on paging.old.held seat.old seat.new paging.new.held result }
    ensures places { KeepsPlaces seat.old paging.old.held seat.new paging.new.held }
{
    if goes_on {
        return Ok(());
    }
    paging.let_go(rt, seat)
}

// Reads the page at the place that is held. Where the pin is lost, the closed end is held instead.
#[tactic(auto, using(crate::proofs::HeldPlaces::places))]
fn describe_once<R: Wait>(
    rt: &R,
    alloc: Global,
    seat: &mut ClientSeat,
    paging: &mut Paging,
    place: i64,
    describe: &Describe,
) -> Result<Tried, ServeEnd>
    requires held { paging.old.held ≡ Some place }
    requires room { HasPlaceLeft seat.old.held paging.old.held }
    ensures tried { IfOk result (λ tried. (old : Holder)
        → IsReadyFor describe.now.cursor old seat.old place
        → TriedOnce old seat.new paging.new.held place describe.now tried) }
    ensures next { IfOk result (HoldsNext paging.new.held) }
    ensures none { IfErr result (λ end. IsNoPage seat.old seat.new end) }
    ensures asks { OnOk result (AsksForPages seat.old seat.new) }
    ensures places { KeepsPlaces seat.old paging.old.held seat.new paging.new.held }
{
    match page_at(alloc, seat, place, describe) {
        Ok(described) => match finish(rt, seat, paging, described.next.is_some()) {
            Ok(()) => Ok(Tried::Page(described)),
            Err(fault) => Err(refusal_end(fault)),
        },
        Err(fault) => match fault_end(fault) {
            Some(end) => Err(end),
            None => match paging.renew(rt, seat) {
                Ok(place) => Ok(Tried::Lost { place }),
                Err(fault) => Err(refusal_end(fault)),
            },
        },
    }
}

/// The page that is asked for, and the place that it is of: that of the page before, where there is a cursor and its pin isn't lost,
/// and else the closed end. The place is held while lines are left.
#[tactic(auto, using(crate::proofs::HeldPlaces::places))]
pub(crate) fn describe_page<R: Wait>(
    rt: &R,
    alloc: Global,
    seat: &mut ClientSeat,
    paging: &mut Paging,
    describe: &Describe,
) -> Result<(i64, Described), ServeEnd>
    requires { HasPlaceLeft seat.old.held paging.old.held }
    ensures made { IfOk result (λ x. (pin : Option Pin)
        → IsPinPlace paging.old.held (holder seat.old pin)
        → IsPageMade (holder seat.old pin) seat.new paging.new.held x.0 describe.now x.1) }
    ensures none { IfErr result (λ end. IsNoPage seat.old seat.new end) }
    ensures places { KeepsPlaces seat.old paging.old.held seat.new paging.new.held }
{
    let mut place = match begin(rt, seat, paging, describe.cursor.is_some()) {
        Ok(place) => place,
        Err(fault) => return Err(refusal_end(fault)),
    };
    for _ in rt.forever() {
        match describe_once(rt, alloc, seat, paging, place, describe) {
            Ok(Tried::Page(described)) => return Ok((place, described)),
            Ok(Tried::Lost { place: next }) => place = next,
            Err(end) => return Err(end),
        }
    }
    unreachable!()
}
