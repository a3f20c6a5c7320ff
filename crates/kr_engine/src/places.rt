//! Places of the log.

ghost use Rattle.std.specs.Prelude.{◌≡◌, ◌≤ℤ◌, ◌+ℤ◌, pos, unwrap_or};
ghost use Rattle.kr_defs.specs.declared.limits.TheConstants.{MOST_RECORDS as most_records, PLACES_END as places_end};
ghost use Rattle.kr_store.specs.declared.places.At.TheVariants as places;
ghost use Rattle.kr_model.specs.World.{is_far};

use kr_defs::limits::GREATEST_TIP;
use kr_store::At;

/// Nothing may begin above the last place.
pub(crate) fn is_far(place: &i64) -> bool
    ensures { result ≡ is_far place.now }
{
    *place > GREATEST_TIP
}

/// The closed end: the place of the open transaction, or the end itself.
pub(crate) fn closed_end(begun: &Option<i64>, end: &i64) -> i64
    ensures { result ≡ unwrap_or begun.now end.now }
{
    match begun {
        Some(place) => *place,
        None => *end,
    }
}

/// Where an image is kept under the place.
pub(crate) fn at_epoch(epoch: &i64) -> At
    ensures { result ≡ places.Epoch epoch.now }
{
    At::Epoch(*epoch)
}

/// The place of the next item.
#[derive(Drop)]
pub(crate) struct Next {
    pub place: i64,
}

impl Next {
    pub(crate) fn at(place: &i64) -> Next
        ensures { result.place ≡ place.now }
    {
        Next { place: *place }
    }

    pub(crate) fn go_on(&mut self)
        requires { self.old.place ≤ℤ (places_end +ℤ pos most_records) }
        ensures { self.new.place ≡ (self.old.place +ℤ pos 1) }
    {
        self.place += 1;
    }
}
