//! The law of placements.

ghost use Rattle.kr_place.specs.Spread.{PlacementsAreSpread};

/// Every placement of brokers that each stand once takes as many of them as asked for, or else all, and none of them
/// twice; and it takes them from as many racks as are asked for, or else from all.
pub fn placements_are_spread()
    ensures { PlacementsAreSpread }
{}
