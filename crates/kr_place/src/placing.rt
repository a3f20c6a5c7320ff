//! Placement of the replicas of a partition.

ghost use Rattle.std.specs.Prelude.{◌≡◌, ◌<◌, ◌≤◌, ◌≤ℤ◌, ◌+◌, ◌^◌, pos, length, unsigned_abs, IfOk, IsOkUnless, Err};
ghost use Rattle.kr_defs.specs.Placed.{placed};
ghost use Rattle.kr_place.specs.Spread.{IsSpread};

use crate::grouped::Grouped;
use crate::racked::Racked;
use kr_base::NoMemory;
use kr_defs::{Ids, Text};
use std::alloc::Global;
use thiserror::Error;

/// Why no brokers were chosen.
#[derive(Debug, Drop, PartialEq, Eq, Error)]
pub enum PlaceFault {
    /// More brokers are asked for than there are.
    #[error("{usable} brokers are usable, {asked} are asked for")]
    TooFew { usable: usize, asked: i16 },
    #[error("out of memory")]
    NoMemory,
}

impl From<NoMemory> for PlaceFault {
    ghost use Rattle.kr_place.specs.declared.placing.PlaceFault.TheVariants as faults;

    ghost from_gives = { λ _ fault. fault ≡ faults.NoMemory };

    fn from(_refused: NoMemory) -> PlaceFault {
        PlaceFault::NoMemory
    }
}

/// The brokers of a partition's replicas, the first one preferred: the first `factor` that the visits of the racks give.
/// No broker stands among them twice, and they stand in `factor` racks, or in all where there are fewer.
///
/// `start` is where the topic's placement begins, and `index` the number of the partition.
pub fn place(
    alloc: Global,
    brokers: &Racked,
    start: i64,
    index: i32,
    factor: i16,
) -> Result<Ids, PlaceFault>
    requires start { pos 0 ≤ℤ start }
    requires index { pos 0 ≤ℤ index }
    requires factor { pos 1 ≤ℤ factor }
    ensures placed { IfOk result (λ ids. ids ≡ placed brokers.now (unsigned_abs start + unsigned_abs index) (unsigned_abs factor)) }
    ensures spread { IfOk result (λ ids. IsSpread brokers.now (unsigned_abs factor) ids) }
    ensures too_few { length brokers.now < unsigned_abs factor → result ≡ Err (PlaceFault.TooFew (length brokers.now) factor) }
    ensures enough { unsigned_abs factor ≤ length brokers.now → IsOkUnless result PlaceFault.NoMemory }
{
    let usable = brokers.len();
    let wanted = factor.unsigned_abs() as usize;
    if usable < wanted {
        return Err(PlaceFault::TooFew {
            usable,
            asked: factor,
        });
    }
    let first = start.unsigned_abs() + index.unsigned_abs() as u64;
    Ok(choose(alloc, brokers.as_slice(), first, wanted)?)
}

// The first `factor` brokers of all visits.
#[tactic(auto, unfolding(kr_defs::specs::Placed::placed))]
fn choose(
    alloc: Global,
    brokers: &[(i32, Option<Text>)],
    first: u64,
    factor: usize,
) -> Result<Ids, NoMemory>
    ensures { IfOk result (λ ids. ids ≡ placed brokers.now first factor) }
{
    let those = Grouped::of(alloc, brokers)?;
    those.place(alloc, first, factor)
}
