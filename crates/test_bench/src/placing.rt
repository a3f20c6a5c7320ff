//! Partitions that are placed over brokers in racks.

ghost use Rattle.std.specs.Prelude.{◌≡◌, ◌≤◌, vec_len, IfOk};
ghost use Rattle.kr_place.specs.Placing.{grouped};
ghost use Rattle.test_bench.specs.Placements.{placements};

use kr_base::NoMemory;
use kr_defs::{Ids, Text};
use kr_place::Grouped;
use std::alloc::{AllocError, Global};

/// How many brokers there are.
pub(crate) const BROKERS: u32 = 1_000;

/// How many partitions are placed.
pub(crate) const PARTITIONS: u32 = 9_000;

/// How many replicas each partition has.
const FACTOR: usize = 3;

const RACKS: [&str; 10] = ["a", "b", "c", "d", "e", "f", "g", "h", "i", "j"];

/// The brokers, numbered from 0, each in the rack of its last digit.
pub(crate) fn brokers(alloc: Global) -> Result<Vec<(i32, Option<Text>)>, AllocError>
    ensures { IfOk result (λ those. vec_len those ≡ BROKERS) }
{
    let mut those = Vec::with_capacity(alloc, BROKERS as usize)?;
    for id in 0..BROKERS {
        let rack = Text::from_str(alloc, RACKS[id as usize % 10])?;
        those.push((id as i32, Some(rack)))?;
    }
    Ok(those)
}

/// The replicas of each partition. The racks are grouped once.
pub(crate) fn place_all(
    alloc: Global,
    brokers: &[(i32, Option<Text>)],
) -> Result<Vec<Ids>, AllocError>
    ensures { IfOk result (λ placed. placed.items ≡ placements (grouped brokers.now) PARTITIONS) }
{
    match group_and_place(alloc, brokers) {
        Ok(placed) => Ok(placed),
        Err(NoMemory) => Err(AllocError),
    }
}

fn group_and_place(alloc: Global, brokers: &[(i32, Option<Text>)]) -> Result<Vec<Ids>, NoMemory>
    ensures { IfOk result (λ placed. placed.items ≡ placements (grouped brokers.now) PARTITIONS) }
{
    let those = Grouped::of(alloc, brokers)?;
    place_each(alloc, &those, PARTITIONS)
}

// The replicas of so many partitions.
#[tactic(auto, unfolding(crate::specs::Placements::placements))]
fn place_each(alloc: Global, those: &Grouped, count: u32) -> Result<Vec<Ids>, NoMemory>
    ensures { IfOk result (λ placed. placed.items ≡ placements those.now count) }
{
    let mut placed = Vec::with_capacity(alloc, count as usize)?;
    for number in 0..count {
        let ids = those.place(alloc, u64::from(number), FACTOR)?;
        placed.push(ids)?;
    }
    Ok(placed)
}
