//! Brokers that are grouped by rack.

ghost use Rattle.std.specs.Prelude.{◌≡◌, IfOk};
ghost use Rattle.kr_place.specs.Placing.{grouped, placed_in};

use crate::racks::{racks_of, walk};
use kr_base::NoMemory;
use kr_defs::{Ids, Text};
use std::alloc::Global;
use std::marker::Model;

/// Brokers that are grouped by rack, for any number of placements.
#[derive(Drop)]
pub struct Grouped {
    // The brokers of each rack.
    racks: Vec<Ids>,
    // How many brokers there are.
    count: usize,
}

impl Model for Grouped {
    ghost use Rattle.std.specs.Prelude.{◌<◌, ◌^◌};
    ghost use Rattle.kr_place.specs.Placing.{Grouped};

    ghost Value = { Grouped };

    ghost view = { λ g. record { racks = g.racks.items; count = g.count } };

    ghost invariant = { λ g. g.count < 2 ^ 63 };
}

impl Grouped {
    /// The brokers, which each stand once, by rack.
    pub fn of(alloc: Global, brokers: &[(i32, Option<Text>)]) -> Result<Grouped, NoMemory>
        ensures { IfOk result (λ those. those ≡ grouped brokers.now) }
    {
        let racks = racks_of(alloc, brokers)?;
        Ok(Grouped {
            racks,
            count: brokers.len(),
        })
    }

    /// How many brokers there are.
    pub fn count(&self) -> usize
        ensures { result ≡ self.now.count }
    {
        self.count
    }

    /// The first `factor` brokers that the visits of the racks give, or all of them where there are fewer. `start` is
    /// the place where the topic's placement begins and the number of the partition, together.
    pub fn place(&self, alloc: Global, start: u64, factor: usize) -> Result<Ids, NoMemory>
        ensures { IfOk result (λ ids. ids ≡ placed_in self.now start factor) }
    {
        let visits = self.racks.len() as u128 * self.count as u128;
        walk(alloc, self.racks.as_slice(), start as u128, visits, factor)
    }
}
