//! Rounds of drawn moves.

ghost use Rattle.std.specs.Prelude.{◌≡◌, ◌+◌, ◌<◌, ◌≤◌, ℕ, IfOk, OnOk};
ghost use Rattle.kr_drive.specs.Driving as driving;
ghost use Rattle.kr_drive.specs.Driving.{Driven, nodes_summary};
ghost use Rattle.kr_drive.specs.inner.Standing.{HasDriven, MayDrive, DrivesMove};
ghost use Rattle.kr_nodes.specs.Standing.{IsReadyCluster, IsWriteMove};

use crate::summary::{NodesSummary, count_standing};
use crate::turns::drawn_move;
use kr_base::NoMemory;
use kr_nodes::{Cluster, Move, MoveFault};
use kr_workload::{drawn_below, next_drawn, options};
use std::alloc::Global;

// Who makes the moves: how many were accepted, and the number that the next one is made of.
struct Driver {
    alloc: Global,
    cluster: Cluster,
    made: u64,
    drawn: u64,
}

// By hand, as that of a cluster.
impl Drop for Driver {
    fn drop(self) {
        let Driver {
            alloc,
            cluster,
            made,
            drawn,
        } = self;
    }
}

impl Driver {
    fn new(alloc: Global, seed: u32) -> Result<Driver, NoMemory>
        ensures stands { IfOk result (λ driver. HasDriven seed 0
            (driving.nothing_driven seed) driver) }
        ensures may { IfOk result (λ driver. MayDrive 0 driver) }
    {
        let options = options(alloc, seed)?;
        Ok(Driver {
            alloc,
            cluster: Cluster::new(alloc, options, 3)?,
            made: 0,
            drawn: u64::from(seed),
        })
    }

    // The move is made, or refused.
    fn take(&mut self, turn: Move) -> Result<(), NoMemory>
        requires ready { IsReadyCluster self.old.cluster }
        requires write { IsWriteMove turn }
        requires few { self.old.made ≤ 1000000000 }
        ensures { OnOk result (DrivesMove turn self.old self.new) }
    {
        match self.cluster.step(turn) {
            Ok(()) => {
                self.made += 1;
                Ok(())
            }
            Err(MoveFault::NoMemory) => Err(NoMemory),
            Err(_) => Ok(()),
        }
    }

    fn round(&mut self, round: u32) -> Result<(), NoMemory>
        requires may { MayDrive round self.old }
        requires few { round < 1000000000 }
        ensures stands { OnOk result ((seed : ℕ) (d : Driven) → HasDriven seed round d self.old →
            HasDriven seed (round + 1)
            (driving.with_move seed (driving.drawn_turn seed (round + 1) d) d) self.new) }
        ensures may { OnOk result (MayDrive (round + 1) self.new) }
    {
        let kind = next_drawn(self.drawn);
        let node = next_drawn(kind);
        let elected = self.cluster.greatest_epoch();
        let turn = drawn_move(
            self.alloc,
            &elected,
            round + 1,
            drawn_below(kind, 8),
            drawn_below(node, 3) as u32,
        )?;
        self.take(turn)?;
        self.drawn = node;
        Ok(())
    }

    fn rounds(&mut self, rounds: u32) -> Result<(), NoMemory>
        requires few { rounds ≤ 1000000000 }
        requires first { MayDrive 0 self.old }
        ensures stands { OnOk result ((seed : ℕ) →
            HasDriven seed 0 (driving.nothing_driven seed) self.old →
            HasDriven seed rounds (driving.driven seed rounds) self.new) }
        ensures may { OnOk result (MayDrive rounds self.new) }
    {
        for round in 0..rounds {
            self.round(round)?;
        }
        Ok(())
    }

    fn summary(&self, rounds: u32) -> NodesSummary
        requires { MayDrive rounds self.now }
        ensures { (seed : ℕ) (d : Driven) → HasDriven seed rounds d self.now →
            result ≡ driving.summary_of seed rounds d }
    {
        NodesSummary {
            moves: self.made,
            refused: u64::from(rounds) - self.made,
            length: self.cluster.length(),
            told: count_standing(self.cluster.told()),
        }
    }
}

/// Makes so many drawn moves with three nodes over one list, and sums up what came of them.
pub fn drive(alloc: Global, seed: u32, rounds: u32) -> Result<NodesSummary, NoMemory>
    requires { rounds ≤ 1000000000 }
    ensures { IfOk result (λ summary. summary ≡ nodes_summary seed rounds) }
{
    let mut driver = Driver::new(alloc, seed)?;
    driver.rounds(rounds)?;
    Ok(driver.summary(rounds))
}
