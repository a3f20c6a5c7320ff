//! The whole session.

ghost use Rattle.std.specs.Prelude.{◌≡◌, ◌≤◌, ◌<◌, ◌+◌, ◌*◌, IfOk};
ghost use Rattle.kr_workload.specs.Session.{made_session, options};
ghost use Rattle.kr_workload.specs.Summary.{summary};

use crate::host::Host;
use crate::summary::Summary;
use kr_base::{NoMemory, Steps};
use std::alloc::Global;
use std::marker::Brand;
use std::sync::ledger::{Blank, Ledger};

fn make_with<L: Ledger>(
    alloc: Global,
    seed: u32,
    rounds: u32,
    blank: Blank,
) -> Result<Summary, NoMemory>
    requires rounds { rounds ≤ 1000000000 }
    requires name { blank.name ≡ L.name }
    requires parts { blank.parts ≡ L.parts }
    requires some { 0 < L.parts }
    ensures value { IfOk result
        (λ found. found ≡ summary (options seed) (made_session seed rounds).events) }
    ensures linear { IfOk result (λ found. found.events ≤ 625 + 4 * rounds) }
    ensures answered { IfOk result
        (λ found. found.ok + found.refused ≡ (made_session seed rounds).requests) }
{
    let mut steps: Steps<L> = Steps::new(blank);
    let mut host = Host::new(alloc, seed)?;
    host.open(&mut steps)?;
    host.rounds(rounds, &mut steps)?;
    Ok(host.summary())
}

/// Leads a controller through the session of a number, with so many rounds, and sums up what came of it. The controller
/// takes at most 625 events to open it, and four a round; of each request there is one reply.
pub fn make(alloc: Global, seed: u32, rounds: u32) -> Result<Summary, NoMemory>
    requires { rounds ≤ 1000000000 }
    ensures value { IfOk result
        (λ found. found ≡ summary (options seed) (made_session seed rounds).events) }
    ensures linear { IfOk result (λ found. found.events ≤ 625 + 4 * rounds) }
    // Each request is answered, and once.
    ensures answered { IfOk result
        (λ found. found.ok + found.refused ≡ (made_session seed rounds).requests) }
{
    make_with::<Brand>(alloc, seed, rounds, Blank::new(1))
}
