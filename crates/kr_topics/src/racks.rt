//! The active brokers of an image, each with its rack.

ghost use Rattle.std.specs.Prelude.{◌≡◌, [], ◌∷◌, IfOk, if◌then◌else◌};
ghost use Rattle.kr_defs.specs.Brokers as brokers;
ghost use Rattle.kr_calls.specs.NewPartitions.{racked};
ghost use Rattle.kr_place.specs.Placing.{grouped};

use kr_base::NoMemory;
use kr_defs::{Broker, Copied, Rows, Text};
use kr_listing::{BrokerPart, gather_brokers};
use kr_place::Grouped;
use kr_replication::is_active;
use kr_store::{Seen, Store};
use std::alloc::Global;

// Brokers, each with its rack.
type Racks = Rows<(i32, Option<Text>)>;

// An active broker with its rack.
struct ActiveOnes;

impl BrokerPart<(i32, Option<Text>)> for ActiveOnes {
    ghost part = { λ _ e. if brokers.is_active e.1 then (e.0, e.1.rack) ∷ [] else [] };

    fn add(
        &self,
        alloc: Global,
        id: &i32,
        state: &Broker,
        rows: &mut Racks,
    ) -> Result<(), NoMemory> {
        if is_active(state) {
            let rack = Copied::copied(&state.rack, alloc)?;
            rows.push((*id, rack))?;
        }
        Ok(())
    }
}

#[tactic(auto, using(crate::proofs::ActiveBrokers::racks))]
fn active_racks<S: Store>(alloc: Global, seen: &Seen<S>) -> Result<Racks, NoMemory>
    ensures { IfOk result (λ racks. racks ≡ racked seen.now) }
{
    gather_brokers(alloc, seen, &ActiveOnes)
}

/// The active brokers by rack.
pub(crate) fn active_by_rack<S: Store>(alloc: Global, seen: &Seen<S>) -> Result<Grouped, NoMemory>
    ensures { IfOk result (λ those. those ≡ grouped (racked seen.now)) }
{
    let racks = active_racks(alloc, seen)?;
    Grouped::of(alloc, racks.as_slice())
}
