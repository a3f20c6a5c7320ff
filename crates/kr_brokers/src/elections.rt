//! The elections that a broker may win once it is unfenced.

ghost use Rattle.std.specs.Prelude.{◌≡◌, ◌++◌, negsuc, pos, Some, IfOk, OnOk};
ghost use Rattle.std.specs.Ordering.{int_cmp};
ghost use Rattle.kr_defs.specs.declared.record.Record.TheVariants as kinds;
ghost use Rattle.kr_defs.specs.Build.{built};
ghost use Rattle.kr_defs.specs.Map as entries;
ghost use Rattle.kr_defs.specs.Settings.{facts_with};
ghost use Rattle.kr_defs.specs.Walk.{changes_of, walk};
ghost use Rattle.kr_calls.specs.BrokerHeartbeat as broker_heartbeat;
ghost use Rattle.kr_replication.specs.BrokerIds.{ids_where};
ghost use Rattle.kr_brokers.specs.Unfencing.{active_with, electing_with};

use kr_base::NoMemory;
use kr_defs::{Broker, Partition, PartitionChange, Record, Records, Text, Want};
use kr_replication::{
    BrokerTest, Change, add_changes_of_broker, build_with, default_want, is_active,
};
use kr_store::{Seen, Store};
use std::alloc::Global;

// A broker is active, or would be if it is this one and were unfenced.
#[derive(Drop)]
struct ActiveWith {
    broker: i32,
}

fn active_with_test(broker: &i32) -> ActiveWith
    ensures { result ≡ record { broker = broker.now } }
{
    ActiveWith { broker: *broker }
}

impl BrokerTest for ActiveWith {
    ghost accepts = { λ t e. active_with t.broker e };

    fn accepts(&self, id: &i32, state: &Broker) -> bool {
        is_active(state) || *id == self.broker && !state.stopping
    }
}

// A broker that is unfenced. `minimum` is that of the options.
#[derive(Drop)]
struct Candidate {
    minimum: i32,
    broker: i32,
}

fn candidate_of(minimum: &i32, broker: &i32) -> Candidate
    ensures { result ≡ record { minimum = minimum.now; broker = broker.now } }
{
    Candidate {
        minimum: *minimum,
        broker: *broker,
    }
}

fn waits_for(broker: &i32, partition: &Partition) -> bool
    ensures { result ≡ broker_heartbeat.waits_for broker.now partition.now }
{
    partition.leader == -1 && partition.replicas.contains(broker)
}

// The change of a partition where the brokers are active that are once this one is unfenced.
fn build_unfenced<S: Store>(
    alloc: Global,
    seen: &Seen<S>,
    broker: &i32,
    minimum: &i32,
    topic: &Text,
    partition: &Partition,
    want: &Want,
) -> Result<Option<PartitionChange>, NoMemory>
    ensures { IfOk result (λ change. change ≡ built partition.now want.now
        (facts_with minimum.now seen.now (ids_where (active_with broker.now) seen.now.brokers) topic.now)) }
{
    let test = active_with_test(broker);
    build_with(alloc, seen, &test, minimum, topic, partition, want)
}

impl Change for Candidate {
    ghost change = { λ t image w. electing_with t.minimum t.broker image w };

    fn change<S: Store>(
        &self,
        alloc: Global,
        seen: &Seen<S>,
        topic: &Text,
        _key: &(u128, i32),
        partition: &Partition,
    ) -> Result<Option<PartitionChange>, NoMemory> {
        if !waits_for(&self.broker, partition) {
            return Ok(None);
        }
        let want = default_want(alloc, partition)?;
        let broker = &self.broker;
        build_unfenced(alloc, seen, broker, &self.minimum, topic, partition, &want)
    }
}

// Adds the elections that the broker may win.
fn add_elections<S: Store>(
    alloc: Global,
    seen: &Seen<S>,
    minimum: &i32,
    broker: &i32,
    state: &Broker,
    records: &mut Records,
) -> Result<(), NoMemory>
    requires { entries.get int_cmp seen.now.brokers broker.now ≡ Some state.now }
    ensures { OnOk result (records.new ≡ records.old ++ changes_of
        (broker_heartbeat.electing minimum.now seen.now broker.now state.now) (walk seen.now)) }
{
    seen.is_valid();
    let rule = candidate_of(minimum, broker);
    add_changes_of_broker(alloc, seen, &rule, broker, records)?;
    Ok(())
}

fn unfence_record(broker: &i32, epoch: &i64) -> Record
    ensures { result ≡ kinds.BrokerRegistrationChange broker.now epoch.now (negsuc 0) (pos 0) }
{
    Record::BrokerRegistrationChange {
        broker: *broker,
        epoch: *epoch,
        fenced: -1,
        stopping: 0,
    }
}

/// The records that unfence a broker, and elect leaders where partitions wait for it.
pub(crate) fn unfencing_records<S: Store>(
    alloc: Global,
    seen: &Seen<S>,
    minimum: &i32,
    broker: &i32,
    state: &Broker,
) -> Result<Records, NoMemory>
    requires { entries.get int_cmp seen.now.brokers broker.now ≡ Some state.now }
    ensures { IfOk result (λ records. records ≡
        broker_heartbeat.unfencing minimum.now seen.now broker.now state.now) }
{
    let mut records = Records::new(alloc);
    records.push(unfence_record(broker, &state.epoch))?;
    add_elections(alloc, seen, minimum, broker, state, &mut records)?;
    Ok(records)
}
