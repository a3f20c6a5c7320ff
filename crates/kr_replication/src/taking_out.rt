//! A broker is taken out of the partitions that it keeps in sync.

ghost use Rattle.std.specs.Prelude.{◌≡◌, ◌++◌, [], ◌∷◌, pos, IfOk, OnOk, Some, None, if◌then◌else◌};
ghost use Rattle.kr_defs.specs.DefaultWant as wants;
ghost use Rattle.kr_defs.specs.Ids.{without};
ghost use Rattle.kr_defs.specs.declared.record.Record.TheVariants as kinds;
ghost use Rattle.kr_calls.specs.TakingOut as taking;

use crate::changes::Change;
use crate::electing::build_without;
use crate::listed_walks::add_changes_of_broker;
use kr_base::NoMemory;
use kr_defs::{Copied, Ids, Mode, Partition, PartitionChange, Record, Records, Text, Want};
use kr_store::{Seen, Store};
use std::alloc::Global;

/// What is asked of a partition where nothing is named: its own lists.
pub fn default_want(alloc: Global, partition: &Partition) -> Result<Want, NoMemory>
    ensures { IfOk result (λ want. want ≡ wants.default_want partition.now) }
{
    let replicas = partition.replicas.copied(alloc)?;
    let adding = partition.adding.copied(alloc)?;
    let removing = partition.removing.copied(alloc)?;
    let in_sync = partition.in_sync.copied(alloc)?;
    Ok(Want {
        replicas,
        adding,
        removing,
        in_sync,
        recovery: partition.recovery,
        mode: Mode::Plain,
        restarted: None,
    })
}

// These ids without the broker.
fn others(alloc: Global, ids: &Ids, broker: &i32) -> Result<Ids, NoMemory>
    ensures { IfOk result (λ left. left ≡ without ids.now (broker.now ∷ [])) }
{
    let mut left = Ids::new(alloc);
    for id in ids.as_slice() {
        if id != broker {
            left.push(*id)?;
        }
    }
    Ok(left)
}

// A broker that is taken out. `minimum` is that of the options.
#[derive(Drop)]
struct Leaver {
    minimum: i32,
    broker: i32,
    restarted: bool,
}

fn leaver_of(minimum: &i32, broker: &i32, restarted: bool) -> Leaver
    ensures { result ≡ record { minimum = minimum.now; broker = broker.now; restarted = restarted } }
{
    Leaver {
        minimum: *minimum,
        broker: *broker,
        restarted,
    }
}

fn is_held(partition: &Partition, broker: &i32, restarted: bool) -> bool
    ensures { result ≡ taking.is_held partition.now broker.now restarted }
{
    partition.in_sync.contains(broker) || restarted && partition.eligible.contains(broker)
}

fn restarted_broker(broker: &i32, restarted: bool) -> Option<i32>
    ensures { result ≡ (if restarted then Some broker.now else None) }
{
    if restarted { Some(*broker) } else { None }
}

fn without_broker(
    alloc: Global,
    partition: &Partition,
    broker: &i32,
    restarted: bool,
) -> Result<Want, NoMemory>
    ensures { IfOk result (λ want. want ≡ taking.without_broker partition.now broker.now restarted) }
{
    let in_sync = others(alloc, &partition.in_sync, broker)?;
    let want = default_want(alloc, partition)?;
    Ok(Want {
        in_sync,
        restarted: restarted_broker(broker, restarted),
        ..want
    })
}

// The change that takes a broker out of a partition, as restarted where it has restarted uncleanly. `minimum` is that of the
// options.
fn leaving_change<S: Store>(
    alloc: Global,
    seen: &Seen<S>,
    minimum: &i32,
    broker: &i32,
    restarted: bool,
    topic: &Text,
    key: &(u128, i32),
    partition: &Partition,
) -> Result<Option<PartitionChange>, NoMemory>
    ensures { IfOk result (λ change. change ≡ taking.taking_out minimum.now seen.now broker.now restarted
        (record { topic = topic.now; key = key.now; partition = partition.now })) }
{
    if !is_held(partition, broker, restarted) {
        return Ok(None);
    }
    let want = without_broker(alloc, partition, broker, restarted)?;
    build_without(alloc, seen, broker, minimum, topic, partition, &want)
}

impl Change for Leaver {
    ghost change = { λ t image w. taking.taking_out t.minimum image t.broker t.restarted w };

    fn change<S: Store>(
        &self,
        alloc: Global,
        seen: &Seen<S>,
        topic: &Text,
        key: &(u128, i32),
        partition: &Partition,
    ) -> Result<Option<PartitionChange>, NoMemory> {
        let minimum = &self.minimum;
        leaving_change(
            alloc,
            seen,
            minimum,
            &self.broker,
            self.restarted,
            topic,
            key,
            partition,
        )
    }
}

/// Adds the changes that take a broker out, as restarted where it has restarted uncleanly. `minimum` is that of the
/// options.
pub fn take_out<S: Store>(
    alloc: Global,
    seen: &Seen<S>,
    minimum: &i32,
    broker: &i32,
    restarted: bool,
    records: &mut Records,
) -> Result<(), NoMemory>
    ensures { OnOk result (records.new ≡ records.old ++ taking.taken_out minimum.now seen.now broker.now restarted) }
{
    let rule = leaver_of(minimum, broker, restarted);
    add_changes_of_broker(alloc, seen, &rule, broker, records)
}

// The record that fences a broker of this epoch.
fn fence_record(broker: &i32, epoch: &i64) -> Record
    ensures { result ≡ kinds.BrokerRegistrationChange broker.now epoch.now (pos 1) (pos 0) }
{
    Record::BrokerRegistrationChange {
        broker: *broker,
        epoch: *epoch,
        fenced: 1,
        stopping: 0,
    }
}

/// The records that fence a broker of this epoch.
pub fn fencing_records<S: Store>(
    alloc: Global,
    seen: &Seen<S>,
    minimum: &i32,
    broker: &i32,
    epoch: &i64,
) -> Result<Records, NoMemory>
    ensures { IfOk result (λ records. records ≡
        taking.fencing minimum.now seen.now broker.now epoch.now) }
{
    let mut records = Records::new(alloc);
    records.push(fence_record(broker, epoch))?;
    take_out(alloc, seen, minimum, broker, false, &mut records)?;
    Ok(records)
}
