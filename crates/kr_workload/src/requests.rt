//! What the brokers and the administrator ask.

ghost use Rattle.std.specs.Prelude.{◌≡◌, ◌≤◌, [], ◌∷◌, ◌++◌, IfOk, OnOk};
ghost use Rattle.kr_defs.specs.Map.{get, text_order};
ghost use Rattle.kr_workload.specs.Requests as asking;

use kr_base::NoMemory;
use kr_calls::{
    AlterPartition, AlterPartitionReassignments, AlterPartitionTopic, BrokerHeartbeat,
    BrokerRegistration, BrokerState, BrokerStates, ConfigOperation, ConfigResource, CreatableTopic,
    CreateTopics, ElectLeaders, ElectLeadersTopic, IncrementalAlterConfigs, PartitionReport,
    ReassignablePartition, ReassignableTopic, Request,
};
use kr_defs::{Endpoint, Ids, Partition, Rows, Text};
use kr_store::{Seen, Store};
use std::alloc::Global;

fn list_of<T: Drop>(alloc: Global, item: T) -> Result<Rows<T>, NoMemory>
    ensures { IfOk result (λ rows. rows ≡ item ∷ []) }
{
    let mut rows = Rows::new(alloc);
    rows.push(item)?;
    Ok(rows)
}

fn rack_of(broker: u16) -> &'static str
    ensures { result.now ≡ asking.rack_of broker }
{
    if broker <= 2 {
        "a"
    } else if broker <= 4 {
        "b"
    } else {
        "c"
    }
}

fn listener(alloc: Global, broker: u16) -> Result<Endpoint, NoMemory>
    requires { broker ≤ 6 }
    ensures { IfOk result (λ endpoint. endpoint ≡ asking.listener broker) }
{
    Ok(Endpoint {
        name: Text::from_str(alloc, "PLAINTEXT")?,
        host: Text::from_str(alloc, "localhost")?,
        port: 9000 + broker,
        protocol: 0,
    })
}

/// A broker registers.
pub(crate) fn registration(alloc: Global, broker: u16) -> Result<Request, NoMemory>
    requires { broker ≤ 6 }
    ensures { IfOk result (λ request. request ≡ asking.first_registration broker) }
{
    Ok(Request::BrokerRegistration(BrokerRegistration {
        broker: i32::from(broker),
        cluster: Text::from_str(alloc, "make")?,
        incarnation: u128::from(broker),
        listeners: list_of(alloc, listener(alloc, broker)?)?,
        features: Rows::new(alloc),
        rack: Some(Text::from_str(alloc, rack_of(broker))?),
        migrating: false,
        previous_epoch: -1,
    }))
}

// The epoch of a broker, -1 where it isn't registered.
fn epoch_of<S: Store>(seen: &Seen<S>, broker: &i32) -> i64
    ensures { result ≡ asking.epoch_of seen.now broker.now }
{
    match seen.broker(broker) {
        Some(state) => state.epoch,
        None => -1,
    }
}

/// A broker sends a heartbeat; it has read the log to this place.
pub(crate) fn heartbeat<S: Store>(
    seen: &Seen<S>,
    offset: i64,
    broker: u16,
    want_fence: bool,
) -> Request
    ensures { result ≡ asking.heartbeat seen.now offset broker want_fence }
{
    let broker = i32::from(broker);
    Request::BrokerHeartbeat(BrokerHeartbeat {
        broker,
        epoch: epoch_of(seen, &broker),
        offset,
        want_fence,
        want_shutdown: false,
    })
}

fn topic_name(alloc: Global, topic: u64) -> Result<Text, NoMemory>
    ensures { IfOk result (λ name. name ≡ asking.name_of_topic topic) }
{
    Ok(Text::from_string(format!(in alloc; "t{topic}")?))
}

/// A topic is to be made.
pub(crate) fn creation(alloc: Global, topic: u64) -> Result<Request, NoMemory>
    ensures { IfOk result (λ request. request ≡ asking.creation topic) }
{
    let topic = CreatableTopic {
        name: topic_name(alloc, topic)?,
        partitions: 10,
        factor: 3,
        assignments: Rows::new(alloc),
        configs: Rows::new(alloc),
    };
    Ok(Request::CreateTopics(CreateTopics {
        topics: list_of(alloc, topic)?,
        validate_only: false,
    }))
}

// The broker behind this one.
fn next_broker(broker: u16) -> u16
    requires { broker ≤ 6 }
    ensures value { result ≡ asking.next_broker broker }
    ensures few { result ≤ 6 }
{
    if broker == 6 { 1 } else { broker + 1 }
}

fn targets(alloc: Global, broker: u16) -> Result<Ids, NoMemory>
    requires { broker ≤ 6 }
    ensures { IfOk result (λ ids. ids ≡ asking.targets broker) }
{
    let second = next_broker(broker);
    let third = next_broker(second);
    let mut ids = Rows::new(alloc);
    ids.push(i32::from(broker))?;
    ids.push(i32::from(second))?;
    ids.push(i32::from(third))?;
    Ok(ids)
}

/// A partition is to get the three replicas that begin with this broker.
pub(crate) fn reassignment(
    alloc: Global,
    topic: u64,
    partition: i32,
    broker: u16,
) -> Result<Request, NoMemory>
    requires { broker ≤ 6 }
    ensures { IfOk result (λ request. request ≡ asking.reassignment topic partition broker) }
{
    let wish = ReassignablePartition {
        index: partition,
        replicas: Some(targets(alloc, broker)?),
    };
    let topic = ReassignableTopic {
        name: topic_name(alloc, topic)?,
        partitions: list_of(alloc, wish)?,
    };
    Ok(Request::AlterPartitionReassignments(AlterPartitionReassignments {
        topics: list_of(alloc, topic)?,
    }))
}

/// The preferred leader of a partition is to be elected.
pub(crate) fn election(alloc: Global, topic: u64, partition: i32) -> Result<Request, NoMemory>
    ensures { IfOk result (λ request. request ≡ asking.election topic partition) }
{
    let topic = ElectLeadersTopic {
        topic: topic_name(alloc, topic)?,
        partitions: list_of(alloc, partition)?,
    };
    Ok(Request::ElectLeaders(ElectLeaders {
        kind: 0,
        topics: Some(list_of(alloc, topic)?),
    }))
}

/// The key `note` of the broker default is to be a round's number.
pub fn note(alloc: Global, round: u32) -> Result<Request, NoMemory>
    ensures { IfOk result (λ request. request ≡ asking.note round) }
{
    let operation = ConfigOperation {
        name: Text::from_str(alloc, "note")?,
        operation: 0,
        value: Some(Text::from_string(format!(in alloc; "{round}")?)),
    };
    let resource = ConfigResource {
        kind: 4,
        name: Text::new(alloc),
        configs: list_of(alloc, operation)?,
    };
    Ok(Request::IncrementalAlterConfigs(IncrementalAlterConfigs {
        resources: list_of(alloc, resource)?,
        validate_only: false,
    }))
}

fn is_active<S: Store>(seen: &Seen<S>, broker: &i32) -> bool
    ensures { result ≡ asking.is_active_broker seen.now broker.now }
{
    match seen.broker(broker) {
        Some(state) => !state.fenced && !state.stopping,
        None => false,
    }
}

fn state_of<S: Store>(seen: &Seen<S>, broker: &i32) -> BrokerState
    ensures { result ≡ asking.state_of_broker seen.now broker.now }
{
    BrokerState {
        broker: *broker,
        epoch: epoch_of(seen, broker),
    }
}

// Adds the broker where it is active, with its epoch.
fn add_if_active<S: Store>(
    seen: &Seen<S>,
    broker: &i32,
    states: &mut BrokerStates,
) -> Result<(), NoMemory>
    ensures { OnOk result
        (states.new ≡ states.old ++ asking.active_states seen.now (broker.now ∷ [])) }
{
    if is_active(seen, broker) {
        states.push(state_of(seen, broker))?;
    }
    Ok(())
}

// The active ones of these brokers, with their epochs.
fn active_states<S: Store>(
    alloc: Global,
    seen: &Seen<S>,
    brokers: &[i32],
) -> Result<BrokerStates, NoMemory>
    ensures { IfOk result (λ states. states ≡ asking.active_states seen.now brokers.now) }
{
    let mut states = Rows::new(alloc);
    for broker in brokers {
        add_if_active(seen, broker, &mut states)?;
    }
    Ok(states)
}

// Who is reported in sync: all that are active, and the leader alone while it recovers.
fn in_sync<S: Store>(
    alloc: Global,
    seen: &Seen<S>,
    partition: &Partition,
) -> Result<BrokerStates, NoMemory>
    ensures { IfOk result (λ states. states ≡ asking.in_sync seen.now partition.now) }
{
    if partition.recovery == 1 {
        list_of(alloc, state_of(seen, &partition.leader))
    } else {
        active_states(alloc, seen, partition.replicas.as_slice())
    }
}

// What the leader says of a partition: a recovery has ended.
fn partition_report<S: Store>(
    alloc: Global,
    seen: &Seen<S>,
    index: i32,
    partition: &Partition,
) -> Result<PartitionReport, NoMemory>
    ensures { IfOk result
        (λ report. report ≡ asking.reported_partition seen.now index partition.now) }
{
    Ok(PartitionReport {
        index,
        leader_epoch: partition.leader_epoch,
        in_sync: in_sync(alloc, seen, partition)?,
        recovery: if partition.recovery == 1 {
            0
        } else {
            partition.recovery
        },
        partition_epoch: partition.partition_epoch,
    })
}

/// Somebody leads the partition.
pub(crate) fn has_leader(partition: &Partition) -> bool
    ensures { result ≡ asking.has_leader partition.now }
{
    partition.leader >= 0
}

// The report of a partition's leader.
fn leader_report<S: Store>(
    alloc: Global,
    seen: &Seen<S>,
    topic: u128,
    index: i32,
    partition: &Partition,
) -> Result<Request, NoMemory>
    ensures { IfOk result
        (λ request. request ≡ asking.leader_report seen.now topic index partition.now) }
{
    let topic = AlterPartitionTopic {
        topic,
        partitions: list_of(alloc, partition_report(alloc, seen, index, partition)?)?,
    };
    Ok(Request::AlterPartition(AlterPartition {
        broker: partition.leader,
        epoch: epoch_of(seen, &partition.leader),
        topics: list_of(alloc, topic)?,
    }))
}

fn report_where_led<S: Store>(
    alloc: Global,
    seen: &Seen<S>,
    topic: u128,
    index: i32,
    partition: &Partition,
) -> Result<Option<Request>, NoMemory>
    ensures { IfOk result
        (λ request. request ≡ asking.report_where_led seen.now topic index partition.now) }
{
    if has_leader(partition) {
        Ok(Some(leader_report(alloc, seen, topic, index, partition)?))
    } else {
        Ok(None)
    }
}

fn report_of_topic<S: Store>(
    alloc: Global,
    seen: &Seen<S>,
    topic: &u128,
    index: &i32,
) -> Result<Option<Request>, NoMemory>
    ensures { IfOk result
        (λ request. request ≡ asking.report_of_topic seen.now index.now topic.now) }
{
    match seen.partition(topic, index) {
        Some(partition) => report_where_led(alloc, seen, *topic, *index, partition),
        None => Ok(None),
    }
}

fn id_of<S: Store>(seen: &Seen<S>, name: &Text) -> Option<u128>
    ensures { result ≡ get text_order seen.now.topics name.now }
{
    match seen.topic_named(name) {
        Some(topic) => Some(topic.id),
        None => None,
    }
}

/// The report of a partition's leader, where there is one.
pub(crate) fn report<S: Store>(
    alloc: Global,
    seen: &Seen<S>,
    topic: u64,
    index: i32,
) -> Result<Option<Request>, NoMemory>
    ensures { IfOk result (λ request. request ≡ asking.report seen.now topic index) }
{
    let name = topic_name(alloc, topic)?;
    match id_of(seen, &name) {
        Some(id) => report_of_topic(alloc, seen, &id, &index),
        None => Ok(None),
    }
}
