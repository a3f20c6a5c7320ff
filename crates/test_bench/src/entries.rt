//! The entries of a large image.

use kr_defs::{Broker, Endpoint, Endpoints, Ids, Partition, Ranges, Record, Records, Text};
use std::alloc::{AllocError, Global};

const BROKERS: i32 = 100;

const TOPICS: i32 = 100;

/// Of each topic.
const PARTITIONS: i32 = 90;

const SETTINGS: i32 = 20;

/// A record for each entry: 100 brokers, 100 topics with 90 partitions each, and 20 settings.
pub(crate) fn entries(alloc: Global) -> Result<Records, AllocError> {
    let mut records = Records::new(alloc);
    add_brokers(alloc, &mut records)?;
    for number in 0..TOPICS {
        add_topic(alloc, number, PARTITIONS, &mut records)?;
    }
    add_settings(alloc, &mut records)?;
    Ok(records)
}

fn add_brokers(alloc: Global, records: &mut Records) -> Result<(), AllocError> {
    for broker in 0..BROKERS {
        let state = broker_of(alloc, broker)?;
        records.push(Record::RegisterBroker { broker, state })?;
    }
    Ok(())
}

fn broker_of(alloc: Global, id: i32) -> Result<Broker, AllocError> {
    Ok(Broker {
        epoch: 1,
        incarnation: 7,
        endpoints: endpoints_of(alloc, id)?,
        features: Ranges::new(alloc),
        rack: Some(Text::from_str(alloc, "a")?),
        fenced: false,
        stopping: false,
    })
}

fn endpoints_of(alloc: Global, id: i32) -> Result<Endpoints, AllocError> {
    let mut endpoints = Endpoints::new(alloc);
    endpoints.push(endpoint_of(alloc, id)?)?;
    Ok(endpoints)
}

fn endpoint_of(alloc: Global, id: i32) -> Result<Endpoint, AllocError> {
    let host = format!(in alloc; "broker-{id}.example.org")?;
    Ok(Endpoint {
        name: Text::from_str(alloc, "PLAINTEXT")?,
        host: Text::from_string(host),
        port: 9_092,
        protocol: 0,
    })
}

fn topic_name(alloc: Global, number: i32) -> Result<Text, AllocError> {
    Ok(Text::from_string(format!(in alloc; "topic-{number}")?))
}

/// A topic, whose id is one more than its number, and so many partitions.
pub(crate) fn add_topic(
    alloc: Global,
    number: i32,
    partitions: i32,
    records: &mut Records,
) -> Result<(), AllocError> {
    let id = number.unsigned_abs() as u128 + 1;
    let name = topic_name(alloc, number)?;
    records.push(Record::Topic { name, id })?;
    for index in 0..partitions {
        records.push(partition(alloc, id, index)?)?;
    }
    Ok(())
}

/// A record for each of so many partitions of one topic, behind the topic's own.
pub(crate) fn one_topic(alloc: Global, partitions: i32) -> Result<Records, AllocError> {
    let mut records = Records::new(alloc);
    add_topic(alloc, 0, partitions, &mut records)?;
    Ok(records)
}

fn partition(alloc: Global, topic: u128, index: i32) -> Result<Record, AllocError> {
    Ok(Record::Partition {
        index,
        topic,
        state: state_of(alloc, index)?,
    })
}

/// A partition on three brokers, all in sync.
pub(crate) fn state_of(alloc: Global, index: i32) -> Result<Partition, AllocError> {
    Ok(Partition {
        replicas: replicas(alloc, index)?,
        in_sync: replicas(alloc, index)?,
        eligible: Ids::new(alloc),
        last_known: Ids::new(alloc),
        adding: Ids::new(alloc),
        removing: Ids::new(alloc),
        leader: index % BROKERS,
        recovery: 0,
        leader_epoch: 0,
        partition_epoch: 0,
    })
}

// Three brokers one after the other.
fn replicas(alloc: Global, index: i32) -> Result<Ids, AllocError> {
    let mut ids = Ids::new(alloc);
    for next in 0..3 {
        ids.push((index % BROKERS).wrapping_add(next) % BROKERS)?;
    }
    Ok(ids)
}

fn add_settings(alloc: Global, records: &mut Records) -> Result<(), AllocError> {
    for number in 0..SETTINGS {
        records.push(setting(alloc, number)?)?;
    }
    Ok(())
}

fn setting(alloc: Global, number: i32) -> Result<Record, AllocError> {
    Ok(Record::Config {
        kind: 2,
        name: topic_name(alloc, number)?,
        key: Text::from_str(alloc, "retention.ms")?,
        value: Some(Text::from_str(alloc, "604800000")?),
    })
}
