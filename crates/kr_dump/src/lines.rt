//! Lines on entries of an image.

ghost use Rattle.std.specs.Prelude.{◌≡◌, ◌++◌, IfOk, OnOk, codes, string_bytes};
ghost use Rattle.kr_dump.specs.DumpText as texts;

use crate::texts::{put_ids, put_quoted, put_rack, put_str};
use kr_defs::{Broker, Bytes, ConfigKey, Partition, Text};
use std::alloc::{AllocError, Global};
use uuid::Uuid;

pub(crate) fn put_offset(alloc: Global, out: &mut Bytes, offset: i64) -> Result<(), AllocError>
    ensures { OnOk result (out.new ≡ out.old ++ texts.offset_line offset) }
{
    let line = format!(in alloc; "offset {offset}\n")?;
    put_str(out, line.as_str())
}

pub(crate) fn put_feature(
    alloc: Global,
    out: &mut Bytes,
    name: &Text,
    level: &i16,
) -> Result<(), AllocError>
    ensures { OnOk result (out.new ≡ out.old ++ texts.feature_line (name.now, level.now)) }
{
    put_str(out, "feature ")?;
    put_quoted(out, name)?;
    let rest = format!(in alloc; " {level}\n")?;
    put_str(out, rest.as_str())
}

fn state_word(broker: &Broker) -> &'static str
    ensures { result.now ≡ texts.state_word broker.now }
{
    if broker.fenced {
        "fenced"
    } else if broker.stopping {
        "stopping"
    } else {
        "active"
    }
}

// Up to the rack.
fn put_registration(
    alloc: Global,
    out: &mut Bytes,
    id: i32,
    broker: &Broker,
) -> Result<(), AllocError>
    ensures { OnOk result (out.new ≡ out.old ++ texts.registration_line id broker.now) }
{
    let (epoch, state) = (broker.epoch, state_word(broker));
    let registration = format!(in alloc; "broker {id} epoch {epoch} {state} rack ")?;
    put_str(out, registration.as_str())
}

pub(crate) fn put_broker(
    alloc: Global,
    out: &mut Bytes,
    id: i32,
    broker: &Broker,
) -> Result<(), AllocError>
    ensures { OnOk result (out.new ≡ out.old ++ texts.broker_line (id, broker.now)) }
{
    put_registration(alloc, out, id, broker)?;
    put_rack(out, &broker.rack)?;
    let (listeners, features) = (broker.endpoints.len(), broker.features.len());
    let rest = format!(in alloc; " listeners {listeners} features {features}\n")?;
    put_str(out, rest.as_str())
}

pub(crate) fn put_topic(
    alloc: Global,
    out: &mut Bytes,
    name: &Text,
    id: u128,
) -> Result<(), AllocError>
    ensures { OnOk result (out.new ≡ out.old ++ texts.topic_line (name.now, id)) }
{
    put_str(out, "topic ")?;
    put_quoted(out, name)?;
    let id = Uuid::from_u128(id);
    let rest = format!(in alloc; " {id}\n")?;
    put_str(out, rest.as_str())
}

fn put_lists(alloc: Global, out: &mut Bytes, partition: &Partition) -> Result<(), AllocError>
    ensures { OnOk result (out.new ≡ out.old ++ texts.lists_text partition.now) }
{
    put_ids(alloc, out, " replicas ", &partition.replicas)?;
    put_ids(alloc, out, " isr ", &partition.in_sync)?;
    put_ids(alloc, out, " eligible ", &partition.eligible)?;
    put_ids(alloc, out, " last ", &partition.last_known)?;
    put_ids(alloc, out, " adding ", &partition.adding)?;
    put_ids(alloc, out, " removing ", &partition.removing)
}

fn put_leadership(alloc: Global, out: &mut Bytes, partition: &Partition) -> Result<(), AllocError>
    ensures { OnOk result (out.new ≡ out.old ++ texts.leadership_text partition.now) }
{
    let (leader, recovery) = (partition.leader, partition.recovery);
    let (leads, changes) = (partition.leader_epoch, partition.partition_epoch);
    let rest = format!(in alloc;
        " leader {leader} recovery {recovery} epochs {leads} {changes}\n"
    )?;
    put_str(out, rest.as_str())
}

#[tactic(auto, unfolding(crate::specs::DumpText::partition_line))]
pub(crate) fn put_partition(
    alloc: Global,
    out: &mut Bytes,
    topic: &Text,
    key: &(u128, i32),
    partition: &Partition,
) -> Result<(), AllocError>
    ensures { OnOk result (out.new ≡ out.old ++ texts.partition_line topic.now (key.now, partition.now)) }
{
    put_str(out, "partition ")?;
    put_quoted(out, topic)?;
    let index = format!(in alloc; " {}", key.1)?;
    put_str(out, index.as_str())?;
    put_lists(alloc, out, partition)?;
    put_leadership(alloc, out, partition)
}

// Up to the value.
fn put_config_key(alloc: Global, out: &mut Bytes, key: &ConfigKey) -> Result<(), AllocError>
    ensures { OnOk result (out.new ≡ out.old ++ texts.config_key_text key.now) }
{
    let kind = format!(in alloc; "config {} ", key.kind)?;
    put_str(out, kind.as_str())?;
    put_quoted(out, &key.name)?;
    put_str(out, " ")?;
    put_quoted(out, &key.key)
}

pub(crate) fn put_config(
    alloc: Global,
    out: &mut Bytes,
    key: &ConfigKey,
    value: &Text,
) -> Result<(), AllocError>
    ensures { OnOk result (out.new ≡ out.old ++ texts.config_line (key.now, value.now)) }
{
    put_config_key(alloc, out, key)?;
    put_str(out, " ")?;
    put_quoted(out, value)?;
    put_str(out, "\n")
}
