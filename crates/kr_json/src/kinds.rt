//! The data of a record, by its kind.

ghost use Rattle.std.specs.Prelude.{◌≡◌, ◌++◌, codes, flat_map, OnOk};
ghost use Rattle.kr_json.specs.JsonText as texts;
ghost use Rattle.kr_json.specs.Lines as lines;

use crate::members::{
    put_flag, put_i8, put_i16, put_i32, put_i64, put_ids, put_ids_if_any, put_ids_since,
    put_leader, put_leaders_since, put_recovery, put_text, put_text_or_null, put_u16,
    put_unless_zero, put_uuid,
};
use crate::text::put_str;
use kr_defs::{Broker, Endpoint, Partition, PartitionChange, Range, Record, Text};
use std::alloc::{AllocError, Global};

fn put_port(alloc: Global, out: &mut Vec<u8>, endpoint: &Endpoint) -> Result<(), AllocError>
    ensures { OnOk result (out.new.items ≡ out.old.items ++ lines.port endpoint.now) }
{
    put_u16(alloc, out, ",\"port\":", &endpoint.port)?;
    put_i16(alloc, out, ",\"securityProtocol\":", &endpoint.protocol)?;
    Ok(())
}

fn put_endpoint(alloc: Global, out: &mut Vec<u8>, endpoint: &Endpoint) -> Result<(), AllocError>
    ensures { OnOk result (out.new.items ≡ out.old.items ++ lines.endpoint_object endpoint.now) }
{
    put_text(out, "{\"name\":", &endpoint.name)?;
    put_text(out, ",\"host\":", &endpoint.host)?;
    put_port(alloc, out, endpoint)?;
    put_str(out, "}")
}

fn put_further_endpoint(
    alloc: Global,
    out: &mut Vec<u8>,
    endpoint: &Endpoint,
) -> Result<(), AllocError>
    ensures { OnOk result (out.new.items ≡ out.old.items ++ texts.further lines.endpoint_object
        endpoint.now) }
{
    put_str(out, ",")?;
    put_endpoint(alloc, out, endpoint)
}

fn put_further_endpoints(
    alloc: Global,
    out: &mut Vec<u8>,
    endpoints: &[Endpoint],
) -> Result<(), AllocError>
    ensures { OnOk result (out.new.items ≡ out.old.items ++ flat_map (texts.further
        lines.endpoint_object) endpoints.now) }
{
    for endpoint in endpoints {
        put_further_endpoint(alloc, out, endpoint)?;
    }
    Ok(())
}

fn put_endpoints(alloc: Global, out: &mut Vec<u8>, endpoints: &[Endpoint]) -> Result<(), AllocError>
    ensures { OnOk result (out.new.items ≡ out.old.items ++ texts.elements lines.endpoint_object
        endpoints.now) }
{
    match endpoints.split_first() {
        None => Ok(()),
        Some((first, others)) => {
            put_endpoint(alloc, out, first)?;
            put_further_endpoints(alloc, out, others)
        }
    }
}

fn put_levels(alloc: Global, out: &mut Vec<u8>, range: &Range) -> Result<(), AllocError>
    ensures { OnOk result (out.new.items ≡ out.old.items ++ lines.levels range.now) }
{
    put_i16(alloc, out, ",\"minSupportedVersion\":", &range.min)?;
    put_i16(alloc, out, ",\"maxSupportedVersion\":", &range.max)?;
    Ok(())
}

fn put_range(alloc: Global, out: &mut Vec<u8>, range: &Range) -> Result<(), AllocError>
    ensures { OnOk result (out.new.items ≡ out.old.items ++ lines.range_object range.now) }
{
    put_text(out, "{\"name\":", &range.name)?;
    put_levels(alloc, out, range)?;
    put_str(out, "}")
}

fn put_further_range(alloc: Global, out: &mut Vec<u8>, range: &Range) -> Result<(), AllocError>
    ensures { OnOk result (out.new.items ≡ out.old.items ++ texts.further lines.range_object
        range.now) }
{
    put_str(out, ",")?;
    put_range(alloc, out, range)
}

fn put_further_ranges(alloc: Global, out: &mut Vec<u8>, ranges: &[Range]) -> Result<(), AllocError>
    ensures { OnOk result (out.new.items ≡ out.old.items ++ flat_map (texts.further
        lines.range_object) ranges.now) }
{
    for range in ranges {
        put_further_range(alloc, out, range)?;
    }
    Ok(())
}

fn put_ranges(alloc: Global, out: &mut Vec<u8>, ranges: &[Range]) -> Result<(), AllocError>
    ensures { OnOk result (out.new.items ≡ out.old.items ++ texts.elements lines.range_object
        ranges.now) }
{
    match ranges.split_first() {
        None => Ok(()),
        Some((first, others)) => {
            put_range(alloc, out, first)?;
            put_further_ranges(alloc, out, others)
        }
    }
}

fn put_process(
    alloc: Global,
    out: &mut Vec<u8>,
    broker: &i32,
    state: &Broker,
) -> Result<(), AllocError>
    ensures { OnOk result (out.new.items ≡ out.old.items ++ lines.process broker.now state.now) }
{
    put_i32(alloc, out, "{\"brokerId\":", broker)?;
    put_uuid(alloc, out, ",\"incarnationId\":", &state.incarnation)?;
    put_i64(alloc, out, ",\"brokerEpoch\":", &state.epoch)
}

fn put_endpoint_list(alloc: Global, out: &mut Vec<u8>, state: &Broker) -> Result<(), AllocError>
    ensures { OnOk result (out.new.items ≡ out.old.items ++ lines.endpoint_list state.now) }
{
    put_str(out, ",\"endPoints\":[")?;
    put_endpoints(alloc, out, state.endpoints.as_slice())?;
    put_str(out, "]")?;
    Ok(())
}

fn put_feature_list(alloc: Global, out: &mut Vec<u8>, state: &Broker) -> Result<(), AllocError>
    ensures { OnOk result (out.new.items ≡ out.old.items ++ lines.feature_list state.now) }
{
    put_str(out, ",\"features\":[")?;
    put_ranges(alloc, out, state.features.as_slice())?;
    put_str(out, "]")
}

fn put_listeners(alloc: Global, out: &mut Vec<u8>, state: &Broker) -> Result<(), AllocError>
    ensures { OnOk result (out.new.items ≡ out.old.items ++ lines.listeners state.now) }
{
    put_endpoint_list(alloc, out, state)?;
    put_feature_list(alloc, out, state)?;
    put_text_or_null(out, ",\"rack\":", &state.rack)
}

fn put_stopping(out: &mut Vec<u8>, version: u32, state: &Broker) -> Result<(), AllocError>
    ensures { OnOk result (out.new.items ≡
        out.old.items ++ lines.since 1 version (codes ",\"inControlledShutdown\":" ++
        texts.boolean state.now.stopping)) }
{
    if version < 1 {
        return Ok(());
    }
    put_flag(out, ",\"inControlledShutdown\":", state.stopping)
}

fn put_register_broker(
    alloc: Global,
    out: &mut Vec<u8>,
    version: u32,
    broker: &i32,
    state: &Broker,
) -> Result<(), AllocError>
    ensures { OnOk result (out.new.items ≡ out.old.items ++ lines.register_broker_data version
        broker.now state.now) }
{
    put_process(alloc, out, broker, state)?;
    put_listeners(alloc, out, state)?;
    put_flag(out, ",\"fenced\":", state.fenced)?;
    put_stopping(out, version, state)?;
    put_str(out, "}")
}

fn put_unregister_broker(
    alloc: Global,
    out: &mut Vec<u8>,
    broker: &i32,
    epoch: &i64,
) -> Result<(), AllocError>
    ensures { OnOk result (out.new.items ≡ out.old.items ++ lines.unregister_broker_data
        broker.now epoch.now) }
{
    put_i32(alloc, out, "{\"brokerId\":", broker)?;
    put_i64(alloc, out, ",\"brokerEpoch\":", epoch)?;
    put_str(out, "}")
}

fn put_topic(alloc: Global, out: &mut Vec<u8>, name: &Text, id: &u128) -> Result<(), AllocError>
    ensures { OnOk result (out.new.items ≡ out.old.items ++ lines.topic_data name.now id.now) }
{
    put_text(out, "{\"name\":", name)?;
    put_uuid(alloc, out, ",\"topicId\":", id)?;
    put_str(out, "}")
}

fn put_partition_key(
    alloc: Global,
    out: &mut Vec<u8>,
    index: &i32,
    topic: &u128,
) -> Result<(), AllocError>
    ensures { OnOk result (out.new.items ≡ out.old.items ++ lines.partition_key index.now
        topic.now) }
{
    put_i32(alloc, out, "{\"partitionId\":", index)?;
    put_uuid(alloc, out, ",\"topicId\":", topic)
}

fn put_replicas(alloc: Global, out: &mut Vec<u8>, state: &Partition) -> Result<(), AllocError>
    ensures { OnOk result (out.new.items ≡ out.old.items ++ lines.replicas state.now) }
{
    put_ids(alloc, out, ",\"replicas\":", &state.replicas)?;
    put_ids(alloc, out, ",\"isr\":", &state.in_sync)?;
    put_ids(alloc, out, ",\"removingReplicas\":", &state.removing)?;
    put_ids(alloc, out, ",\"addingReplicas\":", &state.adding)
}

fn put_epochs(alloc: Global, out: &mut Vec<u8>, state: &Partition) -> Result<(), AllocError>
    ensures { OnOk result (out.new.items ≡ out.old.items ++ lines.epochs state.now) }
{
    put_i32(alloc, out, ",\"leaderEpoch\":", &state.leader_epoch)?;
    put_i32(alloc, out, ",\"partitionEpoch\":", &state.partition_epoch)?;
    Ok(())
}

fn put_leadership(alloc: Global, out: &mut Vec<u8>, state: &Partition) -> Result<(), AllocError>
    ensures { OnOk result (out.new.items ≡ out.old.items ++ lines.leadership state.now) }
{
    put_i32(alloc, out, ",\"leader\":", &state.leader)?;
    put_unless_zero(alloc, out, ",\"leaderRecoveryState\":", &state.recovery)?;
    put_epochs(alloc, out, state)?;
    Ok(())
}

fn put_eligible(
    alloc: Global,
    out: &mut Vec<u8>,
    version: u32,
    state: &Partition,
) -> Result<(), AllocError>
    ensures { OnOk result (out.new.items ≡ out.old.items ++ lines.eligible version state.now) }
{
    put_leaders_since(
        alloc,
        out,
        version >= 2,
        ",\"eligibleLeaderReplicas\":",
        &state.eligible,
    )?;
    put_leaders_since(
        alloc,
        out,
        version >= 2,
        ",\"lastKnownElr\":",
        &state.last_known,
    )
}

fn put_partition(
    alloc: Global,
    out: &mut Vec<u8>,
    version: u32,
    index: &i32,
    topic: &u128,
    state: &Partition,
) -> Result<(), AllocError>
    ensures { OnOk result (out.new.items ≡ out.old.items ++ lines.partition_data version index.now
        topic.now state.now) }
{
    put_partition_key(alloc, out, index, topic)?;
    put_replicas(alloc, out, state)?;
    put_leadership(alloc, out, state)?;
    put_eligible(alloc, out, version, state)?;
    put_str(out, "}")
}

fn put_resource(alloc: Global, out: &mut Vec<u8>, kind: &i8, name: &Text) -> Result<(), AllocError>
    ensures { OnOk result (out.new.items ≡ out.old.items ++ lines.resource kind.now name.now) }
{
    put_i8(alloc, out, "{\"resourceType\":", kind)?;
    put_text(out, ",\"resourceName\":", name)?;
    Ok(())
}

fn put_config(
    alloc: Global,
    out: &mut Vec<u8>,
    kind: &i8,
    name: &Text,
    key: &Text,
    value: &Option<Text>,
) -> Result<(), AllocError>
    ensures { OnOk result (out.new.items ≡ out.old.items ++ lines.config_data kind.now name.now
        key.now value.now) }
{
    put_resource(alloc, out, kind, name)?;
    put_text(out, ",\"name\":", key)?;
    put_text_or_null(out, ",\"value\":", value)?;
    put_str(out, "}")
}

fn put_changed_leadership(
    alloc: Global,
    out: &mut Vec<u8>,
    change: &PartitionChange,
) -> Result<(), AllocError>
    ensures { OnOk result (out.new.items ≡ out.old.items ++ lines.changed_leadership change.now) }
{
    put_ids_if_any(alloc, out, ",\"isr\":", &change.in_sync)?;
    put_leader(alloc, out, ",\"leader\":", &change.leader)
}

fn put_changed_replicas(
    alloc: Global,
    out: &mut Vec<u8>,
    change: &PartitionChange,
) -> Result<(), AllocError>
    ensures { OnOk result (out.new.items ≡ out.old.items ++ lines.changed_replicas change.now) }
{
    put_ids_if_any(alloc, out, ",\"replicas\":", &change.replicas)?;
    put_ids_if_any(alloc, out, ",\"removingReplicas\":", &change.removing)?;
    put_ids_if_any(alloc, out, ",\"addingReplicas\":", &change.adding)
}

fn put_changed_eligible(
    alloc: Global,
    out: &mut Vec<u8>,
    version: u32,
    change: &PartitionChange,
) -> Result<(), AllocError>
    ensures { OnOk result (out.new.items ≡ out.old.items ++ lines.changed_eligible version
        change.now) }
{
    put_ids_since(
        alloc,
        out,
        version >= 2,
        ",\"eligibleLeaderReplicas\":",
        &change.eligible,
    )?;
    put_ids_since(
        alloc,
        out,
        version >= 2,
        ",\"lastKnownElr\":",
        &change.last_known,
    )
}

fn put_changed_parts(
    alloc: Global,
    out: &mut Vec<u8>,
    change: &PartitionChange,
) -> Result<(), AllocError>
    ensures { OnOk result (out.new.items ≡ out.old.items ++ lines.changed_parts change.now) }
{
    put_changed_leadership(alloc, out, change)?;
    put_changed_replicas(alloc, out, change)?;
    put_recovery(alloc, out, ",\"leaderRecoveryState\":", &change.recovery)
}

fn put_partition_change(
    alloc: Global,
    out: &mut Vec<u8>,
    version: u32,
    index: &i32,
    topic: &u128,
    change: &PartitionChange,
) -> Result<(), AllocError>
    ensures { OnOk result (out.new.items ≡
        out.old.items ++ lines.partition_change_data version index.now topic.now change.now) }
{
    put_partition_key(alloc, out, index, topic)?;
    put_changed_parts(alloc, out, change)?;
    put_changed_eligible(alloc, out, version, change)?;
    put_str(out, "}")
}

fn put_fencing(
    alloc: Global,
    out: &mut Vec<u8>,
    broker: &i32,
    epoch: &i64,
) -> Result<(), AllocError>
    ensures { OnOk result (out.new.items ≡ out.old.items ++ lines.fencing_data broker.now
        epoch.now) }
{
    put_i32(alloc, out, "{\"id\":", broker)?;
    put_i64(alloc, out, ",\"epoch\":", epoch)?;
    put_str(out, "}")
}

fn put_remove_topic(alloc: Global, out: &mut Vec<u8>, topic: &u128) -> Result<(), AllocError>
    ensures { OnOk result (out.new.items ≡ out.old.items ++ lines.remove_topic_data topic.now) }
{
    put_uuid(alloc, out, "{\"topicId\":", topic)?;
    put_str(out, "}")
}

fn put_feature_level(
    alloc: Global,
    out: &mut Vec<u8>,
    name: &Text,
    level: &i16,
) -> Result<(), AllocError>
    ensures { OnOk result (out.new.items ≡ out.old.items ++ lines.feature_level_data name.now
        level.now) }
{
    put_text(out, "{\"name\":", name)?;
    put_i16(alloc, out, ",\"featureLevel\":", level)?;
    put_str(out, "}")
}

fn put_stopping_since(
    alloc: Global,
    out: &mut Vec<u8>,
    version: u32,
    stopping: &i8,
) -> Result<(), AllocError>
    ensures { OnOk result (out.new.items ≡
        out.old.items ++ lines.since 1 version (lines.unless_zero
        (codes ",\"inControlledShutdown\":") stopping.now)) }
{
    if version < 1 {
        return Ok(());
    }
    put_unless_zero(alloc, out, ",\"inControlledShutdown\":", stopping)
}

fn put_broker_registration_change(
    alloc: Global,
    out: &mut Vec<u8>,
    version: u32,
    broker: &i32,
    epoch: &i64,
    fenced: &i8,
    stopping: &i8,
) -> Result<(), AllocError>
    ensures { OnOk result (out.new.items ≡ out.old.items ++
        lines.broker_registration_change_data version broker.now epoch.now fenced.now
        stopping.now) }
{
    put_i32(alloc, out, "{\"brokerId\":", broker)?;
    put_i64(alloc, out, ",\"brokerEpoch\":", epoch)?;
    put_unless_zero(alloc, out, ",\"fenced\":", fenced)?;
    put_stopping_since(alloc, out, version, stopping)?;
    put_str(out, "}")
}

fn put_remark(out: &mut Vec<u8>, name: &str, text: &Option<Text>) -> Result<(), AllocError>
    ensures { OnOk result (out.new.items ≡ out.old.items ++ lines.remark_data name.now text.now) }
{
    match text {
        None => put_str(out, "{}"),
        Some(text) => {
            put_text(out, name, text)?;
            put_str(out, "}")
        }
    }
}

/// The name of the record's kind.
pub(crate) fn kind_name(value: &Record) -> &'static str
    ensures { result.now ≡ lines.kind_name value.now }
{
    match value {
        Record::RegisterBroker { .. } => "REGISTER_BROKER_RECORD",
        Record::UnregisterBroker { .. } => "UNREGISTER_BROKER_RECORD",
        Record::Topic { .. } => "TOPIC_RECORD",
        Record::Partition { .. } => "PARTITION_RECORD",
        Record::Config { .. } => "CONFIG_RECORD",
        Record::PartitionChange { .. } => "PARTITION_CHANGE_RECORD",
        Record::FenceBroker { .. } => "FENCE_BROKER_RECORD",
        Record::UnfenceBroker { .. } => "UNFENCE_BROKER_RECORD",
        Record::RemoveTopic { .. } => "REMOVE_TOPIC_RECORD",
        Record::FeatureLevel { .. } => "FEATURE_LEVEL_RECORD",
        Record::BrokerRegistrationChange { .. } => "BROKER_REGISTRATION_CHANGE_RECORD",
        Record::NoOp => "NO_OP_RECORD",
        Record::BeginTransaction { .. } => "BEGIN_TRANSACTION_RECORD",
        Record::EndTransaction => "END_TRANSACTION_RECORD",
        Record::AbortTransaction { .. } => "ABORT_TRANSACTION_RECORD",
    }
}

/// The record's data, as an object.
#[tactic(auto, unfolding(crate::specs::Lines::data_text))]
pub(crate) fn put_data(
    alloc: Global,
    out: &mut Vec<u8>,
    version: u32,
    value: &Record,
) -> Result<(), AllocError>
    ensures { OnOk result (out.new.items ≡ out.old.items ++ lines.data_text version value.now) }
{
    match value {
        Record::RegisterBroker { broker, state } => {
            put_register_broker(alloc, out, version, broker, state)
        }
        Record::UnregisterBroker { broker, epoch } => {
            put_unregister_broker(alloc, out, broker, epoch)
        }
        Record::Topic { name, id } => put_topic(alloc, out, name, id),
        Record::Partition {
            index,
            topic,
            state,
        } => put_partition(alloc, out, version, index, topic, state),
        Record::Config {
            kind,
            name,
            key,
            value,
        } => put_config(alloc, out, kind, name, key, value),
        Record::PartitionChange {
            index,
            topic,
            change,
        } => put_partition_change(alloc, out, version, index, topic, change),
        Record::FenceBroker { broker, epoch } => put_fencing(alloc, out, broker, epoch),
        Record::UnfenceBroker { broker, epoch } => put_fencing(alloc, out, broker, epoch),
        Record::RemoveTopic { topic } => put_remove_topic(alloc, out, topic),
        Record::FeatureLevel { name, level } => put_feature_level(alloc, out, name, level),
        Record::BrokerRegistrationChange {
            broker,
            epoch,
            fenced,
            stopping,
        } => put_broker_registration_change(alloc, out, version, broker, epoch, fenced, stopping),
        Record::BeginTransaction { name } => put_remark(out, "{\"name\":", name),
        Record::AbortTransaction { reason } => put_remark(out, "{\"reason\":", reason),
        Record::NoOp | Record::EndTransaction => put_str(out, "{}"),
    }
}
