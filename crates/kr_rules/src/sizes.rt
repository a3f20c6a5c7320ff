//! The bytes of a record's value, without writing it.

ghost use Rattle.std.specs.Prelude.{pos, negsuc, ◌≡◌, ◌≤◌, ◌<◌, ◌+◌, ◌*◌, ◌∷◌, [], ◌^◌, IfSome, IsNone, Some, None};
ghost use Rattle.kr_defs.specs.declared.limits.TheConstants.{MOST_REQUEST_BYTES as most};
ghost use Rattle.kr_defs.specs.Sizes as sizes;

use kr_defs::limits::MOST_REQUEST_BYTES;
use kr_defs::{Broker, Endpoint, Ids, Partition, PartitionChange, Range, Record, Text};

// A number in groups of seven bits.
fn uvarint_bytes(n: u128) -> u128
    ensures value { result ≡ sizes.uvarint_bytes n }
    ensures few { result ≤ 5 }
{
    if n < 128 {
        1
    } else if n < 16_384 {
        2
    } else if n < 2_097_152 {
        3
    } else if n < 268_435_456 {
        4
    } else {
        5
    }
}

fn text_bytes(text: &Text) -> u128
    ensures value { result ≡ sizes.text_bytes text.now }
    ensures small { result ≤ 2 ^ 64 + 5 }
{
    let count = text.len() as u128;
    uvarint_bytes(count + 1) + count
}

fn text_or_null_bytes(text: &Option<Text>) -> u128
    ensures value { result ≡ sizes.text_or_null_bytes text.now }
    ensures small { result ≤ 2 ^ 64 + 5 }
{
    match text {
        None => 1,
        Some(text) => text_bytes(text),
    }
}

// A list of ids, or of as many elements of 16 bytes.
fn ids_bytes(ids: &Ids) -> u128
    ensures value { result ≡ sizes.list_bytes 4 ids.now }
    ensures small { result ≤ 2 ^ 66 + 5 }
{
    let count = ids.len() as u128;
    uvarint_bytes(count + 1) + 4 * count
}

fn directories_bytes(ids: &Ids) -> u128
    ensures value { result ≡ sizes.list_bytes 16 ids.now }
    ensures small { result ≤ 2 ^ 68 + 5 }
{
    let count = ids.len() as u128;
    uvarint_bytes(count + 1) + 16 * count
}

fn endpoint_bytes(endpoint: &Endpoint) -> u128
    ensures value { result ≡ sizes.text_bytes endpoint.now.name + sizes.text_bytes endpoint.now.host + 2 + 2 + sizes.no_tags_bytes }
    ensures small { result ≤ 2 ^ 66 }
{
    text_bytes(&endpoint.name) + text_bytes(&endpoint.host) + 5
}

fn range_bytes(range: &Range) -> u128
    ensures value { result ≡ sizes.text_bytes range.now.name + 2 + 2 + sizes.no_tags_bytes }
    ensures small { result ≤ 2 ^ 66 }
{
    text_bytes(&range.name) + 5
}

// The bytes of all endpoints, where they aren't too many.
fn endpoints_bytes(endpoints: &[Endpoint]) -> Option<u128>
    ensures some { IfSome result (λ n. (n ≡ sizes.rows_bytes (λ e. sizes.text_bytes e.name + sizes.text_bytes e.host + 2 + 2 + sizes.no_tags_bytes) endpoints.now) × (n ≤ most + 5)) }
    ensures none { IsNone result → most < sizes.rows_bytes (λ e. sizes.text_bytes e.name + sizes.text_bytes e.host + 2 + 2 + sizes.no_tags_bytes) endpoints.now }
{
    let mut total = 0;
    for endpoint in endpoints {
        total += endpoint_bytes(endpoint);
        if total > MOST_REQUEST_BYTES as u128 {
            return None;
        }
    }
    Some(uvarint_bytes(endpoints.len() as u128 + 1) + total)
}

// The bytes of the levels of all features, where they aren't too many.
fn ranges_bytes(ranges: &[Range]) -> Option<u128>
    ensures some { IfSome result (λ n. (n ≡ sizes.rows_bytes
        (λ r. sizes.text_bytes r.name + 2 + 2 + sizes.no_tags_bytes) ranges.now) × (n ≤ most + 5)) }
    ensures none { IsNone result → most < sizes.rows_bytes
        (λ r. sizes.text_bytes r.name + 2 + 2 + sizes.no_tags_bytes) ranges.now }
{
    let mut total = 0;
    for range in ranges {
        total += range_bytes(range);
        if total > MOST_REQUEST_BYTES as u128 {
            return None;
        }
    }
    Some(uvarint_bytes(ranges.len() as u128 + 1) + total)
}

fn registration_bytes(state: &Broker) -> Option<u128>
    ensures some { IfSome result (λ n. (n ≡ sizes.registration_bytes state.now) × (n ≤ 2 ^ 65)) }
    ensures none { IsNone result → most < sizes.registration_bytes state.now }
{
    let endpoints = endpoints_bytes(state.endpoints.as_slice())?;
    let features = ranges_bytes(state.features.as_slice())?;
    Some(31 + endpoints + features + text_or_null_bytes(&state.rack))
}

// ---- tagged fields: each its tag, the size of its data, and the data

fn ids_field(ids: &Ids) -> u128
    ensures value { result ≡ sizes.field_bytes (sizes.ids_field ids.now) }
    ensures small { result ≤ 2 ^ 67 }
{
    if ids.is_empty() {
        return 0;
    }
    let bytes = ids_bytes(ids);
    1 + uvarint_bytes(bytes) + bytes
}

fn ids_field_or(ids: &Option<Ids>) -> u128
    ensures value { result ≡ sizes.field_bytes (sizes.ids_field_or ids.now) }
    ensures small { result ≤ 2 ^ 67 }
{
    match ids {
        None => 0,
        Some(ids) => {
            let bytes = ids_bytes(ids);
            1 + uvarint_bytes(bytes) + bytes
        }
    }
}

// A number of one byte, which is left out at its default.
fn byte_field(default: i8, number: i8) -> u128
    ensures value { result ≡ sizes.field_bytes (sizes.number_field 1 default number) }
    ensures small { result ≤ 3 }
{
    if number == default { 0 } else { 3 }
}

fn recovery_field(recovery: Option<i8>) -> u128
    ensures value { result ≡ sizes.field_bytes (sizes.number_field_or 1 (negsuc 0) recovery) }
    ensures small { result ≤ 3 }
{
    match recovery {
        None => 0,
        Some(recovery) => byte_field(-1, recovery),
    }
}

fn leader_field(leader: Option<i32>) -> u128
    ensures value { result ≡ sizes.field_bytes (sizes.number_field_or 4 (negsuc 1) leader) }
    ensures small { result ≤ 6 }
{
    match leader {
        None => 0,
        Some(leader) => { if leader == -2 { 0 } else { 6 } }
    }
}

// ---- the layouts; the number of tagged fields is one byte

fn lists_bytes(state: &Partition) -> u128
    ensures value { result ≡ sizes.list_bytes 4 state.now.replicas + sizes.list_bytes 4 state.now.in_sync + sizes.list_bytes 4 state.now.removing + sizes.list_bytes 4 state.now.adding }
    ensures small { result ≤ 2 ^ 69 }
{
    ids_bytes(&state.replicas)
        + ids_bytes(&state.in_sync)
        + ids_bytes(&state.removing)
        + ids_bytes(&state.adding)
}

#[tactic(auto, using(crate::proofs::Tags::tags))]
fn partition_tags_bytes(state: &Partition) -> u128
    ensures value { result ≡ sizes.partition_tags_bytes state.now }
    ensures small { result ≤ 2 ^ 69 }
{
    1 + byte_field(0, state.recovery) + ids_field(&state.eligible) + ids_field(&state.last_known)
}

fn partition_bytes(state: &Partition) -> u128
    ensures value { result ≡ sizes.partition_bytes state.now }
    ensures small { result ≤ 2 ^ 72 }
{
    32 + lists_bytes(state) + directories_bytes(&state.replicas) + partition_tags_bytes(state)
}

#[tactic(auto, using(crate::proofs::Tags::tags))]
fn change_tags_bytes(change: &PartitionChange) -> u128
    ensures value { result ≡ sizes.change_tags_bytes change.now }
    ensures small { result ≤ 2 ^ 71 }
{
    1 + ids_field_or(&change.in_sync)
        + leader_field(change.leader)
        + ids_field_or(&change.replicas)
        + ids_field_or(&change.removing)
        + ids_field_or(&change.adding)
        + recovery_field(change.recovery)
        + ids_field_or(&change.eligible)
        + ids_field_or(&change.last_known)
}

fn change_bytes(change: &PartitionChange) -> u128
    ensures value { result ≡ sizes.change_bytes change.now }
    ensures small { result ≤ 2 ^ 72 }
{
    20 + change_tags_bytes(change)
}

#[tactic(auto, using(crate::proofs::Tags::tags))]
fn flags_bytes(fenced: i8, stopping: i8) -> u128
    ensures value { result ≡ sizes.tags_bytes
        (sizes.number_field 1 (pos 0) fenced ∷ sizes.number_field 1 (pos 0) stopping ∷ []) }
    ensures small { result ≤ 7 }
{
    1 + byte_field(0, fenced) + byte_field(0, stopping)
}

// A text that is left out where there is none.
fn text_field(text: &Option<Text>) -> u128
    ensures value { result ≡ sizes.field_bytes (sizes.text_field text.now) }
    ensures small { result ≤ 2 ^ 66 }
{
    match text {
        None => 0,
        Some(text) => {
            let bytes = text_bytes(text);
            1 + uvarint_bytes(bytes) + bytes
        }
    }
}

// A transaction's name, or why it was given up.
#[tactic(auto, using(crate::proofs::Tags::tags))]
fn remark_bytes(text: &Option<Text>) -> u128
    ensures value { result ≡ sizes.tags_bytes (sizes.text_field text.now ∷ []) }
    ensures small { result ≤ 2 ^ 67 }
{
    1 + text_field(text)
}

// The bytes of a record's layout, where they aren't too many.
fn layout_bytes(value: &Record) -> Option<u128>
    ensures some { IfSome result (λ n. (n ≡ sizes.layout_bytes value.now) × (n ≤ 2 ^ 73)) }
    ensures none { IsNone result → most < sizes.layout_bytes value.now }
{
    match value {
        Record::RegisterBroker { state, .. } => registration_bytes(state),
        Record::UnregisterBroker { .. } => Some(13),
        Record::Topic { name, .. } => Some(text_bytes(name) + 17),
        Record::Partition { state, .. } => Some(partition_bytes(state)),
        Record::Config {
            name,
            key,
            value,
            ..
        } => Some(text_bytes(name) + text_bytes(key) + text_or_null_bytes(value) + 2),
        Record::PartitionChange { change, .. } => Some(change_bytes(change)),
        Record::FenceBroker { .. } => Some(13),
        Record::UnfenceBroker { .. } => Some(13),
        Record::RemoveTopic { .. } => Some(17),
        Record::FeatureLevel { name, .. } => Some(text_bytes(name) + 3),
        Record::BrokerRegistrationChange {
            fenced,
            stopping,
            ..
        } => Some(12 + flags_bytes(*fenced, *stopping)),
        Record::NoOp => Some(1),
        Record::BeginTransaction { name } => Some(remark_bytes(name)),
        Record::EndTransaction => Some(1),
        Record::AbortTransaction { reason } => Some(remark_bytes(reason)),
    }
}

/// The bytes of the record's written value, where one request may give as many.
#[tactic(auto, unfolding(kr_defs::specs::Sizes::value_bytes))]
pub fn value_bytes(value: &Record) -> Option<usize>
    ensures some { IfSome result (λ n. (n ≡ sizes.value_bytes value.now) × (n ≤ most)) }
    ensures none { IsNone result → most < sizes.value_bytes value.now }
{
    let bytes = 3 + layout_bytes(value)?;
    if bytes > MOST_REQUEST_BYTES as u128 {
        return None;
    }
    Some(bytes as usize)
}
