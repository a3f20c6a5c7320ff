//! A request's message, from JSON.

ghost use Rattle.std.specs.Prelude.{◌≡◌, codes};
ghost use Rattle.serde_json.specs.Read.{read};
ghost use Rattle.serde_json.specs.View.{view};
ghost use Rattle.kr_request_json.specs.declared.fault.RequestFault.TheVariants as faults;
ghost use Rattle.kr_request_json.specs.Inputs.{int16_of, member_of, message_input};
ghost use Rattle.kr_messages.specs.declared.message_type.ApiMessageType.TheVariants as types;
ghost use Rattle.kr_request_json.specs.Messages.{IsAnswerTo, bytes_for, json_of, message_for, message_of_text, numbers_of, or_fault, request_for, type_for};
ghost use Rattle.kr_request_json.specs.inner.Steps.{AnswersSeen};

use crate::fault::{PartFault, RequestFault};
use crate::names;
use crate::object::{End, Member, MessageEnd};
use crate::part::{ClientId, Int16, Int32, Part, as_i16};
use crate::requests::{
    AlterPartitionReassignmentsRequest, AlterPartitionRequest, BrokerHeartbeatRequest,
    BrokerRegistrationRequest, CreatePartitionsRequest, CreateTopicsRequest, DeleteTopicsRequest,
    DescribeTopicPartitionsRequest, ElectLeadersRequest, IncrementalAlterConfigsRequest,
    ListPartitionReassignmentsRequest, MetadataRequest, UnregisterBrokerRequest,
};
use kr_defs::Bytes;
use kr_messages::ApiMessageType;
use kr_req::ApiKey;
use serde_json::{Error, Value};
use std::alloc::Global;

type RequestHeader = Member<
    names::RequestApiKey,
    Int16,
    Member<
        names::RequestApiVersion,
        Int16,
        Member<names::CorrelationId, Int32, Member<names::ClientId, ClientId, End>>,
    >,
>;

type Message<B> = Member<
    names::RequestHeader,
    RequestHeader,
    Member<names::Request, B, MessageEnd>,
>;

// ---- the text

fn read_text(alloc: Global, text: &str) -> Result<Value, RequestFault>
    ensures { AnswersSeen view result (or_fault faults.NotJson (read text.now)) }
{
    match Value::from_str(alloc, text) {
        Ok(json) => Ok(json),
        Err(error) => {
            if error.is_memory() {
                return Err(RequestFault::NoMemory);
            }
            Err(RequestFault::NotJson)
        }
    }
}

// The JSON that the text is.
#[tactic(auto, using(crate::proofs::Texts::text_read, crate::proofs::Texts::text_unread))]
fn read_json(alloc: Global, text: &[u8]) -> Result<Value, RequestFault>
    ensures { AnswersSeen view result (or_fault faults.NotJson (json_of text.now)) }
{
    match str::from_utf8(text) {
        Ok(text) => read_text(alloc, text),
        Err(_) => Err(RequestFault::NotJson),
    }
}

// ---- the header

fn int16_field(json: &Value, name: &str) -> Option<i16>
    ensures { result ≡ member_of name.now int16_of (view json.now) }
{
    as_i16(json.get(name)?)
}

fn numbers(header: &Value) -> Option<(i16, i16)>
    ensures { result ≡ numbers_of (view header.now) }
{
    let key = int16_field(header, "requestApiKey")?;
    let version = int16_field(header, "requestApiVersion")?;
    Some((key, version))
}

fn header_numbers(json: &Value) -> Option<(i16, i16)>
    ensures { result ≡ member_of (codes "requestHeader") numbers_of (view json.now) }
{
    numbers(json.get("requestHeader")?)
}

// Which request it is.
fn read_type(json: &Value) -> Result<ApiMessageType, RequestFault>
    ensures { result ≡ type_for (view json.now) }
{
    let Some((key, version)) = header_numbers(json) else {
        return Err(RequestFault::BadField);
    };
    match ApiMessageType::known_by(key, version) {
        Some(request) => Ok(request),
        None => Err(RequestFault::UnknownRequest),
    }
}

// ---- the message

#[tactic(auto, using(crate::proofs::Fields::message_put, crate::proofs::Fields::message_refused))]
fn put_message<B: Part>(alloc: Global, json: &Value) -> Result<Bytes, RequestFault>
    ensures { IsAnswerTo result (bytes_for (message_input B.input) (view json.now)) }
{
    let mut out = Vec::new(alloc);
    match <Message<B> as Part>::put(alloc, json, &mut out) {
        Ok(()) => Ok(Bytes::from_vec(out)),
        Err(PartFault::BadField) => Err(RequestFault::BadField),
        Err(PartFault::NoMemory) => Err(RequestFault::NoMemory),
    }
}

#[tactic(auto, unfolding(crate::specs::Messages::message_for))]
fn put_served(alloc: Global, api: ApiKey, json: &Value) -> Result<Bytes, RequestFault>
    ensures { IsAnswerTo result (message_for (view json.now) (types.Served api)) }
{
    match api {
        ApiKey::BrokerRegistration => put_message::<BrokerRegistrationRequest>(alloc, json),
        ApiKey::BrokerHeartbeat => put_message::<BrokerHeartbeatRequest>(alloc, json),
        ApiKey::UnregisterBroker => put_message::<UnregisterBrokerRequest>(alloc, json),
        ApiKey::CreateTopics => put_message::<CreateTopicsRequest>(alloc, json),
        ApiKey::DeleteTopics => put_message::<DeleteTopicsRequest>(alloc, json),
        ApiKey::CreatePartitions => put_message::<CreatePartitionsRequest>(alloc, json),
        ApiKey::AlterPartition => put_message::<AlterPartitionRequest>(alloc, json),
        ApiKey::ElectLeaders => put_message::<ElectLeadersRequest>(alloc, json),
        ApiKey::AlterPartitionReassignments => put_message::<AlterPartitionReassignmentsRequest>(
            alloc, json,
        ),
        ApiKey::ListPartitionReassignments => put_message::<ListPartitionReassignmentsRequest>(
            alloc, json,
        ),
        ApiKey::IncrementalAlterConfigs => put_message::<IncrementalAlterConfigsRequest>(
            alloc, json,
        ),
        ApiKey::Metadata => put_message::<MetadataRequest>(alloc, json),
    }
}

#[tactic(auto, unfolding(crate::specs::Messages::message_for))]
fn put_known(alloc: Global, request: ApiMessageType, json: &Value) -> Result<Bytes, RequestFault>
    ensures { IsAnswerTo result (message_for (view json.now) request) }
{
    match request {
        ApiMessageType::Served(api) => put_served(alloc, api, json),
        ApiMessageType::DescribeTopicPartitions => put_message::<DescribeTopicPartitionsRequest>(
            alloc, json,
        ),
    }
}

// The message of a request's JSON.
#[tactic(auto, using(crate::proofs::Asked::known, crate::proofs::Asked::unknown))]
fn put_request(alloc: Global, json: &Value) -> Result<Bytes, RequestFault>
    ensures { IsAnswerTo result (request_for (view json.now)) }
{
    match read_type(json) {
        Ok(request) => put_known(alloc, request, json),
        Err(fault) => Err(fault),
    }
}

/// The message, without its size, of the request that the text is in JSON: an object with the members `requestHeader` and `request`,
/// each as Kafka's JSON converters read it. A field of the version that is known is mandatory, any other member is passed over.
/// Refused is a text that is no JSON, then a key and version that aren't known, then a field that is absent or has no value of its
/// type; key and version are fields that are looked at before that.
#[tactic(auto, using(crate::proofs::Asked::asked, crate::proofs::Asked::unread))]
pub fn request_bytes(alloc: Global, text: &[u8]) -> Result<Bytes, RequestFault>
    ensures { IsAnswerTo result (message_of_text text.now) }
{
    match read_json(alloc, text) {
        Ok(json) => put_request(alloc, &json),
        Err(fault) => Err(fault),
    }
}
