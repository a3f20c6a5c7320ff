//! Replies as JSON.

ghost use Rattle.std.specs.Prelude.{◌≡◌};
ghost use Rattle.kr_messages.specs.Forms as forms;
ghost use Rattle.kr_messages.specs.Forms.{reply_form};
ghost use Rattle.kr_messages.specs.Shown.{ShowsReply, response_form, served_form};
ghost use Rattle.kr_messages.specs.inner.Taken.{ShowsMessage, ReadsWhole, both};

use crate::names::CorrelationId;
use crate::object::{End, Member, Object};
use crate::responses::{
    AlterPartitionReassignmentsResponse, AlterPartitionResponse, BrokerHeartbeatResponse,
    BrokerRegistrationResponse, CreatePartitionsResponse, CreateTopicsResponse,
    DeleteTopicsResponse, DescribeTopicPartitionsResponse, ElectLeadersResponse,
    IncrementalAlterConfigsResponse, ListPartitionReassignmentsResponse, MetadataResponse,
    UnregisterBrokerResponse,
};
use crate::shape::{Int16, Int32, Shape};
use crate::{ApiMessageType, MessageFault, Mine};
use kr_defs::Bytes;
use kr_json::put_str;
use kr_layout::{ReadFault, Reader};
use kr_req::ApiKey;
use std::alloc::Global;
use std::marker::PhantomData;

type ResponseHeader = Object<Member<CorrelationId, Int32, End>>;

/// A reply's message: a header, and a body behind it.
struct ResponseMessage<H, B>(PhantomData<(H, B)>);

impl<H: Shape, B: Shape> Shape for ResponseMessage<H, B> {
    ghost form = { forms.response_message_form H.form B.form };

    ghost is_whole = { both H.is_whole B.is_whole };

    #[tactic(auto, using(crate::proofs::Showing::message_taken, crate::proofs::Showing::no_header, crate::proofs::Showing::no_body))]
    fn show(
        alloc: Global,
        from: &mut Reader<'_, Mine>,
        out: &mut Vec<u8>,
    ) -> Result<(), ReadFault> {
        put_str(out, "{\"responseHeader\":")?;
        H::show(alloc, from, out)?;
        put_str(out, ",\"response\":")?;
        B::show(alloc, from, out)?;
        put_str(out, "}")?;
        Ok(())
    }
}

/// An error alone.
struct Alone<T>(PhantomData<T>);

impl<T: Shape> Shape for Alone<T> {
    ghost form = { forms.alone_form T.form };

    ghost is_whole = { T.is_whole };

    #[tactic(auto, using(crate::proofs::Showing::alone_taken))]
    fn show(
        alloc: Global,
        from: &mut Reader<'_, Mine>,
        out: &mut Vec<u8>,
    ) -> Result<(), ReadFault> {
        put_str(out, "{\"errorCode\":")?;
        T::show(alloc, from, out)?;
        put_str(out, "}")?;
        Ok(())
    }
}

type Reply<B> = ResponseMessage<ResponseHeader, B>;

#[tactic(auto, using(crate::proofs::Whole::whole_taken, crate::proofs::Whole::rest_left, crate::proofs::Whole::unread))]
fn show_whole<T: Shape>(alloc: Global, bytes: &[u8]) -> Result<Bytes, MessageFault>
    ensures { ReadsWhole T.form bytes.now result }
{
    let mut from: Reader<'_, Mine> = Reader::new(alloc, bytes, 0);
    let mut out = Vec::new(alloc);
    match T::show(alloc, &mut from, &mut out) {
        Ok(()) => {
            if from.is_empty() {
                return Ok(Bytes::from_vec(out));
            }
            Err(MessageFault::BadMessage)
        }
        Err(ReadFault::Wire(_)) => Err(MessageFault::BadMessage),
        Err(ReadFault::NoMemory) => Err(MessageFault::NoMemory),
    }
}

// The text of the message that all of the bytes are.
fn show_message<T: Shape>(alloc: Global, bytes: &[u8]) -> Result<Bytes, MessageFault>
    ensures { ShowsMessage T.form bytes.now result }
{
    show_whole::<T>(alloc, bytes)
}

// The text of the reply to a request of this key, of the version that is served.
fn served_json(alloc: Global, api: ApiKey, bytes: &[u8]) -> Result<Bytes, MessageFault>
    ensures { ShowsMessage (reply_form (served_form api)) bytes.now result }
{
    match api {
        ApiKey::BrokerRegistration => show_message::<Reply<BrokerRegistrationResponse>>(
            alloc, bytes,
        ),
        ApiKey::BrokerHeartbeat => show_message::<Reply<BrokerHeartbeatResponse>>(alloc, bytes),
        ApiKey::UnregisterBroker => show_message::<Reply<UnregisterBrokerResponse>>(alloc, bytes),
        ApiKey::CreateTopics => show_message::<Reply<CreateTopicsResponse>>(alloc, bytes),
        ApiKey::DeleteTopics => show_message::<Reply<DeleteTopicsResponse>>(alloc, bytes),
        ApiKey::CreatePartitions => show_message::<Reply<CreatePartitionsResponse>>(alloc, bytes),
        ApiKey::AlterPartition => show_message::<Reply<AlterPartitionResponse>>(alloc, bytes),
        ApiKey::ElectLeaders => show_message::<Reply<ElectLeadersResponse>>(alloc, bytes),
        ApiKey::AlterPartitionReassignments => show_message::<
            Reply<AlterPartitionReassignmentsResponse>,
        >(alloc, bytes),
        ApiKey::ListPartitionReassignments => show_message::<
            Reply<ListPartitionReassignmentsResponse>,
        >(alloc, bytes),
        ApiKey::IncrementalAlterConfigs => show_message::<Reply<IncrementalAlterConfigsResponse>>(
            alloc, bytes,
        ),
        ApiKey::Metadata => show_message::<Reply<MetadataResponse>>(alloc, bytes),
    }
}

// The text of the reply to a call.
fn called_json(alloc: Global, asked: ApiMessageType, bytes: &[u8]) -> Result<Bytes, MessageFault>
    ensures { ShowsMessage (reply_form (response_form asked)) bytes.now result }
{
    match asked {
        ApiMessageType::Served(api) => served_json(alloc, api, bytes),
        ApiMessageType::DescribeTopicPartitions => show_message::<
            Reply<DescribeTopicPartitionsResponse>,
        >(alloc, bytes),
    }
}

/// The JSON of the reply to this request that all of the bytes are, a message without its size: an object with the members
/// `responseHeader` and `response`, each as Kafka's JSON converters write it. Where the message was no call, the response is an error
/// alone. Other bytes are refused.
#[tactic(auto, using(crate::proofs::Whole::reply_shown, crate::proofs::Whole::or_bare))]
pub fn reply_json(alloc: Global, asked: ApiMessageType, bytes: &[u8]) -> Result<Bytes, MessageFault>
    ensures { ShowsReply asked bytes.now result }
{
    match called_json(alloc, asked, bytes) {
        Ok(text) => Ok(text),
        Err(MessageFault::BadMessage) => show_message::<Reply<Alone<Int16>>>(alloc, bytes),
        Err(MessageFault::NoMemory) => Err(MessageFault::NoMemory),
    }
}
