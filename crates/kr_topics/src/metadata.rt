//! The cluster is shown: its brokers, and all topics or those that are asked for.

ghost use Rattle.std.specs.Prelude.{◌≡◌, [], ◌∷◌, pos, IfOk, if◌then◌else◌};
ghost use Rattle.std.specs.Option.{option_copied, option_map_or};
ghost use Rattle.kr_calls.specs.declared.calls.Reply.TheVariants as replies;
ghost use Rattle.kr_calls.specs.Metadata as metadata;

use crate::named_topics::named_topic_rows;
use crate::topic_rows::all_topic_rows;
use kr_base::NoMemory;
use kr_calls::{
    Metadata, MetadataBroker, MetadataBrokers, MetadataReply, MetadataRequestTopics,
    MetadataTopics, Reply,
};
use kr_defs::{Broker, Copied, Endpoint, Options, Text};
use kr_listing::{BrokerPart, gather_brokers};
use kr_store::{Seen, Store};
use std::alloc::Global;

// ---- brokers

fn host_of(alloc: Global, endpoint: Option<&Endpoint>) -> Result<Text, NoMemory>
    ensures { IfOk result (λ host. host ≡ option_map_or (λ e. e.host) (option_copied endpoint.entry) []) }
{
    match endpoint {
        Some(endpoint) => Ok(endpoint.host.copied(alloc)?),
        None => Ok(Text::new(alloc)),
    }
}

fn port_of(endpoint: Option<&Endpoint>) -> i32
    ensures { result ≡ option_map_or (λ e. pos e.port) (option_copied endpoint.entry) (pos 0) }
{
    match endpoint {
        Some(endpoint) => endpoint.port as i32,
        None => 0,
    }
}

// Where clients reach a broker: at its first endpoint.
fn broker_row(alloc: Global, id: &i32, state: &Broker) -> Result<MetadataBroker, NoMemory>
    ensures { IfOk result (λ row. row ≡ metadata.broker_of (id.now, state.now)) }
{
    let endpoint = state.endpoints.as_slice().first();
    let host = host_of(alloc, endpoint)?;
    let port = port_of(endpoint);
    let rack = Copied::copied(&state.rack, alloc)?;
    Ok(MetadataBroker {
        id: *id,
        host,
        port,
        rack,
    })
}

// A broker that isn't fenced.
struct OnlineOnes;

impl BrokerPart<MetadataBroker> for OnlineOnes {
    ghost part = { λ _ e. if metadata.is_online e.1 then metadata.broker_of e ∷ [] else [] };

    fn add(
        &self,
        alloc: Global,
        id: &i32,
        state: &Broker,
        rows: &mut MetadataBrokers,
    ) -> Result<(), NoMemory> {
        if !state.fenced {
            rows.push(broker_row(alloc, id, state)?)?;
        }
        Ok(())
    }
}

#[tactic(auto, using(crate::proofs::MetadataRows::brokers))]
fn online_brokers<S: Store>(alloc: Global, seen: &Seen<S>) -> Result<MetadataBrokers, NoMemory>
    ensures { IfOk result (λ rows. rows ≡ metadata.brokers_of seen.now) }
{
    gather_brokers(alloc, seen, &OnlineOnes)
}

// ---- the reply

// All topics by name, or those that are asked for.
fn topic_rows<S: Store>(
    alloc: Global,
    seen: &Seen<S>,
    asked: &Option<MetadataRequestTopics>,
) -> Result<MetadataTopics, NoMemory>
    ensures { IfOk result (λ rows. rows ≡ metadata.topics_of seen.now asked.now) }
{
    match asked {
        Some(asked) => named_topic_rows(alloc, seen, asked.as_slice()),
        None => all_topic_rows(alloc, seen),
    }
}

// What is shown of the image.
#[tactic(auto, unfolding(kr_calls::specs::Metadata::queried))]
fn reply_of<S: Store>(
    alloc: Global,
    seen: &Seen<S>,
    options: &Options,
    request: &Metadata,
) -> Result<MetadataReply, NoMemory>
    ensures { IfOk result (λ reply. replies.Metadata reply ≡ metadata.queried options.now seen.now request.now) }
{
    let brokers = online_brokers(alloc, seen)?;
    let topics = topic_rows(alloc, seen, &request.topics)?;
    let cluster = options.cluster.copied(alloc)?;
    Ok(MetadataReply {
        brokers,
        cluster: Some(cluster),
        controller: -1,
        topics,
    })
}

/// The brokers that aren't fenced, and all topics or those that are asked for.
pub fn answer<S: Store>(
    alloc: Global,
    seen: &Seen<S>,
    options: &Options,
    request: &Metadata,
) -> Result<Reply, NoMemory>
    ensures { IfOk result (λ reply. reply ≡ metadata.queried options.now seen.now request.now) }
{
    Ok(Reply::Metadata(reply_of(alloc, seen, options, request)?))
}
