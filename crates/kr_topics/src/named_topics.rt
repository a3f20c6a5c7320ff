//! The topics that a reader asks for, by name or by id, each shown once.

ghost use Rattle.std.specs.Prelude.{◌≡◌, ◌∷◌, ◌==◌, [], ℕ, List, Ok, Err, not, IfErr, IfOk, OnOk};
ghost use Rattle.std.specs.List.{list_any};
ghost use Rattle.kr_defs.specs.Guard.{and_then};
ghost use Rattle.kr_calls.specs.Metadata as metadata;
ghost use Rattle.kr_topics.specs.inner.NamedTopics.{Marks};

use crate::naming::is_named_once;
use crate::topic_rows::{refusal_row, topic_row};
use kr_base::NoMemory;
use kr_calls::errors::{INVALID_REQUEST, UNKNOWN_TOPIC_ID, UNKNOWN_TOPIC_OR_PARTITION};
use kr_calls::{MetadataRequestTopic, MetadataTopic, MetadataTopics};
use kr_defs::{Rows, Topic};
use kr_store::{Seen, Store};
use std::alloc::Global;
use std::collections::BTreeSet;

// The ids that were named so far.
type Named = BTreeSet<u128>;

// The topic with this name or this id, or Kafka's error number.
fn find<'a, S: Store>(seen: &Seen<'a, S>, entry: &MetadataRequestTopic) -> Result<&'a Topic, i16>
    ensures some { IfOk result (λ topic. metadata.topic_asked_for seen.now entry.now ≡ Ok (topic.now.name, topic.now.id)) }
    ensures none { IfErr result (λ error. metadata.topic_asked_for seen.now entry.now ≡ Err error) }
{
    if !is_named_once(&entry.name, &entry.topic) {
        return Err(INVALID_REQUEST);
    }
    match &entry.name {
        Some(name) => match seen.topic_named(name) {
            Some(topic) => Ok(topic),
            None => Err(UNKNOWN_TOPIC_OR_PARTITION),
        },
        None => match seen.topic(&entry.topic) {
            Some(topic) => Ok(topic),
            None => Err(UNKNOWN_TOPIC_ID),
        },
    }
}

// The id is named now; whether it is for the first time.
#[tactic(auto, using(crate::proofs::MetadataRows::marking))]
fn mark(named: &mut Named, id: &u128) -> Result<bool, NoMemory>
    ensures new { (ids : List ℕ) → Marks named.old ids → IfOk result (λ new. new ≡ not (list_any (λ i. i == id.now) ids)) }
    ensures marks { (ids : List ℕ) → Marks named.old ids → OnOk result (Marks named.new (id.now ∷ ids)) }
{
    Ok(named.insert(*id)?)
}

// What is shown of an entry behind those that named some topics.
#[tactic(auto, using(crate::proofs::MetadataRows::entries))]
fn entry_row<S: Store>(
    alloc: Global,
    seen: &Seen<S>,
    named: &mut Named,
    entry: &MetadataRequestTopic,
) -> Result<MetadataTopic, NoMemory>
    ensures row { (ids : List ℕ) → Marks named.old ids → IfOk result (λ row. row ≡ metadata.shown seen.now entry.now (and_then (metadata.topic_asked_for seen.now entry.now) (metadata.new_to ids))) }
    ensures named { (ids : List ℕ) → Marks named.old ids → OnOk result (Marks named.new (metadata.seen_with ids (metadata.topic_asked_for seen.now entry.now))) }
{
    match find(seen, entry) {
        Ok(topic) => {
            if mark(named, &topic.id)? {
                topic_row(alloc, seen, &topic.name, &topic.id)
            } else {
                refusal_row(alloc, INVALID_REQUEST, entry)
            }
        }
        Err(error) => refusal_row(alloc, error, entry),
    }
}

/// Each entry in its order; a topic that an earlier one named is refused.
pub(crate) fn named_topic_rows<S: Store>(
    alloc: Global,
    seen: &Seen<S>,
    asked: &[MetadataRequestTopic],
) -> Result<MetadataTopics, NoMemory>
    ensures { IfOk result (λ rows. rows ≡ metadata.topics_named seen.now [] asked.now) }
{
    let mut rows = Rows::new(alloc);
    let mut named = BTreeSet::new(alloc);
    for entry in asked {
        rows.push(entry_row(alloc, seen, &mut named, entry)?)?;
    }
    Ok(rows)
}
