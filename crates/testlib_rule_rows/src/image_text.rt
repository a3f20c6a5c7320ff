//! An image in words: what its walks pass, each entry as it is looked up.

use crate::answers::Answers;
use kr_defs::{Broker, ConfigKey, Endpoint, Partition, Range, Text};
use kr_image::ImageStore;
use kr_store::{At, Store};
use std::alloc::{AllocError, Global};
use testlib_rule_answers::partition_text;
use testlib_words::{bool_word, halves};

// A walk passes at most so many entries.
const MOST_ENTRIES: u32 = 20_000;

/// The entries of the image at this place, in the order of their kinds and keys. Where the place is an epoch that isn't
/// kept there are none.
pub(crate) fn tell_image(
    alloc: Global,
    store: &ImageStore,
    at: At,
    answers: &mut Answers,
) -> Result<(), AllocError> {
    tell_features(alloc, store, at, answers)?;
    tell_brokers(alloc, store, at, answers)?;
    tell_topics(alloc, store, at, answers)?;
    tell_partitions(alloc, store, at, answers)?;
    tell_configs(alloc, store, at, answers)
}

fn tell_features(
    alloc: Global,
    store: &ImageStore,
    at: At,
    answers: &mut Answers,
) -> Result<(), AllocError> {
    let mut after = None;
    for _entry in 0..MOST_ENTRIES {
        let Ok(Some((name, _))) = store.next_feature(at, after) else {
            break;
        };
        tell_feature(alloc, store, at, name, answers)?;
        after = Some(name);
    }
    Ok(())
}

fn tell_feature(
    alloc: Global,
    store: &ImageStore,
    at: At,
    name: &Text,
    answers: &mut Answers,
) -> Result<(), AllocError> {
    match store.feature(at, name) {
        Ok(Some(level)) => {
            answers.begin()?;
            push_named("feature", name.as_str(), answers)?;
            answers.push_number(alloc, "", i64::from(*level))
        }
        _ => Ok(()),
    }
}

// A word, a name in quotes, and a space.
fn push_named(word: &str, name: &str, answers: &mut Answers) -> Result<(), AllocError> {
    answers.push_all(&[word, " \"", name, "\" "])
}

fn tell_brokers(
    alloc: Global,
    store: &ImageStore,
    at: At,
    answers: &mut Answers,
) -> Result<(), AllocError> {
    let mut after = None;
    for _entry in 0..MOST_ENTRIES {
        let Ok(Some((id, _))) = store.next_broker(at, after) else {
            break;
        };
        tell_broker(alloc, store, at, *id, answers)?;
        after = Some(id);
    }
    Ok(())
}

fn tell_broker(
    alloc: Global,
    store: &ImageStore,
    at: At,
    id: i32,
    answers: &mut Answers,
) -> Result<(), AllocError> {
    match store.broker(at, id) {
        Ok(Some(broker)) => {
            answers.begin()?;
            push_broker(alloc, id, broker, answers)
        }
        _ => Ok(()),
    }
}

fn push_broker(
    alloc: Global,
    id: i32,
    broker: &Broker,
    answers: &mut Answers,
) -> Result<(), AllocError> {
    answers.push_number(alloc, "broker ", i64::from(id))?;
    push_registration(alloc, broker, answers)?;
    push_endpoints(alloc, broker.endpoints.as_slice(), answers)?;
    push_ranges(alloc, broker.features.as_slice(), answers)
}

// Its epoch and incarnation, whether it is fenced and stopping, and its rack.
fn push_registration(
    alloc: Global,
    broker: &Broker,
    answers: &mut Answers,
) -> Result<(), AllocError> {
    answers.push_number(alloc, " epoch ", broker.epoch)?;
    answers.push(" ")?;
    push_id(alloc, broker.incarnation, answers)?;
    push_state(broker, answers)
}

// The high and the low 64 bits.
fn push_id(alloc: Global, id: u128, answers: &mut Answers) -> Result<(), AllocError> {
    let (high, low) = halves(id);
    answers.push(&format!(in alloc; "{high}:{low}")?)
}

// Whether it is fenced and stopping, and its rack.
fn push_state(broker: &Broker, answers: &mut Answers) -> Result<(), AllocError> {
    let (fenced, stopping) = (bool_word(broker.fenced), bool_word(broker.stopping));
    answers.push_all(&[" fenced ", fenced, " stopping ", stopping, " "])?;
    match &broker.rack {
        Some(rack) => push_named("rack", rack.as_str(), answers),
        None => answers.push("rack - "),
    }
}

// Each behind a space.
fn push_endpoints(
    alloc: Global,
    endpoints: &[Endpoint],
    answers: &mut Answers,
) -> Result<(), AllocError> {
    answers.push("listeners")?;
    for endpoint in endpoints {
        push_endpoint(alloc, endpoint, answers)?;
    }
    Ok(())
}

fn push_endpoint(
    alloc: Global,
    endpoint: &Endpoint,
    answers: &mut Answers,
) -> Result<(), AllocError> {
    answers.push_all(&[" ", endpoint.name.as_str(), "@", endpoint.host.as_str()])?;
    answers.push_number(alloc, ":", i64::from(endpoint.port))?;
    answers.push_number(alloc, "/", i64::from(endpoint.protocol))
}

// Each behind a space.
fn push_ranges(alloc: Global, ranges: &[Range], answers: &mut Answers) -> Result<(), AllocError> {
    answers.push(" features")?;
    for range in ranges {
        push_range(alloc, range, answers)?;
    }
    Ok(())
}

fn push_range(alloc: Global, range: &Range, answers: &mut Answers) -> Result<(), AllocError> {
    answers.push_all(&[" ", range.name.as_str()])?;
    answers.push_number(alloc, "@", i64::from(range.min))?;
    answers.push_number(alloc, ":", i64::from(range.max))
}

fn tell_topics(
    alloc: Global,
    store: &ImageStore,
    at: At,
    answers: &mut Answers,
) -> Result<(), AllocError> {
    let mut after = None;
    for _entry in 0..MOST_ENTRIES {
        let Ok(Some((name, topic))) = store.next_topic(at, after) else {
            break;
        };
        tell_topic(alloc, store, at, name, topic.id, answers)?;
        after = Some(name);
    }
    Ok(())
}

// The name by the id, and the id by the name.
fn tell_topic(
    alloc: Global,
    store: &ImageStore,
    at: At,
    name: &Text,
    id: u128,
    answers: &mut Answers,
) -> Result<(), AllocError> {
    let Ok(Some(named)) = store.topic_named(at, name) else {
        return Ok(());
    };
    let Ok(Some(by_id)) = store.topic(at, id) else {
        return Ok(());
    };
    answers.begin()?;
    push_named("topic", by_id.name.as_str(), answers)?;
    push_id(alloc, named.id, answers)
}

fn tell_partitions(
    alloc: Global,
    store: &ImageStore,
    at: At,
    answers: &mut Answers,
) -> Result<(), AllocError> {
    let mut after = None;
    for _entry in 0..MOST_ENTRIES {
        let Ok(Some((key, _))) = store.next_partition(at, after) else {
            break;
        };
        tell_partition(alloc, store, at, key, answers)?;
        after = Some(key);
    }
    Ok(())
}

fn tell_partition(
    alloc: Global,
    store: &ImageStore,
    at: At,
    key: &(u128, i32),
    answers: &mut Answers,
) -> Result<(), AllocError> {
    match store.partition(at, key.0, key.1) {
        Ok(Some(partition)) => {
            answers.add("partition ")?;
            push_placed(alloc, key, partition, answers)
        }
        _ => Ok(()),
    }
}

fn push_placed(
    alloc: Global,
    key: &(u128, i32),
    partition: &Partition,
    answers: &mut Answers,
) -> Result<(), AllocError> {
    push_id(alloc, key.0, answers)?;
    answers.push_number(alloc, " ", i64::from(key.1))?;
    let state = partition_text(alloc, partition)?;
    answers.push_all(&[" ", &state])
}

fn tell_configs(
    alloc: Global,
    store: &ImageStore,
    at: At,
    answers: &mut Answers,
) -> Result<(), AllocError> {
    let mut after = None;
    for _entry in 0..MOST_ENTRIES {
        let Ok(Some((key, _))) = store.next_config(at, after) else {
            break;
        };
        tell_config(alloc, store, at, key, answers)?;
        after = Some(key);
    }
    Ok(())
}

fn tell_config(
    alloc: Global,
    store: &ImageStore,
    at: At,
    key: &ConfigKey,
    answers: &mut Answers,
) -> Result<(), AllocError> {
    match store.config(at, key) {
        Ok(Some(value)) => {
            answers.begin()?;
            push_config(alloc, key, value.as_str(), answers)
        }
        _ => Ok(()),
    }
}

fn push_config(
    alloc: Global,
    key: &ConfigKey,
    value: &str,
    answers: &mut Answers,
) -> Result<(), AllocError> {
    answers.push_number(alloc, "config ", i64::from(key.kind))?;
    let (name, of) = (key.name.as_str(), key.key.as_str());
    answers.push_all(&[" \"", name, "\" \"", of, "\" \"", value, "\""])
}
