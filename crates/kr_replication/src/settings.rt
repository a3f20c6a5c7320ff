//! The two settings that elections follow.

ghost use Rattle.std.specs.Prelude.{◌≡◌, [], IfOk, option_and_then};
ghost use Rattle.std.specs.Option.{option_copied};
ghost use Rattle.kr_defs.specs.Apply.{topic_kind, broker_kind};
ghost use Rattle.kr_defs.specs.Settings as settings;

use kr_base::NoMemory;
use kr_defs::{ConfigKey, Copied, MINIMUM_KEY, Text, UNCLEAN_KEY, read_minimum, read_switch};
use kr_store::{Seen, Store};
use std::alloc::Global;

// Kafka's types of resources.
const TOPIC: i8 = 2;

const BROKER: i8 = 4;

fn key_of(alloc: Global, kind: &i8, name: &Text, key: &str) -> Result<ConfigKey, NoMemory>
    ensures { IfOk result (λ k. k ≡ record { kind = kind.now; name = name.now; key = key.now }) }
{
    let name = name.copied(alloc)?;
    let key = Text::from_str(alloc, key)?;
    Ok(ConfigKey {
        kind: *kind,
        name,
        key,
    })
}

/// The value of a resource's setting.
pub fn value_at<'a, S: Store>(
    alloc: Global,
    seen: &Seen<'a, S>,
    kind: &i8,
    name: &Text,
    key: &str,
) -> Result<Option<&'a Text>, NoMemory>
    ensures { IfOk result (λ value. option_copied value ≡ settings.setting_value seen.now kind.now name.now key.now) }
{
    let key = key_of(alloc, kind, name, key)?;
    Ok(seen.config(&key))
}

/// The minimum of replicas in sync that a resource sets, where its value reads.
pub fn minimum_at<S: Store>(
    alloc: Global,
    seen: &Seen<S>,
    kind: &i8,
    name: &Text,
) -> Result<Option<i32>, NoMemory>
    ensures { IfOk result (λ minimum. minimum ≡ option_and_then settings.read_minimum (settings.setting_value seen.now kind.now name.now settings.minimum_key)) }
{
    match value_at(alloc, seen, kind, name, MINIMUM_KEY)? {
        Some(value) => Ok(read_minimum(value.as_bytes())),
        None => Ok(None),
    }
}

// The switch for unclean election that a resource sets.
fn switch_at<S: Store>(
    alloc: Global,
    seen: &Seen<S>,
    kind: &i8,
    name: &Text,
) -> Result<Option<bool>, NoMemory>
    ensures { IfOk result (λ switch. switch ≡ option_and_then settings.read_switch (settings.setting_value seen.now kind.now name.now settings.unclean_key)) }
{
    match value_at(alloc, seen, kind, name, UNCLEAN_KEY)? {
        Some(value) => Ok(read_switch(value)),
        None => Ok(None),
    }
}

// The minimum of the topic itself, or else that of all brokers.
fn minimum_set<S: Store>(
    alloc: Global,
    seen: &Seen<S>,
    topic: &Text,
) -> Result<Option<i32>, NoMemory>
    ensures { IfOk result (λ minimum. minimum ≡ settings.setting settings.read_minimum settings.minimum_key seen.now topic.now) }
{
    match minimum_at(alloc, seen, &TOPIC, topic)? {
        Some(minimum) => Ok(Some(minimum)),
        None => minimum_at(alloc, seen, &BROKER, &Text::new(alloc)),
    }
}

// The switch of the topic itself, or else that of all brokers.
fn switch_set<S: Store>(
    alloc: Global,
    seen: &Seen<S>,
    topic: &Text,
) -> Result<Option<bool>, NoMemory>
    ensures { IfOk result (λ switch. switch ≡ settings.setting settings.read_switch settings.unclean_key seen.now topic.now) }
{
    match switch_at(alloc, seen, &TOPIC, topic)? {
        Some(switch) => Ok(Some(switch)),
        None => switch_at(alloc, seen, &BROKER, &Text::new(alloc)),
    }
}

/// How many replicas of a topic have to be in sync: by its own setting, else by that of all brokers, else as the
/// options say.
pub fn minimum_of<S: Store>(
    alloc: Global,
    seen: &Seen<S>,
    otherwise: &i32,
    topic: &Text,
) -> Result<i32, NoMemory>
    ensures { IfOk result (λ minimum. minimum ≡ settings.minimum_of otherwise.now seen.now topic.now) }
{
    Ok(minimum_set(alloc, seen, topic)?.unwrap_or(*otherwise))
}

/// A replica of the topic that isn't in sync may be elected.
pub fn is_unclean<S: Store>(alloc: Global, seen: &Seen<S>, topic: &Text) -> Result<bool, NoMemory>
    ensures { IfOk result (λ unclean. unclean ≡ settings.is_unclean seen.now topic.now) }
{
    Ok(switch_set(alloc, seen, topic)?.unwrap_or(false))
}
