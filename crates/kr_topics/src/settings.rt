//! The settings of a new topic.

ghost use Rattle.std.specs.Prelude.{◌≡◌, ◌++◌, Some, false, bytes_eq, IfOk, OnOk};
ghost use Rattle.std.specs.List.{list_any};
ghost use Rattle.std.specs.Option.{option_copied, option_map_or};
ghost use Rattle.kr_defs.specs.declared.record.Record.TheVariants as kinds;
ghost use Rattle.kr_defs.specs.Apply.{topic_kind};
ghost use Rattle.kr_defs.specs.Map as entries;
ghost use Rattle.kr_defs.specs.Map.{text_order};
ghost use Rattle.kr_calls.specs.CreateTopics as create_topics;
ghost use Rattle.kr_topics.specs.inner.TopicSettings as given_settings;
ghost use Rattle.kr_topics.specs.inner.TopicSettings.{is_set_already};

use kr_base::NoMemory;
use kr_calls::CreatableTopicConfig;
use kr_defs::{ConfigKey, Copied, Record, Records, Text, is_setting_key, is_setting_value};
use kr_store::{Seen, Store};
use std::alloc::Global;
use std::collections::BTreeMap;

// Kafka's type of a topic's settings.
const TOPIC: i8 = 2;

// The values that an entry has given so far, by key.
type Given = BTreeMap<Text, Text>;

fn is_bad_setting(setting: &CreatableTopicConfig) -> bool
    ensures { result ≡ create_topics.is_bad_setting setting.now }
{
    match &setting.value {
        Some(value) => !is_setting_key(&setting.name) || !is_setting_value(&setting.name, value),
        None => true,
    }
}

/// A setting has a key or a value that can't be, or no value.
pub(crate) fn has_bad_setting(settings: &[CreatableTopicConfig]) -> bool
    ensures { result ≡ list_any create_topics.is_bad_setting settings.now }
{
    settings.iter().any(|setting| is_bad_setting(setting))
}

fn key_of(alloc: Global, topic: &Text, key: &Text) -> Result<ConfigKey, NoMemory>
    ensures { IfOk result (λ place. place ≡ given_settings.topic_setting_key topic.now key.now) }
{
    let name = topic.copied(alloc)?;
    let key = key.copied(alloc)?;
    Ok(ConfigKey {
        kind: TOPIC,
        name,
        key,
    })
}

fn value_before<'a, S: Store>(
    alloc: Global,
    seen: &'a Seen<S>,
    given: &'a Given,
    topic: &Text,
    key: &Text,
) -> Result<Option<&'a Text>, NoMemory>
    ensures { IfOk result (λ value. option_copied value ≡
        given_settings.value_before seen.now.configs given.now.entries topic.now key.now) }
{
    if let Some(value) = given.get(key) {
        return Ok(Some(value));
    }
    let key = key_of(alloc, topic, key)?;
    Ok(seen.config(&key))
}

fn value_of(alloc: Global, setting: &CreatableTopicConfig) -> Result<Text, NoMemory>
    ensures { IfOk result (λ value. value ≡ given_settings.value_of setting.now) }
{
    match &setting.value {
        Some(value) => Ok(value.copied(alloc)?),
        None => Ok(Text::new(alloc)),
    }
}

fn is_value(before: Option<&Text>, value: &Text) -> bool
    ensures { result ≡ option_map_or (bytes_eq value.now) (option_copied before.entry) false }
{
    match before {
        Some(before) => value == before,
        None => false,
    }
}

fn is_old<S: Store>(
    alloc: Global,
    seen: &Seen<S>,
    given: &Given,
    topic: &Text,
    setting: &CreatableTopicConfig,
    value: &Text,
) -> Result<bool, NoMemory>
    requires { value.now ≡ given_settings.value_of setting.now }
    ensures { IfOk result (λ old. old ≡
        is_set_already seen.now.configs given.now.entries topic.now setting.now) }
{
    let before = value_before(alloc, seen, given, topic, &setting.name)?;
    Ok(is_value(before, value))
}

fn config_record(
    alloc: Global,
    topic: &Text,
    setting: &CreatableTopicConfig,
    value: &Text,
) -> Result<Record, NoMemory>
    ensures { IfOk result (λ config. config ≡
        kinds.Config topic_kind topic.now setting.now.name (Some value.now)) }
{
    let name = topic.copied(alloc)?;
    let key = setting.name.copied(alloc)?;
    let value = value.copied(alloc)?;
    Ok(Record::Config {
        kind: TOPIC,
        name,
        key,
        value: Some(value),
    })
}

// Gives a value to a setting.
fn give(alloc: Global, given: &mut Given, key: &Text, value: Text) -> Result<(), NoMemory>
    ensures { OnOk result (given.new.entries ≡
        entries.insert text_order given.old.entries key.now value) }
{
    let key = key.copied(alloc)?;
    given.insert(key, value)?;
    Ok(())
}

fn add_setting<S: Store>(
    alloc: Global,
    seen: &Seen<S>,
    records: &mut Records,
    topic: &Text,
    given: &mut Given,
    setting: &CreatableTopicConfig,
) -> Result<(), NoMemory>
    ensures given { OnOk result (given.new.entries ≡
        given_settings.given_with seen.now.configs given.old.entries topic.now setting.now) }
    ensures records { OnOk result (records.new ≡ given_settings.records_after seen.now.configs given.old.entries topic.now setting.now records.old) }
{
    let value = value_of(alloc, setting)?;
    if is_old(alloc, seen, given, topic, setting, &value)? {
        return Ok(());
    }
    records.push(config_record(alloc, topic, setting, &value)?)?;
    give(alloc, given, &setting.name, value)
}

/// Adds a record for each setting whose value is new where it stands.
#[tactic(auto, using(crate::proofs::TopicSettings::begins))]
pub(crate) fn add_settings<S: Store>(
    alloc: Global,
    seen: &Seen<S>,
    records: &mut Records,
    topic: &Text,
    settings: &[CreatableTopicConfig],
) -> Result<(), NoMemory>
    ensures { OnOk result (records.new ≡ records.old ++
        create_topics.settings_records seen.now.configs topic.now settings.now) }
{
    let mut given = BTreeMap::new(alloc);
    for setting in settings {
        add_setting(alloc, seen, records, topic, &mut given, setting)?;
    }
    Ok(())
}
