//! Whether an image has room for records, told before any of them is applied.

ghost use Rattle.std.specs.Prelude.{◌≡◌, ◌≤◌, ◌<◌, ◌^◌, [], IfOk};
ghost use Rattle.std.specs.List.{list_all};
ghost use Rattle.kr_defs.specs.declared.limits.TheConstants.{MOST_TOPICS as most_topics, MOST_PARTITIONS as most_partitions, MOST_CONFIG_TEXT as most_text};
ghost use Rattle.kr_defs.specs.Image as images;
ghost use Rattle.kr_defs.specs.Map as entries;
ghost use Rattle.kr_defs.specs.Map.{config_order};
ghost use Rattle.kr_calls.specs.Deciding.{apply_records};
ghost use Rattle.kr_rules.specs.Room as room;
ghost use Rattle.kr_rules.specs.Room.{Fills, TellsRoom, filled, value_text, with_partition, with_text, with_topic};

use kr_base::NoMemory;
use kr_defs::limits::{LAST_INDEX, MOST_CONFIG_TEXT, MOST_PARTITIONS, MOST_TOPICS};
use kr_defs::{ConfigKey, Copied, Record, Text};
use kr_store::{Counts, Seen, Store};
use std::alloc::Global;
use std::collections::BTreeMap;
use std::marker::Model;

// How many topics and partitions there are behind some records, and how much text of settings. `given` has each setting
// that the records give, with the bytes of its text, and with 0 where it goes.
#[derive(Drop)]
struct Filling {
    topics: usize,
    partitions: usize,
    text: u128,
    given: BTreeMap<ConfigKey, u128>,
}

impl Model for Filling {
    ghost use Rattle.kr_defs.specs.declared.limits.TheConstants.{MOST_TOPICS, MOST_PARTITIONS, MOST_CONFIG_TEXT};
    ghost use Rattle.std.specs.Prelude.{◌≤◌};
    ghost use Rattle.kr_rules.specs.Room.{Filling};

    ghost Value = { Filling };

    ghost view = { λ f. record { topics = f.topics; partitions = f.partitions; text = f.text; given = f.given.entries } };

    ghost invariant = { λ f. (f.topics ≤ MOST_TOPICS) × (f.partitions ≤ MOST_PARTITIONS) × (f.text ≤ MOST_CONFIG_TEXT) };
}

fn is_plain(value: &Record) -> bool
    ensures { result ≡ room.takes_room value.now }
{
    match value {
        Record::Topic { .. }
        | Record::Partition { .. }
        | Record::PartitionChange { .. }
        | Record::Config { .. } => true,
        _ => false,
    }
}

fn are_plain(records: &[Record]) -> bool
    ensures { result ≡ list_all room.takes_room records.now }
{
    records.iter().all(|value| is_plain(value))
}

fn is_index(index: &i32) -> bool
    ensures { result ≡ images.is_index index.now }
{
    *index >= 0 && *index <= LAST_INDEX
}

fn key_of(alloc: Global, kind: &i8, name: &Text, key: &Text) -> Result<ConfigKey, NoMemory>
    ensures { IfOk result (λ k. k ≡ record { kind = kind.now; name = name.now; key = key.now }) }
{
    let name = name.copied(alloc)?;
    let key = key.copied(alloc)?;
    Ok(ConfigKey {
        kind: *kind,
        name,
        key,
    })
}

fn entry_text(key: &ConfigKey, value: &Text) -> u128
    ensures value { result ≡ images.entry_text key.now value.now }
    ensures room { result < 2 ^ 66 }
{
    key.name.len() as u128 + key.key.len() as u128 + value.len() as u128
}

fn value_text(key: &ConfigKey, value: &Option<Text>) -> u128
    ensures value { result ≡ value_text key.now value.now }
    ensures room { result < 2 ^ 66 }
{
    match value {
        Some(value) => entry_text(key, value),
        None => 0,
    }
}

// The text of a setting of the image.
fn present_text<S: Store>(seen: &Seen<S>, key: &ConfigKey) -> u128
    ensures { result ≡ value_text key.now (entries.get config_order seen.now.configs key.now) }
{
    match seen.config(key) {
        Some(value) => entry_text(key, value),
        None => 0,
    }
}

impl Filling {
    // How full an image is that has so much, before any record.
    fn new(alloc: Global, counts: Counts) -> Filling
        requires topics { counts.topics ≤ most_topics }
        requires partitions { counts.partitions ≤ most_partitions }
        requires text { counts.config_bytes ≤ most_text }
        ensures { result ≡ record { topics = counts.topics; partitions = counts.partitions; text = counts.config_bytes; given = [] } }
    {
        Filling {
            topics: counts.topics as usize,
            partitions: counts.partitions as usize,
            text: counts.config_bytes as u128,
            given: BTreeMap::new(alloc),
        }
    }

    fn add_topic(&mut self) -> bool
        ensures { Fills (with_topic self.old) result self.new }
    {
        if self.topics >= MOST_TOPICS {
            return false;
        }
        self.topics += 1;
        true
    }

    fn add_partition(&mut self, index: &i32) -> bool
        ensures { Fills (with_partition self.old index.now) result self.new }
    {
        if !is_index(index) || self.partitions >= MOST_PARTITIONS {
            return false;
        }
        self.partitions += 1;
        true
    }

    fn text_at<S: Store>(&self, seen: &Seen<S>, key: &ConfigKey) -> u128
        ensures { result ≡ room.text_at seen.now.configs self.now.given key.now }
    {
        match self.given.get(key) {
            Some(text) => *text,
            None => present_text(seen, key),
        }
    }

    // The setting takes so much text.
    fn give<S: Store>(
        &mut self,
        seen: &Seen<S>,
        key: ConfigKey,
        text: u128,
    ) -> Result<bool, NoMemory>
        requires { text < 2 ^ 66 }
        ensures { IfOk result (λ fits. Fills (with_text seen.now.configs self.old key text) fits self.new) }
    {
        let all = self.text.saturating_sub(self.text_at(seen, &key)) + text;
        if all > MOST_CONFIG_TEXT as u128 {
            return Ok(false);
        }
        self.given.insert(key, text)?;
        self.text = all;
        Ok(true)
    }

    fn add_setting<S: Store>(
        &mut self,
        seen: &Seen<S>,
        key: ConfigKey,
        value: &Option<Text>,
    ) -> Result<bool, NoMemory>
        ensures { IfOk result (λ fits. Fills (with_text seen.now.configs self.old key (value_text key value.now)) fits self.new) }
    {
        let text = value_text(&key, value);
        self.give(seen, key, text)
    }

    // A record more, where there is room for it.
    fn add<S: Store>(
        &mut self,
        alloc: Global,
        seen: &Seen<S>,
        value: &Record,
    ) -> Result<bool, NoMemory>
        ensures { IfOk result (λ fits. Fills (filled seen.now.configs self.old value.now) fits self.new) }
    {
        match value {
            Record::Topic { .. } => Ok(self.add_topic()),
            Record::Partition { index, .. } => Ok(self.add_partition(index)),
            Record::Config {
                kind,
                name,
                key,
                value,
            } => {
                let key = key_of(alloc, kind, name, key)?;
                self.add_setting(seen, key, value)
            }
            _ => Ok(true),
        }
    }
}

/// The image has room for the records, as far as it is told of plain ones: for their topics, partitions and
/// settings, one after the other.
pub(crate) fn has_room<S: Store>(
    alloc: Global,
    seen: &Seen<S>,
    records: &[Record],
) -> Result<bool, NoMemory>
    ensures { IfOk result (λ fits. TellsRoom records.now (apply_records seen.now records.now) fits) }
{
    if !are_plain(records) {
        return Ok(true);
    }
    seen.is_valid();
    let mut filling = Filling::new(alloc, seen.counts());
    for value in records {
        if !filling.add(alloc, seen, value)? {
            return Ok(false);
        }
    }
    Ok(true)
}
