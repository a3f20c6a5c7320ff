//! Settings, with the bytes of their text.

ghost use Rattle.std.specs.Prelude.{◌≡◌, ◌≤◌, ◌<◌, ◌+◌, OnOk, IfOk, IfSome, IsNone, Some, not, filter, count_by, unwrap_or, cond, false};
ghost use Rattle.std.specs.Option.{option_map};
ghost use Rattle.kr_defs.specs.Apply as apply;
ghost use Rattle.kr_defs.specs.Image.{IsValid, config_text, entry_text};
ghost use Rattle.kr_defs.specs.Map as map;
ghost use Rattle.kr_defs.specs.Map.{config_order};
ghost use Rattle.kr_defs.specs.declared.limits.TheConstants.{MOST_CONFIG_TEXT as most};
ghost use Rattle.kr_image.specs.inner.RecordAnswers.{Changes};
ghost use Rattle.kr_image.specs.inner.TopicKeys.{settings_end};
ghost use Rattle.kr_image.specs.Timelines.{lowest as lowest_key, Agrees, keeps_of, made_of, present_image};

use crate::entries::{contains, key_between, set, unset};
use crate::sums::added_within;
use crate::timelines::{ChangeFault, Timelines};
use kr_base::NoMemory;
use kr_defs::limits::MOST_CONFIG_TEXT;
use kr_defs::{ConfigKey, Copied, Ill, Text};
use kr_timeline::Timeline;
use std::alloc::Global;

// Kafka's resource type of a topic.
const TOPIC: i8 = 2;

fn key_of(alloc: Global, kind: &i8, name: &Text, key: &Text) -> Result<ConfigKey, NoMemory>
    ensures { IfOk result (λ k. k ≡ record { kind = kind.now; name = name.now; key = key.now }) }
{
    let name = name.copied(alloc)?;
    let key = key.copied(alloc)?;
    Ok(ConfigKey {
        kind: *kind,
        name,
        key,
    })
}

// The bytes of the setting's text, if it is there.
#[tactic(auto, using(kr_defs::proofs::EntryCounts::texts))]
fn text_at(configs: &Timeline<ConfigKey, Text>, key: &ConfigKey) -> usize
    requires { config_text configs.now.maps.present ≤ most }
    ensures text { result ≡ unwrap_or (option_map (λ value. entry_text key.now value) (map.get config_order configs.now.maps.present key.now)) 0 }
{
    match configs.get(key) {
        Some(value) => key.name.len() + key.key.len() + value.len(),
        None => 0,
    }
}

// The bytes of the text of all settings once this one has the value, where they aren't above the limit.
#[tactic(auto, using(kr_defs::proofs::EntryCounts::texts))]
fn text_with(
    configs: &Timeline<ConfigKey, Text>,
    bytes: u32,
    key: &ConfigKey,
    value: &Text,
) -> Option<usize>
    requires little { config_text configs.now.maps.present ≤ most }
    requires ordered { map.IsMap config_order configs.now.maps.present }
    requires counted { bytes ≡ config_text configs.now.maps.present }
    ensures some { IfSome result (λ text. (text ≡ config_text (map.insert config_order configs.now.maps.present key.now value.now)) × (text ≤ most)) }
    ensures none { IsNone result → most < config_text (map.insert config_order configs.now.maps.present key.now value.now) }
{
    let others = bytes as usize - text_at(configs, key);
    let named = added_within(MOST_CONFIG_TEXT, others, key.name.len())?;
    let keyed = added_within(MOST_CONFIG_TEXT, named, key.key.len())?;
    added_within(MOST_CONFIG_TEXT, keyed, value.len())
}

// Takes the setting out, with the bytes of its text.
#[tactic(auto, using(kr_defs::proofs::EntryCounts::texts))]
fn unset_text(
    alloc: Global,
    configs: &mut Timeline<ConfigKey, Text>,
    bytes: &mut u32,
    key: &ConfigKey,
) -> Result<(), NoMemory>
    requires little { config_text configs.old.maps.present ≤ most }
    requires counted { bytes.old ≡ config_text configs.old.maps.present }
    ensures present { OnOk result (configs.new.maps.present ≡ map.remove config_order configs.old.maps.present key.now) }
    ensures kept { configs.new.maps.kept ≡ configs.old.maps.kept }
    ensures made { OnOk result (configs.new.maps.made ≤ configs.old.maps.made + 1) }
    ensures counted { OnOk result (bytes.new ≡ config_text configs.new.maps.present) }
{
    let text = text_at(configs, key);
    unset(alloc, configs, key)?;
    *bytes -= text as u32;
    Ok(())
}

impl Timelines {
    fn set_value(&mut self, key: ConfigKey, value: &Text) -> Result<(), ChangeFault>
        requires valid { IsValid (present_image self.old) }
        requires agrees { Agrees self.old }
        ensures changes { Changes self.old self.new result (apply.set_config (present_image self.old) key (Some value.now)) }
        ensures agrees { OnOk result (Agrees self.new) }
        ensures kept { keeps_of self.new ≡ keeps_of self.old }
        ensures made { OnOk result (made_of self.new ≤ made_of self.old + 1) }
    {
        let Some(text) = text_with(&self.configs, self.counts.config_bytes, &key, value) else {
            return Err(ChangeFault::IllFormed(Ill::Limit));
        };
        set(&mut self.configs, key, value.copied(self.alloc)?)?;
        self.counts.config_bytes = text as u32;
        Ok(())
    }

    fn unset_value(&mut self, key: &ConfigKey) -> Result<(), NoMemory>
        requires valid { IsValid (present_image self.old) }
        requires agrees { Agrees self.old }
        ensures tip { OnOk result (present_image self.new ≡ record (present_image self.old) { configs = map.remove config_order (present_image self.old).configs key.now }) }
        ensures agrees { OnOk result (Agrees self.new) }
        ensures kept { keeps_of self.new ≡ keeps_of self.old }
        ensures made { OnOk result (made_of self.new ≤ made_of self.old + 1) }
    {
        unset_text(
            self.alloc,
            &mut self.configs,
            &mut self.counts.config_bytes,
            key,
        )?;
        Ok(())
    }

    /// Gives a setting its value, or removes it where there is none.
    pub fn set_config(
        &mut self,
        kind: &i8,
        name: &Text,
        key: &Text,
        value: &Option<Text>,
    ) -> Result<(), ChangeFault>
        requires valid { IsValid (present_image self.old) }
        requires agrees { Agrees self.old }
        ensures changes { Changes self.old self.new result (apply.set_config (present_image self.old) (record { kind = kind.now; name = name.now; key = key.now }) value.now) }
        ensures agrees { OnOk result (Agrees self.new) }
        ensures kept { keeps_of self.new ≡ keeps_of self.old }
        ensures made { OnOk result (made_of self.new ≤ made_of self.old + 1) }
    {
        let key = key_of(self.alloc, kind, name, key)?;
        match value {
            Some(value) => self.set_value(key, value),
            None => {
                self.unset_value(&key)?;
                Ok(())
            }
        }
    }
}

// The key below which no setting of the topic stands.
fn lowest_of(alloc: Global, name: &Text) -> Result<ConfigKey, NoMemory>
    ensures { IfOk result (λ key. key ≡ lowest_key name.now) }
{
    let name = name.copied(alloc)?;
    Ok(ConfigKey {
        kind: TOPIC,
        name,
        key: Text::new(alloc),
    })
}

// The key above which no setting of the topic stands, and below which none of a topic with a greater name.
fn end_of(alloc: Global, name: &Text) -> Result<ConfigKey, NoMemory>
    ensures { IfOk result (λ key. key ≡ settings_end name.now) }
{
    let mut next = String::from_str(alloc, name.as_str())?;
    next.push('\0')?; // no name stands between
    Ok(ConfigKey {
        kind: TOPIC,
        name: Text::from_string(next),
        key: Text::new(alloc),
    })
}

// Takes the setting out, if it is there.
fn unset_standing(
    alloc: Global,
    configs: &mut Timeline<ConfigKey, Text>,
    bytes: &mut u32,
    key: &ConfigKey,
) -> Result<(), NoMemory>
    requires little { config_text configs.old.maps.present ≤ most }
    requires counted { bytes.old ≡ config_text configs.old.maps.present }
    ensures present { OnOk result (configs.new.maps.present ≡ map.remove config_order configs.old.maps.present key.now) }
    ensures kept { configs.new.maps.kept ≡ configs.old.maps.kept }
    ensures made { OnOk result (configs.new.maps.made ≤ configs.old.maps.made +
        cond (map.contains config_order configs.old.maps.present key.now) 1 0) }
    ensures counted { OnOk result (bytes.new ≡ config_text configs.new.maps.present) }
{
    if contains(configs, key) {
        unset_text(alloc, configs, bytes, key)?;
    }
    Ok(())
}

// Takes out the settings of the topic with this name, of which none has the least key.
fn remove_above_lowest(
    alloc: Global,
    configs: &mut Timeline<ConfigKey, Text>,
    bytes: &mut u32,
    name: &Text,
) -> Result<(), NoMemory>
    requires ordered { map.IsMap config_order configs.old.maps.present }
    requires little { config_text configs.old.maps.present ≤ most }
    requires counted { bytes.old ≡ config_text configs.old.maps.present }
    requires apart { map.contains config_order configs.old.maps.present (lowest_key name.now) ≡ false }
    ensures present { OnOk result (configs.new.maps.present ≡ filter (λ e. not (apply.is_setting_of name.now e.0)) configs.old.maps.present) }
    ensures kept { configs.new.maps.kept ≡ configs.old.maps.kept }
    ensures counted { OnOk result (bytes.new ≡ config_text configs.new.maps.present) }
    ensures made { OnOk result (configs.new.maps.made ≤ configs.old.maps.made + count_by (λ e. apply.is_setting_of name.now e.0) configs.old.maps.present) }
{
    let mut after = lowest_of(alloc, name)?;
    let end = end_of(alloc, name)?;
    while let Some(key) = key_between(alloc, configs, &after, &end)? {
        unset_text(alloc, configs, bytes, &key)?;
        after = key;
    }
    Ok(())
}

/// Takes out the settings of the topic with this name, one by one, with the bytes of their text. Each is looked for behind the
/// one before, and none behind the topic's last.
pub(crate) fn remove_settings(
    alloc: Global,
    configs: &mut Timeline<ConfigKey, Text>,
    bytes: &mut u32,
    name: &Text,
) -> Result<(), NoMemory>
    requires ordered { map.IsMap config_order configs.old.maps.present }
    requires little { config_text configs.old.maps.present ≤ most }
    requires counted { bytes.old ≡ config_text configs.old.maps.present }
    ensures present { OnOk result (configs.new.maps.present ≡ filter (λ e. not (apply.is_setting_of name.now e.0)) configs.old.maps.present) }
    ensures kept { configs.new.maps.kept ≡ configs.old.maps.kept }
    ensures counted { OnOk result (bytes.new ≡ config_text configs.new.maps.present) }
    ensures made { OnOk result (configs.new.maps.made ≤ configs.old.maps.made + count_by (λ e. apply.is_setting_of name.now e.0) configs.old.maps.present) }
{
    let lowest = lowest_of(alloc, name)?;
    unset_standing(alloc, configs, bytes, &lowest)?;
    remove_above_lowest(alloc, configs, bytes, name)?;
    Ok(())
}
