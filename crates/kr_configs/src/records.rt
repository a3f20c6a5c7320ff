//! The records of one resource's settings.

ghost use Rattle.std.specs.Prelude.{◌≡◌, ◌++◌, [], filter_map, IfOk, OnOk};
ghost use Rattle.std.specs.List.{cons_option};
ghost use Rattle.std.specs.Option.{option_copied};
ghost use Rattle.kr_calls.specs.IncrementalAlterConfigs as incremental_alter_configs;

use crate::values::Values;
use kr_base::NoMemory;
use kr_calls::ConfigResource;
use kr_defs::{Copied, Record, Records, Text};
use kr_replication::value_at;
use kr_store::{Seen, Store};
use std::alloc::Global;

/// The settings have the same value, or both have none.
pub(crate) fn is_same_value(value: Option<&Text>, other: Option<&Text>) -> bool
    ensures { result ≡ incremental_alter_configs.is_same_value (option_copied value.entry) (option_copied other.entry) }
{
    match (value, other) {
        (Some(value), Some(other)) => *value == *other,
        (None, None) => true,
        _ => false,
    }
}

// The record of a setting whose value differs.
fn config_record<S: Store>(
    alloc: Global,
    seen: &Seen<S>,
    entry: &ConfigResource,
    key: &str,
    value: &Option<Text>,
) -> Result<Option<Record>, NoMemory>
    ensures { IfOk result (λ made. made ≡ incremental_alter_configs.config_record seen.now entry.now (key.now, value.now)) }
{
    let before = value_at(alloc, seen, &entry.kind, &entry.name, key)?;
    if is_same_value(value.as_ref(), before) {
        return Ok(None);
    }
    let name = entry.name.copied(alloc)?;
    let key = Text::from_str(alloc, key)?;
    let value = Copied::copied(value, alloc)?;
    Ok(Some(Record::Config {
        kind: entry.kind,
        name,
        key,
        value,
    }))
}

// Adds the record of a setting whose value differs.
fn add_record<S: Store>(
    alloc: Global,
    seen: &Seen<S>,
    entry: &ConfigResource,
    key: &str,
    value: &Option<Text>,
    records: &mut Records,
) -> Result<(), NoMemory>
    ensures { OnOk result (records.new ≡ records.old ++ cons_option (incremental_alter_configs.config_record seen.now entry.now (key.now, value.now)) []) }
{
    if let Some(made) = config_record(alloc, seen, entry, key, value)? {
        records.push(made)?;
    }
    Ok(())
}

/// The records of the settings whose values differ, in order of first naming.
pub(crate) fn config_records<S: Store>(
    alloc: Global,
    seen: &Seen<S>,
    entry: &ConfigResource,
    values: &Values,
) -> Result<Records, NoMemory>
    ensures { IfOk result (λ records. records ≡ filter_map (incremental_alter_configs.config_record seen.now entry.now) values.now) }
{
    let mut records = Records::new(alloc);
    for (key, value) in values.entries() {
        add_record(alloc, seen, entry, key, value, &mut records)?;
    }
    Ok(records)
}
