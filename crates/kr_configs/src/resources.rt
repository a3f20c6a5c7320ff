//! What is decided of one resource.

ghost use Rattle.std.specs.Prelude.{◌≡◌, IfOk};
ghost use Rattle.kr_calls.specs.IncrementalAlterConfigs as incremental_alter_configs;
ghost use Rattle.kr_calls.specs.Refuse.{refused_incremental_alter_configs};
ghost use Rattle.kr_defs.specs.Map as entries;
ghost use Rattle.kr_defs.specs.Map.{text_order};
ghost use Rattle.kr_rules.specs.Refusals.{Judges};

use crate::operations::operate_all;
use crate::records::config_records;
use crate::reliefs::add_reliefs;
use crate::values::Values;
use kr_base::NoMemory;
use kr_calls::errors::{INVALID_REQUEST, UNKNOWN_TOPIC_OR_PARTITION};
use kr_calls::{ConfigResource, ConfigResponse, Draft};
use kr_defs::{Copied, Options, Records, Text, is_broker_name};
use kr_rules::{Refusal, Rule, Work};
use kr_store::{Seen, Store};
use std::alloc::Global;

// Kafka's types of resources.
const TOPIC: i8 = 2;

const BROKER: i8 = 4;

/// The rule for one resource's settings.
#[derive(Drop)]
pub(crate) struct ResourceRule<'a> {
    pub options: &'a Options,
}

// The answer for a resource.
fn answer(alloc: Global, error: &i16, entry: &ConfigResource) -> Result<ConfigResponse, NoMemory>
    ensures { IfOk result (λ answer. answer ≡ refused_incremental_alter_configs error.now entry.now) }
{
    let name = entry.name.copied(alloc)?;
    Ok(ConfigResponse {
        error: *error,
        kind: entry.kind,
        name,
    })
}

fn is_topic_kind(entry: &ConfigResource) -> bool
    ensures { result ≡ incremental_alter_configs.is_topic_kind entry.now }
{
    entry.kind == TOPIC
}

fn is_broker_kind(entry: &ConfigResource) -> bool
    ensures { result ≡ incremental_alter_configs.is_broker_kind entry.now }
{
    entry.kind == BROKER
}

fn is_topic<S: Store>(seen: &Seen<S>, name: &Text) -> bool
    ensures { result ≡ entries.contains text_order seen.now.topics name.now }
{
    seen.topic_named(name).is_some()
}

fn resource_records<S: Store>(
    alloc: Global,
    seen: &Seen<S>,
    options: &Options,
    entry: &ConfigResource,
    values: &Values,
) -> Result<Records, NoMemory>
    ensures { IfOk result (λ records. records ≡ incremental_alter_configs.resource_records options.now seen.now entry.now values.now) }
{
    let mut records = config_records(alloc, seen, entry, values)?;
    add_reliefs(alloc, seen, options, entry, values, &mut records)?;
    Ok(records)
}

// What is said of a resource that there is.
fn of_resource<S: Store>(
    alloc: Global,
    seen: &Seen<S>,
    options: &Options,
    entry: &ConfigResource,
) -> Result<Draft<ConfigResponse>, Refusal>
    ensures { Judges result (incremental_alter_configs.of_resource options.now seen.now entry.now) }
{
    let values = operate_all(alloc, seen, entry)?;
    let records = resource_records(alloc, seen, options, entry, &values)?;
    let answer = answer(alloc, &0, entry)?;
    Ok(Draft { records, answer })
}

impl<'a> Rule<ConfigResource, ConfigResponse> for ResourceRule<'a> {
    ghost refusal = { λ _. refused_incremental_alter_configs };

    ghost rule = { λ r. incremental_alter_configs.rule r.options.now };

    fn refusal(
        &self,
        alloc: Global,
        error: &i16,
        entry: &ConfigResource,
    ) -> Result<ConfigResponse, NoMemory> {
        answer(alloc, error, entry)
    }

    fn judge<S: Store>(
        &self,
        alloc: Global,
        seen: &Seen<S>,
        _work: &Work,
        entry: &ConfigResource,
    ) -> Result<Draft<ConfigResponse>, Refusal> {
        if !is_topic_kind(entry) && !is_broker_kind(entry) {
            return Err(Refusal::Error(INVALID_REQUEST));
        }
        if is_topic_kind(entry) && !is_topic(seen, &entry.name) {
            return Err(Refusal::Error(UNKNOWN_TOPIC_OR_PARTITION));
        }
        if is_broker_kind(entry) && !is_broker_name(&entry.name) {
            return Err(Refusal::Error(INVALID_REQUEST));
        }
        of_resource(alloc, seen, self.options, entry)
    }
}
