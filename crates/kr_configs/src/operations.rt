//! What one resource's operations do to the values of its settings.

ghost use Rattle.std.specs.Prelude.{◌≡◌, [], Ok, IfErr, IfOk, OnOk, unwrap_or};
ghost use Rattle.std.specs.Option.{option_copied};
ghost use Rattle.kr_calls.specs.IncrementalAlterConfigs as incremental_alter_configs;
ghost use Rattle.kr_rules.specs.Refusals.{IsRefusal, Judges};
ghost use Rattle.kr_configs.specs.inner.NewSettings.{list_of_parts};

use crate::parts::{append, subtract};
use crate::values::Values;
use kr_base::NoMemory;
use kr_calls::errors::{INVALID_CONFIG, INVALID_REQUEST};
use kr_calls::{ConfigOperation, ConfigResource};
use kr_defs::{Copied, Text, is_list_key, is_setting_key, is_setting_value};
use kr_replication::value_at;
use kr_rules::Refusal;
use kr_store::{Seen, Store};
use std::alloc::Global;

// Kafka's AlterConfigOp.OpType.
const SET: i8 = 0;

const DELETE: i8 = 1;

const APPEND: i8 = 2;

const SUBTRACT: i8 = 3;

// It works on the parts of a list.
fn is_of_parts(operation: &ConfigOperation) -> bool
    ensures { result ≡ incremental_alter_configs.is_of_parts operation.now }
{
    operation.operation == APPEND || operation.operation == SUBTRACT
}

// It is none of the four, or lacks the value that it needs.
fn is_bad_operation(operation: &ConfigOperation) -> bool
    ensures { result ≡ incremental_alter_configs.is_bad_operation operation.now }
{
    let is_delete = operation.operation == DELETE;
    let is_known = operation.operation == SET || is_delete || is_of_parts(operation);
    !is_known || operation.value.is_none() && !is_delete
}

/// The value of a resource's setting, behind the operations so far.
pub(crate) fn value_now<'v, 'k, S: Store>(
    alloc: Global,
    seen: &'v Seen<S>,
    entry: &ConfigResource,
    values: &'v Values<'k>,
    key: &str,
) -> Result<Option<&'v Text>, NoMemory>
    ensures { IfOk result (λ value. option_copied value ≡
        incremental_alter_configs.value_now seen.now entry.now values.now key.now) }
{
    match values.get(key) {
        Some(value) => Ok(value.as_ref()),
        None => value_at(alloc, seen, &entry.kind, &entry.name, key),
    }
}

fn or_empty<'v>(value: Option<&'v Text>, empty: &'v Text) -> &'v Text
    requires { empty.now ≡ [] }
    ensures { result.now ≡ unwrap_or (option_copied value.entry) [] }
{
    match value {
        Some(value) => value,
        None => empty,
    }
}

// The list that results of the parts of the value and of the operation.
fn list_after(
    alloc: Global,
    operation: &ConfigOperation,
    value: Option<&Text>,
) -> Result<Text, NoMemory>
    ensures { IfOk result (λ list. list ≡
        list_of_parts operation.now (unwrap_or (option_copied value.entry) [])) }
{
    let empty = Text::new(alloc);
    let value = or_empty(value, &empty);
    let those = or_empty(operation.value.as_ref(), &empty);
    if operation.operation == APPEND {
        append(alloc, value, those)
    } else {
        subtract(alloc, value, those)
    }
}

// The value that results; none where the setting goes.
fn value_after(
    alloc: Global,
    operation: &ConfigOperation,
    value: Option<&Text>,
) -> Result<Option<Text>, NoMemory>
    ensures { IfOk result (λ after. after ≡
        incremental_alter_configs.operated operation.now (option_copied value.entry)) }
{
    if operation.operation == DELETE {
        return Ok(None);
    }
    if is_of_parts(operation) {
        let list = list_after(alloc, operation, value)?;
        return Ok(Some(list));
    }
    Ok(Copied::copied(&operation.value, alloc)?)
}

// The value that results can be the key's.
fn may_result(key: &Text, value: &Option<Text>) -> bool
    ensures { result ≡ incremental_alter_configs.may_result key.now value.now }
{
    match value {
        Some(value) => is_setting_value(key, value),
        None => true,
    }
}

// The value that results of an operation.
fn result_of<S: Store>(
    alloc: Global,
    seen: &Seen<S>,
    entry: &ConfigResource,
    values: &Values,
    operation: &ConfigOperation,
) -> Result<Option<Text>, NoMemory>
    ensures { IfOk result (λ value. value ≡ incremental_alter_configs.operated operation.now
        (incremental_alter_configs.value_now seen.now entry.now values.now operation.now.name)) }
{
    let before = value_now(alloc, seen, entry, values, operation.name.as_str())?;
    value_after(alloc, operation, before)
}

// The operation is done, or refused where it can't be.
fn operate<'k, S: Store>(
    alloc: Global,
    seen: &Seen<S>,
    entry: &ConfigResource,
    values: &mut Values<'k>,
    operation: &'k ConfigOperation,
) -> Result<(), Refusal>
    ensures done { OnOk result (incremental_alter_configs.after_operation seen.now entry.now values.old operation.now ≡ Ok values.new) }
    ensures refused { IfErr result (λ refusal. IsRefusal refusal
        (incremental_alter_configs.after_operation seen.now entry.now values.old operation.now)) }
{
    if is_bad_operation(operation) {
        return Err(Refusal::Error(INVALID_REQUEST));
    }
    if !is_setting_key(&operation.name) {
        return Err(Refusal::Error(INVALID_CONFIG));
    }
    if is_of_parts(operation) && !is_list_key(&operation.name) {
        return Err(Refusal::Error(INVALID_CONFIG));
    }
    let value = result_of(alloc, seen, entry, values, operation)?;
    if !may_result(&operation.name, &value) {
        return Err(Refusal::Error(INVALID_CONFIG));
    }
    values.set(operation.name.as_str(), value)?;
    Ok(())
}

/// The values that all operations of a resource leave, in order. The first that can't be done refuses it.
pub(crate) fn operate_all<'k, S: Store>(
    alloc: Global,
    seen: &Seen<S>,
    entry: &'k ConfigResource,
) -> Result<Values<'k>, Refusal>
    ensures { Judges result
        (incremental_alter_configs.after_operations seen.now entry.now [] entry.now.configs) }
{
    let mut values = Values::new(alloc);
    for operation in entry.configs.as_slice() {
        operate(alloc, seen, entry, &mut values, operation)?;
    }
    Ok(values)
}
