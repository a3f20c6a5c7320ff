//! Whether a topic's name agrees with one (Kafka's Topic.hasCollision). Not all topics are looked at: from one name the walk
//! goes on at the next that can agree.

ghost use Rattle.std.specs.Prelude.{◌≡◌, ◌++◌, IfOk, OnOk, nat_lt, true};
ghost use Rattle.std.specs.List.{list_all, list_any};
ghost use Rattle.std.specs.Option.{option_copied};
ghost use Rattle.kr_defs.specs.Map as entries;
ghost use Rattle.kr_defs.specs.Map.{text_order};
ghost use Rattle.kr_defs.specs.Texts as texts;
ghost use Rattle.kr_replication.specs.AgreeingNames as names;
ghost use Rattle.kr_replication.specs.AgreeingNames.{AddsBytes, IsNextAgreeing, least_above, least_agreeing, raised_above};

use kr_base::NoMemory;
use kr_defs::{Text, names_agree};
use kr_store::{Seen, Store};
use std::alloc::Global;

// `_` becomes `.`, the lesser of the two.
fn as_dot(byte: u8) -> u8
    ensures { result ≡ names.as_dot byte }
{
    if byte == b'_' { b'.' } else { byte }
}

// The least byte above the other that may stand for this one.
fn byte_above(byte: u8, other: u8) -> Option<u8>
    ensures { result ≡ names.byte_above byte other }
{
    let low = as_dot(byte);
    if other < low {
        Some(low)
    } else if low == b'.' && other < b'_' {
        Some(b'_')
    } else {
        None
    }
}

// Adds the least name that agrees.
fn add_lowest(out: &mut Vec<u8>, name: &[u8]) -> Result<(), NoMemory>
    ensures { OnOk result (out.new.items ≡ out.old.items ++ least_agreeing name.now) }
{
    for byte in name {
        out.push(as_dot(*byte))?;
    }
    Ok(())
}

// Adds the least name whose first byte is above the other, if there is one.
fn add_raised(out: &mut Vec<u8>, byte: u8, name: &[u8], other: u8) -> Result<bool, NoMemory>
    ensures { IfOk result (λ found. AddsBytes out.old.items out.new.items found
        (raised_above byte name.now other)) }
{
    let Some(first) = byte_above(byte, other) else {
        return Ok(false);
    };
    out.push(first)?;
    add_lowest(out, name)?;
    Ok(true)
}

// Adds the least name above the other that agrees, if there is one.
fn add_least_above(out: &mut Vec<u8>, name: &[u8], other: &[u8]) -> Result<bool, NoMemory>
    ensures { IfOk result (λ found. AddsBytes out.old.items out.new.items found
        (least_above name.now other.now)) }
{
    let [byte, name_rest @ ..] = name else {
        return Ok(false);
    };
    let [first, other_rest @ ..] = other else {
        add_lowest(out, name)?;
        return Ok(true);
    };
    if as_dot(*byte) == as_dot(*first) {
        out.push(*first)?;
        if add_least_above(out, name_rest, other_rest)? {
            return Ok(true);
        }
        let _ = out.pop();
    }
    add_raised(out, *byte, name_rest, *first)
}

// Adds the least name that agrees and stands above the other, if there is one.
fn add_next(out: &mut Vec<u8>, name: &Text, after: Option<&Text>) -> Result<bool, NoMemory>
    ensures { IfOk result (λ found. AddsBytes out.old.items out.new.items found
        (names.next_agreeing name.now (option_copied after.entry))) }
{
    match after {
        Some(other) => add_least_above(out, name.as_bytes(), other.as_bytes()),
        None => {
            add_lowest(out, name.as_bytes())?;
            Ok(true)
        }
    }
}

// The least name that agrees and stands above the other, if there is one.
fn next_agreeing(alloc: Global, name: &Text, after: Option<&Text>) -> Result<Option<Text>, NoMemory>
    requires { list_all (λ byte. nat_lt byte 128) name.now ≡ true }
    ensures { IfOk result (λ next. IsNextAgreeing name.now (option_copied after.entry) next) }
{
    let mut bytes = Vec::new(alloc);
    if !add_next(&mut bytes, name, after)? {
        return Ok(None);
    }
    Ok(Some(Text::from_utf8(alloc, bytes.as_slice())?))
}

// The names of topics are ASCII, and so is what agrees with one.
fn is_ascii(name: &Text) -> bool
    ensures { result ≡ list_all (λ byte. nat_lt byte 128) name.now }
{
    name.as_bytes().iter().all(|byte| *byte < 128)
}

fn is_topic<S: Store>(seen: &Seen<S>, name: &Text) -> bool
    ensures { result ≡ entries.contains text_order seen.now.topics name.now }
{
    seen.topic_named(name).is_some()
}

/// There is a topic whose name agrees with this one in Kafka's metrics. Looked at are the names that can agree, each with the
/// topic behind it, and those between are passed over.
pub fn has_agreeing_name<S: Store>(
    alloc: Global,
    seen: &Seen<S>,
    name: &Text,
) -> Result<bool, NoMemory>
    ensures { IfOk result (λ has. has ≡
        list_any (λ topic. texts.names_agree topic.0 name.now) seen.now.topics) }
{
    seen.is_valid();
    if !is_ascii(name) {
        return Ok(false);
    }
    let mut after = None;
    while let Some(next) = next_agreeing(alloc, name, after)? {
        if is_topic(seen, &next) {
            return Ok(true);
        }
        let Some((other, _id)) = seen.next_topic(Some(&next)) else {
            return Ok(false);
        };
        if names_agree(other, name) {
            return Ok(true);
        }
        after = Some(other);
    }
    Ok(false)
}
