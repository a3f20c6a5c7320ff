//! Lists of batches.

ghost use Rattle.std.specs.Prelude.{◌≡◌, ◌++◌, OnOk, IfOk, take, drop};
ghost use Rattle.law_tape.specs.Equality.{agree, begins_with, same_batches, same_call};
ghost use Rattle.law_tape.specs.Rules.{end_behind, is_number};

use law_tape::{AppendCall, TapeBatch};
use std::alloc::{AllocError, Global};

/// The place behind batches that begin at a place, where they meet and none is empty.
pub fn end_behind(from: u128, group: &[TapeBatch]) -> Option<u128>
    ensures { result ≡ end_behind from group.now }
{
    let mut end = from;
    for batch in group {
        if !(batch.begins_at(end) && batch.has_records()) {
            return None;
        }
        end = batch.end();
    }
    Some(end)
}

/// It is this number.
pub fn is_number(some: Option<u128>, number: u64) -> bool
    ensures { result ≡ is_number some number }
{
    match some {
        Some(it) => it == number as u128,
        None => false,
    }
}

/// Keeps so many batches from the first on, and gives the others.
pub fn split(
    alloc: Global,
    list: &mut Vec<TapeBatch>,
    count: usize,
) -> Result<Vec<TapeBatch>, AllocError>
    ensures first { OnOk result (list.new.items ≡ take count list.old.items) }
    ensures others { IfOk result (λ rest. rest.items ≡ drop count list.old.items) }
{
    if list.len() <= count {
        return Ok(Vec::new(alloc));
    }
    list.split_off(count)
}

/// Adds copies of batches at the end.
pub fn append_copies(list: &mut Vec<TapeBatch>, more: &[TapeBatch]) -> Result<(), AllocError>
    ensures { OnOk result (list.new.items ≡ list.old.items ++ more.now) }
{
    for batch in more {
        list.push(batch.copy())?;
    }
    Ok(())
}

/// Copies of batches.
pub fn copies(alloc: Global, batches: &[TapeBatch]) -> Result<Vec<TapeBatch>, AllocError>
    ensures { IfOk result (λ list. list.items ≡ batches.now) }
{
    let mut list = Vec::new(alloc);
    append_copies(&mut list, batches)?;
    Ok(list)
}

// The lists agree as far as both go.
fn agrees(some: &[TapeBatch], others: &[TapeBatch]) -> bool
    ensures { result ≡ agree some.now others.now }
{
    some.iter()
        .zip(others.iter())
        .all(|(one, other)| one.is(other))
}

/// The lists have the same batches in the same order.
fn are_same(some: &[TapeBatch], others: &[TapeBatch]) -> bool
    ensures { result ≡ same_batches some.now others.now }
{
    some.len() == others.len() && agrees(some, others)
}

/// The list begins with the others.
pub fn begins_with(list: &[TapeBatch], others: &[TapeBatch]) -> bool
    ensures { result ≡ begins_with list.now others.now }
{
    others.len() <= list.len() && agrees(list, others)
}

/// It is the other call.
pub fn is_call(call: &AppendCall, other: &AppendCall) -> bool
    ensures { result ≡ same_call call.now other.now }
{
    call.epoch == other.epoch
        && call.made == other.made
        && are_same(call.group.as_slice(), other.group.as_slice())
}
