//! Assignments of replicas to the partitions of a new topic.

ghost use Rattle.std.specs.Prelude.{◌≡◌, ◌<◌, ◌^◌, ◌++◌, ◌∷◌, [], ℤ, pos, find, is_some, length, IfOk, IfSome, OnOk};
ghost use Rattle.std.specs.List.{filter_map};
ghost use Rattle.std.specs.Option.{option_copied, option_map};
ghost use Rattle.std.specs.Ordering.{int_cmp, int_eq};
ghost use Rattle.kr_defs.specs.Map as entries;
ghost use Rattle.kr_calls.specs.CreateTopics as create_topics;
ghost use Rattle.kr_calls.specs.NewPartitions as partitions;

use crate::partitions::{Lists, is_wide};
use kr_base::NoMemory;
use kr_calls::CreatableReplicaAssignment;
use kr_defs::{Copied, Ids, Rows};
use kr_store::{Seen, Store};
use std::alloc::Global;
use std::collections::BTreeMap;

// The replicas that were given, by index.
type ByIndex = BTreeMap<i64, Ids>;

/// How many replicas the first assignment has.
pub(crate) fn first_size(assignments: &[CreatableReplicaAssignment]) -> usize
    ensures { result ≡ create_topics.first_size assignments.now }
{
    match assignments.first() {
        Some(assignment) => assignment.brokers.len(),
        None => 0,
    }
}

/// Each may be that of a new partition, with as many replicas as the first.
pub(crate) fn are_assignable<S: Store>(
    seen: &Seen<S>,
    assignments: &[CreatableReplicaAssignment],
) -> bool
    ensures { result ≡ create_topics.are_assignable seen.now assignments.now }
{
    let size = first_size(assignments);
    assignments
        .iter()
        .all(|assignment| is_wide(seen, size, &assignment.brokers))
}

fn index_of(assignment: &CreatableReplicaAssignment) -> i64
    ensures { result ≡ assignment.now.index }
{
    assignment.index as i64
}

fn add(
    alloc: Global,
    those: &mut ByIndex,
    assignment: &CreatableReplicaAssignment,
) -> Result<(), NoMemory>
    ensures { OnOk result (those.new.entries ≡ entries.insert int_cmp those.old.entries assignment.now.index assignment.now.brokers) }
{
    let brokers = assignment.brokers.copied(alloc)?;
    those.insert(index_of(assignment), brokers)?;
    Ok(())
}

// Of two assignments of one index the first counts.
fn by_index(alloc: Global, assignments: &[CreatableReplicaAssignment]) -> Result<ByIndex, NoMemory>
    ensures { IfOk result (λ those. (index : ℤ) → entries.get int_cmp those.entries index ≡ option_map (λ a. a.brokers) (find (λ a. int_eq a.index index) assignments.now)) }
{
    let mut those = BTreeMap::new(alloc);
    let count = assignments.len();
    for k in 0..count {
        let at = count - 1 - k;
        add(alloc, &mut those, &assignments[at])?;
    }
    Ok(those)
}

fn key_of(index: usize) -> i64
    requires { index < 2 ^ 63 }
    ensures { result ≡ pos index }
{
    index as i64
}

fn at_key<'a>(those: &'a ByIndex, key: &i64) -> Option<&'a Ids>
    ensures { option_copied result ≡ entries.get int_cmp those.now.entries key.now }
{
    those.get(key)
}

// The replicas at an index.
fn at_index(those: &ByIndex, index: usize) -> Option<&Ids>
    requires { index < 2 ^ 63 }
    ensures { option_copied result ≡ entries.get int_cmp those.now.entries (pos index) }
{
    at_key(those, &key_of(index))
}

fn add_list(alloc: Global, lists: &mut Lists, brokers: &Ids) -> Result<(), NoMemory>
    ensures { OnOk result (lists.new ≡ lists.old ++ brokers.now ∷ []) }
{
    lists.push(brokers.copied(alloc)?)?;
    Ok(())
}

/// The replicas of each partition, where each index from 0 on is assigned, as many as there are assignments.
pub(crate) fn lists_of(
    alloc: Global,
    assignments: &[CreatableReplicaAssignment],
) -> Result<Option<Lists>, NoMemory>
    ensures lists { IfOk result (λ lists. IfSome lists (λ all. all ≡ filter_map (create_topics.assigned_at assignments.now) (create_topics.indexes_of assignments.now))) }
    ensures whole { IfOk result (λ lists. is_some lists ≡ create_topics.are_whole assignments.now) }
    ensures count { IfOk result (λ lists. IfSome lists (λ all. length all ≡ length assignments.now)) }
{
    let those = by_index(alloc, assignments)?;
    let mut lists = Rows::new(alloc);
    for index in 0..assignments.len() {
        match at_index(&those, index) {
            Some(brokers) => add_list(alloc, &mut lists, brokers)?,
            None => return Ok(None),
        }
    }
    Ok(Some(lists))
}
