//! Lines of a page, each as an entry of its topic that shows it alone.

ghost use Rattle.std.specs.Prelude.{◌≡◌, ◌≤◌, ◌&&◌, [], ◌∷◌, ◌++◌, false, true, pos, int_lt, Some, IfOk, OnOk, length, nat_eq, nat_le, take};
ghost use Rattle.kr_calls.specs.Metadata as metadata;
ghost use Rattle.kr_defs.specs.Map.{get, text_order};
ghost use Rattle.kr_pages.specs.Pages.{part_of};
ghost use Rattle.kr_describe.specs.inner.ShownLines as shown;
ghost use Rattle.kr_describe.specs.SteadyReads.{GoesSteadily, IsSteady, steady_image};

use crate::lookups::{next_name, next_partition, offline_among, topic_id};
use crate::steady::{PageFault, Steady};
use kr_base::NoMemory;
use kr_calls::errors::{LEADER_NOT_AVAILABLE, UNKNOWN_TOPIC_OR_PARTITION};
use kr_defs::{Copied, Ids, Partition, Rows, Text};
use kr_pages::{DescribedPart, DescribedTopic, DescribedTopics};
use kr_view::RecordReader;
use std::alloc::Global;

// ---- one line

// Where nobody leads.
fn leader_error(partition: &Partition) -> i16
    ensures { result ≡ metadata.leader_error partition.now }
{
    if partition.leader == -1 {
        LEADER_NOT_AVAILABLE
    } else {
        0
    }
}

fn part_with(index: i32, state: Partition, offline: Ids) -> DescribedPart
    ensures { result ≡ shown.part_with index state offline }
{
    DescribedPart {
        error: leader_error(&state),
        index,
        leader: state.leader,
        leader_epoch: state.leader_epoch,
        replicas: state.replicas,
        in_sync: state.in_sync,
        eligible: state.eligible,
        last_known: state.last_known,
        offline,
    }
}

fn part_entry(
    alloc: Global,
    name: &Text,
    id: &u128,
    part: DescribedPart,
) -> Result<DescribedTopic, NoMemory>
    ensures { IfOk result (λ entry. entry ≡ shown.part_entry name.now id.now part) }
{
    let name = name.copied(alloc)?;
    let mut parts = Rows::new(alloc);
    parts.push(part)?;
    Ok(DescribedTopic {
        error: 0,
        name: Some(name),
        id: *id,
        parts,
    })
}

// Of a topic without partitions, or of a name that no topic has.
fn bare_entry(alloc: Global, name: &Text, id: Option<u128>) -> Result<DescribedTopic, NoMemory>
    ensures { IfOk result (λ entry. entry ≡ shown.bare_entry name.now id) }
{
    let name = name.copied(alloc)?;
    let error = if id.is_some() {
        0
    } else {
        UNKNOWN_TOPIC_OR_PARTITION
    };
    Ok(DescribedTopic {
        error,
        name: Some(name),
        id: id.unwrap_or(0),
        parts: Rows::new(alloc),
    })
}

// ---- many

/// There are as many lines as there may be.
fn is_full(entries: &DescribedTopics, most: usize) -> bool
    ensures { result ≡ nat_le most (length entries.now) }
{
    entries.len() >= most
}

// The line of a partition.
#[tactic(auto, using(crate::proofs::Going::goings))]
fn partition_line<R: RecordReader>(
    alloc: Global,
    steady: &Steady,
    reader: &mut R,
    index: i32,
    state: Partition,
) -> Result<DescribedPart, PageFault>
    requires { IsSteady steady.now (R.reading reader.old) }
    ensures went { GoesSteadily R.reading R.with_reading steady.now reader.old reader.new result }
    ensures part { IfOk result (λ part. part ≡ part_of
        (steady_image steady.now (R.reading reader.old)) index state) }
{
    let offline = offline_among(alloc, steady, reader, state.replicas.as_slice())?;
    Ok(part_with(index, state, offline))
}

// The partitions of a topic behind an index.
#[tactic(auto, using(crate::proofs::SoFar::ends))]
fn add_parts<R: RecordReader>(
    alloc: Global,
    steady: &Steady,
    reader: &mut R,
    name: &Text,
    id: &u128,
    after: i32,
    most: usize,
    entries: &mut DescribedTopics,
) -> Result<(), PageFault>
    requires steady { IsSteady steady.now (R.reading reader.old) }
    requires named { get text_order (steady_image steady.now (R.reading reader.old)).topics name.now
        ≡ Some id.now }
    requires few { length entries.old ≤ most }
    ensures went { GoesSteadily R.reading R.with_reading steady.now reader.old reader.new result }
    ensures entries { OnOk result (entries.new ≡ take most (entries.old ++ shown.part_entries
        (steady_image steady.now (R.reading reader.old)) name.now id.now after)) }
{
    let mut last = after;
    while let Some((index, state)) = next_partition(alloc, steady, reader, name, id, last)? {
        if is_full(entries, most) {
            return Ok(());
        }
        let part = partition_line(alloc, steady, reader, index, state)?;
        entries.push(part_entry(alloc, name, id, part)?)?;
        last = index;
    }
    Ok(())
}

fn index_before(index: i32) -> i32
    ensures { result ≡ shown.index_before index }
{
    if index < 0 { -1 } else { index - 1 }
}

// No line was added, and the one without a partition isn't before the index.
fn is_alone(index: i32, before: usize, entries: &DescribedTopics) -> bool
    ensures { result ≡ (int_lt index (pos 0) && nat_eq (length entries.now) before) }
{
    index < 0 && entries.len() == before
}

// The line without a partition, where it is called for.
fn add_bare(
    alloc: Global,
    name: &Text,
    id: Option<u128>,
    called_for: bool,
    entries: &mut DescribedTopics,
) -> Result<(), NoMemory>
    ensures added { OnOk result (called_for ≡ true → entries.new
        ≡ entries.old ++ shown.bare_entry name.now id ∷ []) }
    ensures none { OnOk result (called_for ≡ false → entries.new ≡ entries.old) }
{
    if called_for {
        entries.push(bare_entry(alloc, name, id)?)?;
    }
    Ok(())
}

// The lines of a topic from an index on.
#[tactic(auto, using(crate::proofs::SoFar::ends))]
fn add_known<R: RecordReader>(
    alloc: Global,
    steady: &Steady,
    reader: &mut R,
    name: &Text,
    id: &u128,
    index: i32,
    most: usize,
    entries: &mut DescribedTopics,
) -> Result<(), PageFault>
    requires steady { IsSteady steady.now (R.reading reader.old) }
    requires named { get text_order (steady_image steady.now (R.reading reader.old)).topics name.now
        ≡ Some id.now }
    requires few { length entries.old ≤ most }
    requires free { nat_le most (length entries.old) ≡ false }
    ensures went { GoesSteadily R.reading R.with_reading steady.now reader.old reader.new result }
    ensures entries { OnOk result (entries.new ≡ take most (entries.old ++ shown.name_entries
        (steady_image steady.now (R.reading reader.old)) name.now index)) }
{
    let before = entries.len();
    add_parts(
        alloc,
        steady,
        reader,
        name,
        id,
        index_before(index),
        most,
        entries,
    )?;
    let alone = is_alone(index, before, entries);
    add_bare(alloc, name, Some(*id), alone, entries)?;
    Ok(())
}

/// The lines of a name from an index on.
#[tactic(auto, using(crate::proofs::SoFar::ends))]
pub(crate) fn add_name<R: RecordReader>(
    alloc: Global,
    steady: &Steady,
    reader: &mut R,
    name: &Text,
    index: i32,
    most: usize,
    entries: &mut DescribedTopics,
) -> Result<(), PageFault>
    requires steady { IsSteady steady.now (R.reading reader.old) }
    requires few { length entries.old ≤ most }
    ensures went { GoesSteadily R.reading R.with_reading steady.now reader.old reader.new result }
    ensures entries { OnOk result (entries.new ≡ take most (entries.old ++ shown.name_entries
        (steady_image steady.now (R.reading reader.old)) name.now index)) }
{
    if is_full(entries, most) {
        return Ok(());
    }
    let Some(id) = topic_id(alloc, steady, reader, name)? else {
        add_bare(alloc, name, None, index < 0, entries)?;
        return Ok(());
    };
    add_known(alloc, steady, reader, name, &id, index, most, entries)?;
    Ok(())
}

/// The lines of the topics behind a name.
#[tactic(auto, using(crate::proofs::SoFar::ends))]
pub(crate) fn add_topics<R: RecordReader>(
    alloc: Global,
    steady: &Steady,
    reader: &mut R,
    after: &Text,
    most: usize,
    entries: &mut DescribedTopics,
) -> Result<(), PageFault>
    requires steady { IsSteady steady.now (R.reading reader.old) }
    requires few { length entries.old ≤ most }
    ensures went { GoesSteadily R.reading R.with_reading steady.now reader.old reader.new result }
    ensures entries { OnOk result (entries.new ≡ take most (entries.old ++ shown.topics_entries
        (steady_image steady.now (R.reading reader.old)) after.now)) }
{
    let mut last = after.copied(alloc)?;
    while let Some(name) = next_name(alloc, steady, reader, &last)? {
        if is_full(entries, most) {
            return Ok(());
        }
        add_name(alloc, steady, reader, &name, -1, most, entries)?;
        last = name;
    }
    Ok(())
}
