//! Batches that wait for an append, and those that go together in one.

ghost use Rattle.std.specs.Prelude.{◌==◌, ◌≡◌, ◌++◌, ◌∷◌, ◌-◌, [], IfOk, OnOk, false, length, nat_le, slice_get};
ghost use Rattle.std.specs.Option.{option_map_or};
ghost use Rattle.law_quorum.specs.Batches.{Batch as AnyBatch};
ghost use Rattle.law_quorum.specs.Changes.{base_of_first};
ghost use Rattle.law_core.specs.Core.{append_group_behind, end_of};
ghost use Rattle.kr_link.specs.Groups.{first_base_of, fitted, has_no_batch, left_behind, batch_end, waiting_group};

use crate::LogBatch;
use kr_base::NoMemory;
use kr_defs::Rows;
use std::alloc::Global;
use std::collections::VecDeque;
use std::marker::Model;

/// How many batches go together in an append at most.
pub const MOST_TOGETHER: u32 = 100;

/// How many bytes they have together at most, unless there is one alone.
pub const ROOM_TOGETHER: usize = 1_048_576;

/// Batches that wait, in the order in which they were written.
#[derive(Drop)]
pub struct WaitingBatches {
    list: VecDeque<LogBatch>,
}

impl Model for WaitingBatches {
    ghost use Rattle.std.specs.Prelude.{List};
    ghost use Rattle.law_quorum.specs.Batches.{Batch as AnyBatch};

    ghost Value = { List AnyBatch };

    ghost view = { λ s. s.list.items };
}

impl WaitingBatches {
    /// None waits.
    pub fn new(alloc: Global) -> WaitingBatches
        ensures { result ≡ [] }
    {
        WaitingBatches {
            list: VecDeque::new(alloc),
        }
    }

    /// None waits.
    #[tactic(auto, using(crate::proofs::Grouping::none_is))]
    pub fn is_empty(&self) -> bool
        ensures { result ≡ has_no_batch self.now }
    {
        has_none(&self.list)
    }

    /// One more waits behind them.
    pub fn push(&mut self, batch: LogBatch) -> Result<(), NoMemory>
        ensures { OnOk result (self.new ≡ self.old ++ batch ∷ []) }
    {
        self.list.push_back(batch)?;
        Ok(())
    }

    /// Where the last ends; the place itself where none waits.
    #[tactic(auto, using(crate::proofs::Grouping::last_ends))]
    pub fn end_behind(&self, from: u64) -> u64
        ensures { result ≡ end_of from self.now }
    {
        last_end_of(&self.list, from)
    }

    /// Takes those that go together in an append, at least one where any waits.
    pub fn take_group(&mut self, alloc: Global) -> Result<Rows<LogBatch>, NoMemory>
        ensures group { IfOk result (λ group. group ≡ (waiting_group self.old).0) }
        ensures rest { OnOk result (self.new ≡ (waiting_group self.old).1) }
    {
        let group = take_group(&mut self.list, alloc)?;
        Ok(group)
    }
}

fn has_none(waits: &VecDeque<LogBatch>) -> bool
    ensures { result ≡ (length waits.now.items == 0) }
{
    waits.is_empty()
}

fn last_end_of(waits: &VecDeque<LogBatch>, from: u64) -> u64
    ensures { result ≡ option_map_or batch_end
        (slice_get waits.now.items (length waits.now.items - 1)) from }
{
    match waits.back() {
        Some(batch) => batch.end(),
        None => from,
    }
}

fn is_first_within(waits: &VecDeque<LogBatch>, room: usize) -> bool
    ensures { result ≡ option_map_or (λ (b : AnyBatch). nat_le (length b.bytes) room)
        (slice_get waits.now.items 0) false }
{
    match waits.front() {
        Some(first) => first.size() <= room,
        None => false,
    }
}

// The first, where it has room.
fn pop_fitting(waits: &mut VecDeque<LogBatch>, room: usize) -> Option<LogBatch>
    ensures first { result ≡ fitted room waits.old.items }
    ensures rest { waits.new.items ≡ left_behind room waits.old.items }
{
    if !is_first_within(waits, room) {
        return None;
    }
    waits.pop_front()
}

// Those that have room beside one, which go with it.
fn fill(
    waits: &mut VecDeque<LogBatch>,
    group: &mut Rows<LogBatch>,
    mut room: usize,
) -> Result<(), NoMemory>
    ensures group { OnOk result (group.new
        ≡ group.old ++ (append_group_behind 99 room waits.old.items).0) }
    ensures rest { OnOk result (waits.new.items
        ≡ (append_group_behind 99 room waits.old.items).1) }
{
    let mut most = MOST_TOGETHER - 1;
    while most > 0 {
        match pop_fitting(waits, room) {
            None => return Ok(()),
            Some(next) => {
                room -= next.size();
                group.push(next)?;
                most -= 1;
            }
        }
    }
    Ok(())
}

fn take_group(waits: &mut VecDeque<LogBatch>, alloc: Global) -> Result<Rows<LogBatch>, NoMemory>
    ensures group { IfOk result (λ group. group ≡ (waiting_group waits.old.items).0) }
    ensures rest { OnOk result (waits.new.items ≡ (waiting_group waits.old.items).1) }
{
    let mut group = Rows::new(alloc);
    match waits.pop_front() {
        None => Ok(group),
        Some(first) => {
            let room = ROOM_TOGETHER.saturating_sub(first.size());
            group.push(first)?;
            fill(waits, &mut group, room)?;
            Ok(group)
        }
    }
}

/// There is none.
#[tactic(auto, using(crate::proofs::Grouping::none_is))]
pub(crate) fn has_no_batch(group: &Rows<LogBatch>) -> bool
    ensures { result ≡ has_no_batch group.now }
{
    group.is_empty()
}

/// Where the first begins.
pub(crate) fn first_base_of(group: &Rows<LogBatch>) -> Option<u64>
    ensures { result ≡ first_base_of group.now }
{
    match group.as_slice().first() {
        Some(batch) => Some(batch.base()),
        None => None,
    }
}

fn first_base(group: &Rows<LogBatch>) -> u64
    ensures { result ≡ option_map_or (λ (b : AnyBatch). b.base) (slice_get group.now 0) 0 }
{
    match group.as_slice().first() {
        Some(batch) => batch.base(),
        None => 0,
    }
}

/// Where the first begins; 0 where there is none.
#[tactic(auto, using(crate::proofs::Grouping::first_is))]
pub(crate) fn base_of_first(group: &Rows<LogBatch>) -> u64
    ensures { result ≡ base_of_first group.now }
{
    first_base(group)
}

fn last_end(group: &Rows<LogBatch>, from: u64) -> u64
    ensures { result ≡ option_map_or batch_end (slice_get group.now (length group.now - 1)) from }
{
    match group.as_slice().last() {
        Some(batch) => batch.end(),
        None => from,
    }
}

/// Where the last ends; the place itself where there is none.
#[tactic(auto, using(crate::proofs::Grouping::last_ends))]
pub(crate) fn end_of(group: &Rows<LogBatch>, from: u64) -> u64
    ensures { result ≡ end_of from group.now }
{
    last_end(group, from)
}
