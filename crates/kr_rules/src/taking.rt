//! Records are added to those of a request, all or none.

ghost use Rattle.std.specs.Prelude.{◌≡◌, ◌≤◌, ◌<◌, ◌+◌, ◌++◌, ℤ, false, pos, ◌+ℤ◌, ◌≤ℤ◌, [], length, Ok, IfOk, OnOk, IfSome, IsNone, IsSome, is_some, sum_by, Some, None, Option, if◌then◌else◌};
ghost use Rattle.std.specs.List.{list_all};
ghost use Rattle.kr_defs.specs.declared.limits.TheConstants.{MOST_REQUEST_RECORDS as most_records, MOST_REQUEST_BYTES as most_bytes, PLACES_END as places_end};
ghost use Rattle.kr_defs.specs.Sizes.{value_bytes};
ghost use Rattle.kr_defs.specs.Image.{Image};
ghost use Rattle.kr_defs.specs.Partition.{target};
ghost use Rattle.kr_defs.specs.Weight.{weight};
ghost use Rattle.kr_defs.specs.declared.record.Item.TheVariants as items;
ghost use Rattle.kr_calls.specs.Deciding as deciding;
ghost use Rattle.kr_calls.specs.Deciding.{apply_records, is_within_limits, weights, taken};
ghost use Rattle.kr_store.specs.Images.{IsSettled, last_kept};
ghost use Rattle.kr_rules.specs.Costs.{is_undone};
ghost use Rattle.kr_rules.specs.Progress.{work_at, base_of, Leads, IsApplied, Stands, Reaches, TakesRecords, IsCounted};
ghost use Rattle.kr_rules.specs.Decisions.{CallsStayWithin};

use crate::room::has_room;
use crate::sizes::value_bytes;
use kr_base::{NoMemory, Steps};
use kr_defs::limits::{MOST_REQUEST_BYTES, MOST_REQUEST_RECORDS, MOST_TARGETS};
use kr_defs::{Partition, Record, Records, Rows};
use kr_store::{ApplyFault, Seen, Store};
use std::alloc::Global;
use std::marker::Model;
use std::sync::ledger::Ledger;

/// The records of a request so far, from its first place on.
#[derive(Drop)]
pub struct Work {
    // The offset of the first record.
    start: i64,
    // The records, in order.
    records: Vec<Record>,
    // How many bytes their values take.
    bytes: usize,
}

impl Model for Work {
    ghost use Rattle.kr_rules.specs.Progress.{Drawn, IsCounted};

    ghost Value = { Drawn };

    ghost view = { λ w. record { start = w.start; records = w.records.items } };

    ghost invariant = { λ w. IsCounted w.start w.records.items w.bytes };
}

// How many of some records were applied before one without meaning.
#[derive(Clone, Copy, Drop)]
enum Extent {
    All,
    Part,
    Nothing,
}

// The bytes with those of the records' values, where they aren't too many.
fn total_bytes(bytes: usize, records: &[Record]) -> Option<usize>
    requires { bytes ≤ most_bytes }
    ensures some { IfSome result
        (λ total. (total ≡ bytes + sum_by value_bytes records.now) × (total ≤ most_bytes)) }
    ensures none { IsNone result → most_bytes < bytes + sum_by value_bytes records.now }
{
    let mut total = bytes;
    for record in records {
        let more = value_bytes(record)?;
        if more > MOST_REQUEST_BYTES - total {
            return None;
        }
        total += more;
    }
    Some(total)
}

// Applies a record, and says whether it has a meaning; else nothing changes.
#[tactic(auto, unfolding(kr_defs::specs::Apply::apply))]
fn apply_one<S: Store, L: Ledger>(
    store: &mut S,
    place: i64,
    value: &Record,
    steps: &mut Steps<L>,
) -> Result<bool, NoMemory>
    requires kept { IsSome (last_kept (S.images store.old)) }
    ensures applied { IfOk result (λ applied. IsApplied (S.images store.old)
        (S.images store.new) value.now applied) }
    ensures kept { (S.images store.new).kept ≡ (S.images store.old).kept }
    ensures calls { (S.images store.new).kept_made ≡ (S.images store.old).kept_made }
    ensures begins { (S.images store.new).kept_begun ≡ (S.images store.old).kept_begun }
    ensures settled { IsSettled (S.images store.old) → IsSettled (S.images store.new) }
    ensures made { OnOk result ((S.images store.new).made ≤
        (S.images store.old).made + weight (S.images store.old).tip (items.Record value.now)) }
    ensures counted { OnOk result (steps.new ≡ steps.old + 1) }
    ensures later { steps.old ≤ steps.new }
{
    match store.apply_record(place, value, steps) {
        Ok(()) => Ok(true),
        Err(ApplyFault::IllFormed { .. }) => Ok(false),
        Err(ApplyFault::NoMemory) => Err(NoMemory),
    }
}

// Applies the records in order, the first at the place, up to one that has no meaning. Each takes a step.
fn apply_all<S: Store, L: Ledger>(
    store: &mut S,
    place: i64,
    records: &[Record],
    steps: &mut Steps<L>,
) -> Result<bool, NoMemory>
    requires kept { IsSome (last_kept (S.images store.old)) }
    requires low { place ≤ℤ (places_end +ℤ pos (most_records + 1)) }
    requires few { length records.now ≤ most_records }
    ensures stood { IfOk result (λ all. Stands all
        (apply_records (S.images store.old).tip records.now) (S.images store.new).tip) }
    ensures few { OnOk result (steps.new ≤ steps.old + length records.now) }
    ensures kept { (S.images store.new).kept ≡ (S.images store.old).kept }
    ensures calls { (S.images store.new).kept_made ≡ (S.images store.old).kept_made }
    ensures begins { (S.images store.new).kept_begun ≡ (S.images store.old).kept_begun }
    ensures settled { IsSettled (S.images store.old) → IsSettled (S.images store.new) }
    ensures made { OnOk result ((S.images store.new).made ≤
        (S.images store.old).made + weights (S.images store.old).tip records.now) }
    ensures later { steps.old ≤ steps.new }
{
    let mut at = place;
    for record in records {
        if !apply_one(store, at, record, steps)? {
            return Ok(false);
        }
        at += 1;
    }
    Ok(true)
}

// Applies the records, and says how far. Where the first has no meaning, nothing changes.
fn apply_each<S: Store, L: Ledger>(
    store: &mut S,
    place: i64,
    records: &[Record],
    steps: &mut Steps<L>,
) -> Result<Extent, NoMemory>
    requires kept { IsSome (last_kept (S.images store.old)) }
    requires low { place ≤ℤ (places_end +ℤ pos most_records) }
    requires few { length records.now ≤ most_records }
    ensures reached { IfOk result (λ extent. Reaches (S.images store.old)
        (S.images store.new) records.now extent) }
    ensures few { OnOk result (steps.new ≤ steps.old + length records.now) }
    ensures kept { (S.images store.new).kept ≡ (S.images store.old).kept }
    ensures calls { (S.images store.new).kept_made ≡ (S.images store.old).kept_made }
    ensures begins { (S.images store.new).kept_begun ≡ (S.images store.old).kept_begun }
    ensures settled { IsSettled (S.images store.old) → IsSettled (S.images store.new) }
    ensures made { OnOk result ((S.images store.new).made ≤
        (S.images store.old).made + weights (S.images store.old).tip records.now) }
    ensures later { steps.old ≤ steps.new }
{
    match records.split_first() {
        None => Ok(Extent::All),
        Some((first, rest)) => {
            if !apply_one(store, place, first, steps)? {
                return Ok(Extent::Nothing);
            }
            let all = apply_all(store, place + 1, rest, steps)?;
            Ok(if all { Extent::All } else { Extent::Part })
        }
    }
}

// The present image is again what the records, of which the first stands at the place, make of the last kept one.
#[tactic(auto, using(crate::proofs::RecordLists::bases))]
fn undo<S: Store, L: Ledger>(
    store: &mut S,
    place: i64,
    records: &[Record],
    steps: &mut Steps<L>,
) -> Result<(), NoMemory>
    requires kept { IsSome (last_kept (S.images store.old)) }
    requires low { place ≤ℤ places_end }
    requires few { length records.now ≤ most_records }
    ensures again { (image : Image) → apply_records (base_of (S.images store.old)) records.now ≡
        Ok image → OnOk result ((S.images store.new).tip ≡ image) }
    ensures kept { (S.images store.new).kept ≡ (S.images store.old).kept }
    ensures calls { (S.images store.new).kept_made ≡ (S.images store.old).kept_made }
    ensures begins { (S.images store.new).kept_begun ≡ (S.images store.old).kept_begun }
    ensures settled { IsSettled (S.images store.old) → IsSettled (S.images store.new) }
    ensures made { OnOk result ((S.images store.new).made ≤
        weights (base_of (S.images store.old)) records.now) }
    ensures later { steps.old ≤ steps.new }
{
    store.revert_to_last(steps);
    apply_all(store, place, records, steps)?;
    Ok(())
}

fn target_len(partition: &Partition) -> usize
    ensures { result ≡ length (target partition.now) }
{
    partition
        .replicas
        .as_slice()
        .iter()
        .filter(|id| !partition.removing.contains(id))
        .count()
}

fn has_few_targets(value: &Record) -> bool
    ensures { result ≡ deciding.has_few_targets value.now }
{
    match value {
        Record::Partition { state, .. } => target_len(state) <= MOST_TARGETS,
        _ => true,
    }
}

fn have_few_targets(records: &[Record]) -> bool
    ensures { result ≡ list_all deciding.has_few_targets records.now }
{
    records.iter().all(|value| has_few_targets(value))
}

impl Work {
    /// No records yet.
    pub fn new(alloc: Global, start: i64) -> Work
        requires { start ≤ℤ places_end }
        ensures { result ≡ record { start = start; records = [] } }
    {
        Work {
            start,
            records: Vec::new(alloc),
            bytes: 0,
        }
    }

    /// The place of the next record.
    pub fn place(&self) -> i64
        ensures value { result ≡ self.now.start +ℤ pos (length self.now.records) }
        ensures low { result ≤ℤ (places_end +ℤ pos most_records) }
    {
        self.start + self.records.len() as i64
    }

    // The bytes of all values with those of the records, where no limit is passed.
    fn room_for(&self, records: &[Record]) -> Option<usize>
        ensures within { is_some result ≡ is_within_limits self.now.records records.now }
        ensures counted { IfSome result
            (λ bytes. IsCounted self.now.start (self.now.records ++ records.now) bytes) }
    {
        if records.len() > MOST_REQUEST_RECORDS - self.records.len() || !have_few_targets(records) {
            return None;
        }
        total_bytes(self.bytes, records)
    }

    fn add(&mut self, records: Records, bytes: usize) -> Result<(), NoMemory>
        requires { IsCounted self.old.start (self.old.records ++ records) bytes }
        ensures { OnOk result (self.new ≡
            record { start = self.old.start; records = self.old.records ++ records }) }
    {
        self.records.append(&mut records.into_vec())?;
        self.bytes = bytes;
        Ok(())
    }

    /// The records.
    pub fn into_records(self) -> Records
        ensures { result ≡ self.records }
    {
        Rows::from_vec(self.records)
    }
}

/// Adds the records to those of the request and applies them, where each has a meaning and no limit is passed; else
/// nothing changes. No more steps are taken than there are records, unless some are applied and then undone.
#[tactic(auto, using(crate::proofs::RecordLists::takes))]
pub fn take<S: Store, L: Ledger>(
    alloc: Global,
    store: &mut S,
    work: &mut Work,
    records: Records,
    steps: &mut Steps<L>,
) -> Result<bool, NoMemory>
    requires some { IsSome (last_kept (S.images store.old)) }
    requires leads { Leads (S.images store.old) work.old.records }
    ensures taken { IfOk result (λ took. TakesRecords (work_at work.old
        (S.images store.old).tip) records took (work_at work.new (S.images store.new).tip)) }
    ensures own { is_undone (S.images store.old).tip records ≡ false →
        OnOk result (steps.new ≤ steps.old + length records) }
    ensures leads { OnOk result (Leads (S.images store.new) work.new.records) }
    ensures kept { (S.images store.new).kept ≡ (S.images store.old).kept }
    ensures calls { (S.images store.new).kept_made ≡ (S.images store.old).kept_made }
    ensures begins { (S.images store.new).kept_begun ≡ (S.images store.old).kept_begun }
    ensures settled { IsSettled (S.images store.old) → IsSettled (S.images store.new) }
    ensures start { OnOk result (work.new.start ≡ work.old.start) }
    ensures made { CallsStayWithin result (S.images store.old)
        (S.images store.new) work.old.records work.new.records }
    ensures later { steps.old ≤ steps.new }
{
    let Some(bytes) = work.room_for(records.as_slice()) else {
        return Ok(false);
    };
    if !has_room(alloc, &Seen::tip(store), records.as_slice())? {
        return Ok(false);
    }
    match apply_each(store, work.place(), records.as_slice(), steps)? {
        Extent::All => {
            work.add(records, bytes)?;
            Ok(true)
        }
        Extent::Part => {
            undo(store, work.start, &work.records, steps)?;
            Ok(false)
        }
        Extent::Nothing => Ok(false),
    }
}
