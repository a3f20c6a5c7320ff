//! The racks of brokers, and the walk over them.

ghost use Rattle.std.specs.Prelude.{◌≡◌, ◌<◌, ◌≤◌, ◌+◌, ◌*◌, ◌/◌, ◌%◌, ◌^◌, [], ◌∷◌, ◌++◌, None, length, cond, nat_lt, slice_get, option_to_list, unwrap_or, IfOk, OnOk, fold, take};
ghost use Rattle.std.specs.Map.{values_of};
ghost use Rattle.std.specs.Ordering.{int_cmp};
ghost use Rattle.kr_defs.specs.Map as entries;
ghost use Rattle.kr_defs.specs.Placed.{rack_order, by_id, into_rack, racks_of, visit, visited};

use kr_base::NoMemory;
use kr_defs::{Copied, Ids, Text};
use std::alloc::Global;
use std::collections::BTreeMap;

type Sorted = BTreeMap<i32, Option<Text>>;

type Groups = BTreeMap<Option<Text>, Ids>;

fn add(alloc: Global, sorted: &mut Sorted, id: &i32, rack: &Option<Text>) -> Result<(), NoMemory>
    ensures { OnOk result (sorted.new.entries ≡ entries.insert int_cmp sorted.old.entries id.now rack.now) }
{
    let rack = Copied::copied(rack, alloc)?;
    sorted.insert(*id, rack)?;
    Ok(())
}

// The brokers by id.
#[tactic(auto, using(crate::proofs::Walks::walks))]
fn sort_by_id(alloc: Global, brokers: &[(i32, Option<Text>)]) -> Result<Sorted, NoMemory>
    ensures { IfOk result (λ sorted. sorted.entries ≡ by_id brokers.now) }
{
    let mut sorted = BTreeMap::new(alloc);
    for broker in brokers {
        add(alloc, &mut sorted, &broker.0, &broker.1)?;
    }
    Ok(sorted)
}

fn without(alloc: Global, racks: &mut Groups, rack: &Option<Text>) -> Ids
    ensures ids { result ≡ unwrap_or (entries.get rack_order racks.old.entries rack.now) [] }
    ensures rest { racks.new.entries ≡ entries.remove rack_order racks.old.entries rack.now }
{
    match racks.remove(rack) {
        Some(ids) => ids,
        None => Ids::new(alloc),
    }
}

// The broker comes last in its rack.
fn join(alloc: Global, racks: &mut Groups, id: &i32, rack: &Option<Text>) -> Result<(), NoMemory>
    ensures { OnOk result (racks.new.entries ≡ into_rack racks.old.entries (id.now, rack.now)) }
{
    let name = Copied::copied(rack, alloc)?;
    let mut ids = without(alloc, racks, rack);
    ids.push(*id)?;
    racks.insert(name, ids)?;
    Ok(())
}

fn group_by_rack(alloc: Global, sorted: &Sorted) -> Result<Groups, NoMemory>
    ensures { IfOk result (λ racks. racks.entries ≡ fold into_rack [] sorted.now.entries) }
{
    let mut racks = BTreeMap::new(alloc);
    for (id, rack) in sorted {
        join(alloc, &mut racks, id, rack)?;
    }
    Ok(racks)
}

#[tactic(auto, using(crate::proofs::Walks::walks))]
fn rows(alloc: Global, mut racks: Groups) -> Result<Vec<Ids>, NoMemory>
    ensures { IfOk result (λ rows. rows.items ≡ values_of racks.entries) }
{
    let mut rows = Vec::new(alloc);
    while let Some((_, ids)) = racks.pop_first() {
        rows.push(ids)?;
    }
    Ok(rows)
}

/// The racks in order, as the ids of their brokers in order.
#[tactic(auto, unfolding(kr_defs::specs::Placed::racks_of))]
pub(crate) fn racks_of(alloc: Global, brokers: &[(i32, Option<Text>)]) -> Result<Vec<Ids>, NoMemory>
    ensures { IfOk result (λ racks. racks.items ≡ racks_of brokers.now) }
{
    let sorted = sort_by_id(alloc, brokers)?;
    let groups = group_by_rack(alloc, &sorted)?;
    rows(alloc, groups)
}

// The broker that a rack gives in a round, where it has one left.
fn pick(rack: &Ids, first: u128, round: u128) -> Option<i32>
    requires first { first < 2 ^ 64 }
    requires round { round < 2 ^ 126 }
    ensures { result ≡ cond (nat_lt round (length rack.now)) (slice_get rack.now ((first + round) % length rack.now)) None }
{
    let size = rack.len() as u128;
    if round >= size {
        return None;
    }
    rack.as_slice()
        .get(((first + round) % size) as usize)
        .copied()
}

#[tactic(auto, unfolding(kr_defs::specs::Placed::visit))]
fn visit(racks: &[Ids], start: u128, k: u128) -> Option<i32>
    requires some { 0 < length racks.now }
    requires start { start < 2 ^ 64 }
    requires k { k < 2 ^ 126 }
    ensures { result ≡ visit racks.now start k }
{
    let count = racks.len() as u128;
    match racks.get(((start + k) % count) as usize) {
        Some(rack) => pick(rack, start / count, k / count),
        None => None,
    }
}

fn take_visit(chosen: &mut Ids, racks: &[Ids], start: u128, k: u128) -> Result<(), NoMemory>
    requires some { 0 < length racks.now }
    requires start { start < 2 ^ 64 }
    requires k { k < 2 ^ 126 }
    ensures { OnOk result (chosen.new ≡ chosen.old ++ option_to_list (visit racks.now start k)) }
{
    if let Some(id) = visit(racks, start, k) {
        chosen.push(id)?;
    }
    Ok(())
}

/// The first `factor` brokers of the visits.
#[tactic(auto, using(crate::proofs::Walks::walks))]
pub(crate) fn walk(
    alloc: Global,
    racks: &[Ids],
    start: u128,
    visits: u128,
    factor: usize,
) -> Result<Ids, NoMemory>
    requires some { 0 < visits → 0 < length racks.now }
    requires start { start < 2 ^ 64 }
    requires visits { visits ≤ 2 ^ 126 }
    ensures { IfOk result (λ ids. ids ≡ take factor (visited racks.now start visits)) }
{
    let mut chosen = Ids::new(alloc);
    for k in 0..visits {
        if chosen.len() == factor {
            return Ok(chosen);
        }
        take_visit(&mut chosen, racks, start, k)?;
    }
    Ok(chosen)
}
