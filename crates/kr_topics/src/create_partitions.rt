//! Topics get more partitions.

ghost use Rattle.std.specs.Prelude.{◌≡◌, ◌≤◌, ◌+◌, ◌-◌, ◌^◌, ◌&&◌, ◌==◌, pos, ◌≤ℤ◌, ◌<ℤ◌, Some, false, ◌<◌, int_le, length, map, unsigned_abs, Ok, IfOk};
ghost use Rattle.std.specs.List.{list_all};
ghost use Rattle.kr_defs.specs.declared.limits.TheConstants.{PLACES_END as places_end};
ghost use Rattle.kr_defs.specs.Topics as topics;
ghost use Rattle.kr_calls.specs.CreatePartitions as create_partitions;
ghost use Rattle.kr_calls.specs.Deciding.{weights};
ghost use Rattle.kr_calls.specs.NewPartitions as partitions;
ghost use Rattle.kr_calls.specs.Refuse.{refused_create_partitions};
ghost use Rattle.kr_rules.specs.Decisions.{AnswersEach, DecidesUnless};
ghost use Rattle.kr_rules.specs.Progress.{place_of};
ghost use Rattle.kr_rules.specs.Refusals.{Judges};
ghost use Rattle.kr_store.specs.Images.{IsSettled, last_image};
ghost use Rattle.kr_topics.specs.inner.EntryRules as room;
ghost use Rattle.kr_topics.specs.inner.EntryRules.{has_room};

use crate::partitions::{
    Lists, add_partitions, has_room, is_wide, placements, start_of, target_len,
};
use crate::racks::active_by_rack;
use kr_base::{NoMemory, Steps};
use kr_calls::errors::{
    INVALID_PARTITIONS, INVALID_REPLICA_ASSIGNMENT, INVALID_REPLICATION_FACTOR, POLICY_VIOLATION,
    UNKNOWN_TOPIC_OR_PARTITION,
};
use kr_calls::{
    CreatePartitions, CreatePartitionsAssignment, CreatePartitionsReply, CreatePartitionsTopic,
    CreatePartitionsTopicResult, CreatePartitionsTopicResults, Draft, Effect, Reply,
};
use kr_defs::{Copied, Records, Rows};
use kr_place::Grouped;
use kr_replication::count_of;
use kr_rules::{Handler, Refusal, Rule, Work, decide_or_validate};
use kr_sessions::Context;
use kr_store::{Seen, Store};
use std::alloc::Global;
use std::sync::ledger::Ledger;

// What is decided of one topic to grow, where the active brokers are grouped by rack.
#[derive(Drop)]
struct Growing {
    those: Grouped,
}

fn answer(
    alloc: Global,
    error: &i16,
    entry: &CreatePartitionsTopic,
) -> Result<CreatePartitionsTopicResult, NoMemory>
    ensures { IfOk result (λ answer. answer ≡ refused_create_partitions error.now entry.now) }
{
    let name = entry.name.copied(alloc)?;
    Ok(CreatePartitionsTopicResult {
        name,
        error: *error,
    })
}

// The topic has as many partitions already.
fn has_as_many(entry: &CreatePartitionsTopic, first: u32) -> bool
    ensures value { result ≡ int_le entry.now.count (pos first) }
    ensures more { result ≡ false → pos first <ℤ entry.now.count }
{
    entry.count as i64 <= first as i64
}

// How many partitions are new.
fn new_count(entry: &CreatePartitionsTopic, first: u32) -> u32
    requires { pos first <ℤ entry.now.count }
    ensures value { result ≡ unsigned_abs entry.now.count - first }
    ensures room { first + result < 2 ^ 31 }
{
    entry.count.unsigned_abs().saturating_sub(first)
}

fn are_wide<S: Store>(
    seen: &Seen<S>,
    size: usize,
    assignments: &[CreatePartitionsAssignment],
) -> bool
    ensures { result ≡ list_all (λ a.
        partitions.is_assignable seen.now a.brokers && length a.brokers == size) assignments.now }
{
    assignments
        .iter()
        .all(|assignment| is_wide(seen, size, &assignment.brokers))
}

fn lists_of(alloc: Global, assignments: &[CreatePartitionsAssignment]) -> Result<Lists, NoMemory>
    ensures lists { IfOk result (λ lists. lists ≡ map (λ a. a.brokers) assignments.now) }
    ensures count { IfOk result (λ lists. length lists ≡ length assignments.now) }
{
    let mut lists = Rows::new(alloc);
    for assignment in assignments {
        lists.push(assignment.brokers.copied(alloc)?)?;
    }
    Ok(lists)
}

// The records of the new partitions over these replicas.
fn draft_create_partitions<S: Store>(
    alloc: Global,
    seen: &Seen<S>,
    entry: &CreatePartitionsTopic,
    topic: &u128,
    first: u32,
    lists: &Lists,
) -> Result<Draft<CreatePartitionsTopicResult>, NoMemory>
    requires { first + length lists.now ≤ 2 ^ 31 }
    ensures { IfOk result (λ draft. draft ≡
        create_partitions.grown seen.now topic.now first entry.now lists.now) }
{
    let mut records = Rows::new(alloc);
    add_partitions(alloc, seen, &mut records, topic, first, lists.as_slice())?;
    let answer = answer(alloc, &0, entry)?;
    Ok(Draft { records, answer })
}

// The new partitions have the replicas that were given.
#[tactic(auto, using(crate::proofs::Placements::counts))]
fn grow_as_assigned<S: Store>(
    alloc: Global,
    seen: &Seen<S>,
    entry: &CreatePartitionsTopic,
    topic: &u128,
    first: u32,
    size: usize,
    assignments: &[CreatePartitionsAssignment],
) -> Result<Draft<CreatePartitionsTopicResult>, Refusal>
    requires { pos first <ℤ entry.now.count }
    ensures { Judges result
        (room.grown_as_assigned seen.now entry.now topic.now first size assignments.now) }
{
    if assignments.len() != new_count(entry, first) as usize {
        return Err(Refusal::Error(INVALID_REPLICA_ASSIGNMENT));
    }
    if !are_wide(seen, size, assignments) {
        return Err(Refusal::Error(INVALID_REPLICA_ASSIGNMENT));
    }
    if !has_room(seen, assignments.len()) {
        return Err(Refusal::Error(POLICY_VIOLATION));
    }
    let lists = lists_of(alloc, assignments)?;
    Ok(draft_create_partitions(alloc, seen, entry, topic, first, &lists)?)
}

// The new partitions are placed on the active brokers.
#[tactic(auto, using(crate::proofs::Placements::counts))]
fn grow_by_placing<S: Store>(
    alloc: Global,
    seen: &Seen<S>,
    rule: &Growing,
    work: &Work,
    entry: &CreatePartitionsTopic,
    topic: &u128,
    first: u32,
    size: usize,
) -> Result<Draft<CreatePartitionsTopicResult>, Refusal>
    requires { pos first <ℤ entry.now.count }
    ensures { Judges result (room.grown_by_placing rule.now.those seen.now
        (place_of work.now) entry.now topic.now first size) }
{
    if rule.those.count() < size {
        return Err(Refusal::Error(INVALID_REPLICATION_FACTOR));
    }
    let count = new_count(entry, first);
    if !has_room(seen, count as usize) {
        return Err(Refusal::Error(POLICY_VIOLATION));
    }
    let those = &rule.those;
    let lists = placements(
        alloc,
        those,
        start_of(work),
        first as u64,
        count as u64,
        size,
    )?;
    Ok(draft_create_partitions(alloc, seen, entry, topic, first, &lists)?)
}

// A topic of so many partitions, of which the first leads to `size` replicas, gets more.
#[tactic(auto, using(crate::proofs::Placements::counts))]
fn of_size<S: Store>(
    alloc: Global,
    seen: &Seen<S>,
    rule: &Growing,
    work: &Work,
    entry: &CreatePartitionsTopic,
    topic: &u128,
    first: u32,
    size: usize,
) -> Result<Draft<CreatePartitionsTopicResult>, Refusal>
    requires { pos first <ℤ entry.now.count }
    ensures { Judges result
        (room.of_size rule.now.those seen.now (place_of work.now) entry.now topic.now first size) }
{
    match &entry.assignments {
        Some(assignments) => {
            grow_as_assigned(
                alloc,
                seen,
                entry,
                topic,
                first,
                size,
                assignments.as_slice(),
            )
        }
        None => grow_by_placing(alloc, seen, rule, work, entry, topic, first, size),
    }
}

fn of_topic<S: Store>(
    alloc: Global,
    seen: &Seen<S>,
    rule: &Growing,
    work: &Work,
    entry: &CreatePartitionsTopic,
    topic: &u128,
) -> Result<Draft<CreatePartitionsTopicResult>, Refusal>
    ensures { Judges result (room.of_topic rule.now.those seen.now
        (place_of work.now) entry.now topic.now (topics.count_of seen.now topic.now)) }
{
    let first = count_of(seen, topic);
    if has_as_many(entry, first) {
        return Err(Refusal::Error(INVALID_PARTITIONS));
    }
    match seen.partition(topic, &0) {
        Some(partition) => {
            let size = target_len(partition);
            of_size(alloc, seen, rule, work, entry, topic, first, size)
        }
        None => Err(Refusal::Error(INVALID_REPLICA_ASSIGNMENT)),
    }
}

impl Rule<CreatePartitionsTopic, CreatePartitionsTopicResult> for Growing {
    ghost refusal = { λ _. refused_create_partitions };

    ghost rule = { λ r. room.create_partitions_by_racks r.those };

    fn refusal(
        &self,
        alloc: Global,
        error: &i16,
        entry: &CreatePartitionsTopic,
    ) -> Result<CreatePartitionsTopicResult, NoMemory> {
        answer(alloc, error, entry)
    }

    fn judge<S: Store>(
        &self,
        alloc: Global,
        seen: &Seen<S>,
        work: &Work,
        entry: &CreatePartitionsTopic,
    ) -> Result<Draft<CreatePartitionsTopicResult>, Refusal> {
        match seen.topic_named(&entry.name) {
            Some(topic) => of_topic(alloc, seen, self, work, entry, &topic.id),
            None => Err(Refusal::Error(UNKNOWN_TOPIC_OR_PARTITION)),
        }
    }
}

// The topics in turn, on brokers that are grouped.
fn decide_on<S: Store, L: Ledger>(
    alloc: Global,
    store: &mut S,
    place: &i64,
    those: Grouped,
    topics: &[CreatePartitionsTopic],
    validate_only: bool,
    steps: &mut Steps<L>,
) -> Result<(Records, CreatePartitionsTopicResults), NoMemory>
    requires low { place.now ≤ℤ places_end }
    requires kept { last_image (S.images store.old) ≡ Some (S.images store.old).tip }
    ensures answers { IfOk result (λ d. AnswersEach refused_create_partitions
        (room.create_partitions_by_racks those) place.now topics.now (S.images store.old) d.1) }
    ensures after { IfOk result (λ d. DecidesUnless refused_create_partitions
        (room.create_partitions_by_racks those) validate_only place.now topics.now
        (S.images store.old) (S.images store.new) d.0) }
    ensures kept { (S.images store.new).kept ≡ (S.images store.old).kept }
    ensures calls { (S.images store.new).kept_made ≡ (S.images store.old).kept_made }
    ensures begins { (S.images store.new).kept_begun ≡ (S.images store.old).kept_begun }
    ensures settled { IsSettled (S.images store.old) → IsSettled (S.images store.new) }
    ensures made { IfOk result (λ d. (S.images store.new).made ≤
        (S.images store.old).made + weights (S.images store.old).tip d.0) }
    ensures later { steps.old ≤ steps.new }
{
    let rule = Growing { those };
    decide_or_validate(alloc, store, *place, &rule, topics, validate_only, steps)
}

// The topics of a request in turn.
fn decide_create_partitions<S: Store, L: Ledger>(
    alloc: Global,
    store: &mut S,
    place: &i64,
    request: &CreatePartitions,
    steps: &mut Steps<L>,
) -> Result<(Records, CreatePartitionsTopicResults), NoMemory>
    requires low { place.now ≤ℤ places_end }
    requires kept { last_image (S.images store.old) ≡ Some (S.images store.old).tip }
    ensures answers { IfOk result (λ d.
        AnswersEach refused_create_partitions create_partitions.rule place.now request.now.topics
        (S.images store.old) d.1) }
    ensures after { IfOk result (λ d. room.CreatesPartitions place.now request.now
        (S.images store.old) (S.images store.new) d.0) }
    ensures kept { (S.images store.new).kept ≡ (S.images store.old).kept }
    ensures calls { (S.images store.new).kept_made ≡ (S.images store.old).kept_made }
    ensures begins { (S.images store.new).kept_begun ≡ (S.images store.old).kept_begun }
    ensures settled { IsSettled (S.images store.old) → IsSettled (S.images store.new) }
    ensures made { IfOk result (λ d. (S.images store.new).made ≤
        (S.images store.old).made + weights (S.images store.old).tip d.0) }
    ensures later { steps.old ≤ steps.new }
{
    let those = active_by_rack(alloc, &Seen::tip(store))?;
    let topics = request.topics.as_slice();
    decide_on(
        alloc,
        store,
        place,
        those,
        topics,
        request.validate_only,
        steps,
    )
}

/// Each topic that is named gets more partitions: over the replicas that the request gives, or else placed on the
/// active brokers from the place of the entry's first record on.
#[derive(Drop)]
pub struct CreatePartitionsHandler;

impl Handler<CreatePartitions> for CreatePartitionsHandler {
    ghost decided = { λ request given image. create_partitions.decided image given.place request };

    #[tactic(auto, unfolding(kr_calls::specs::CreatePartitions::decided))]
    fn decide<S: Store, L: Ledger>(
        alloc: Global,
        store: &mut S,
        context: &Context,
        request: &CreatePartitions,
        steps: &mut Steps<L>,
    ) -> Result<Effect, NoMemory> {
        let (records, results) = decide_create_partitions(
            alloc,
            store,
            &context.place,
            request,
            steps,
        )?;
        Ok(Effect {
            records,
            reply: Reply::CreatePartitions(CreatePartitionsReply { results }),
        })
    }
}
