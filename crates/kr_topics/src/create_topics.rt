//! Topics are created.

ghost use Rattle.std.specs.Prelude.{◌≡◌, ◌≤◌, ◌<◌, ◌+◌, ◌*◌, ◌^◌, ◌||◌, ◌==◌, pos, ◌≤ℤ◌, Some, not, false, length, find, unsigned_abs, IfOk, if◌then◌else◌};
ghost use Rattle.std.specs.List.{list_any, range_with_len};
ghost use Rattle.kr_defs.specs.declared.limits.TheConstants.{PLACES_END as places_end};
ghost use Rattle.kr_defs.specs.declared.record.Record.TheVariants as kinds;
ghost use Rattle.kr_defs.specs.Image.{has_topic};
ghost use Rattle.kr_defs.specs.Map as entries;
ghost use Rattle.kr_defs.specs.Map.{text_order};
ghost use Rattle.kr_defs.specs.Texts as texts;
ghost use Rattle.kr_calls.specs.CreateTopics as create_topics;
ghost use Rattle.kr_calls.specs.Deciding.{weights};
ghost use Rattle.kr_calls.specs.NewPartitions as partitions;
ghost use Rattle.kr_calls.specs.Refuse.{refused_create_topics};
ghost use Rattle.kr_rules.specs.Decisions.{AnswersEach};
ghost use Rattle.kr_rules.specs.Progress.{place_of};
ghost use Rattle.kr_rules.specs.Refusals.{Judges};
ghost use Rattle.kr_store.specs.Images.{IsSettled, last_image};
ghost use Rattle.kr_topics.specs.inner.EntryRules as room;

use crate::assigning::{are_assignable, first_size, lists_of};
use crate::partitions::{Lists, add_partitions, has_room, placements, start_of};
use crate::racks::active_by_rack;
use crate::settings::{add_settings, has_bad_setting};
use kr_base::{NoMemory, Steps};
use kr_calls::errors::{
    INVALID_CONFIG, INVALID_PARTITIONS, INVALID_REPLICA_ASSIGNMENT, INVALID_REPLICATION_FACTOR,
    INVALID_REQUEST, INVALID_TOPIC_EXCEPTION, POLICY_VIOLATION, TOPIC_ALREADY_EXISTS,
};
use kr_calls::{
    CreatableReplicaAssignment, CreatableTopic, CreatableTopicResult, CreatableTopicResults,
    CreateTopics, CreateTopicsReply, Draft, Effect, Reply,
};
use kr_defs::limits::MOST_TARGETS;
use kr_defs::{Copied, Options, Record, Records, Rows, Text, is_topic_name};
use kr_place::Grouped;
use kr_replication::has_agreeing_name;
use kr_rules::{Handler, Refusal, Rule, Work, decide_or_validate};
use kr_sessions::Context;
use kr_store::{Seen, Store};
use std::alloc::Global;
use std::sync::ledger::Ledger;

// The number of ids with one high half.
const LOW_IDS: u128 = 18_446_744_073_709_551_616;

// What is decided of one topic to create, where the active brokers are grouped by rack.
#[derive(Drop)]
struct Creating<'a> {
    options: &'a Options,
    validate_only: bool,
    those: Grouped,
}

// ---- the id

fn is_free<S: Store>(seen: &Seen<S>, id: u128) -> bool
    ensures { result ≡ not (has_topic seen.now.topics id) }
{
    seen.topic(&id).is_none()
}

// The first id among so many that no topic has.
fn free_id<S: Store>(seen: &Seen<S>, first: u128, count: u128) -> Option<u128>
    requires { first + count < 2 ^ 128 }
    ensures { result ≡ find (λ id. not (has_topic seen.now.topics id))
        (range_with_len first count) }
{
    for id in first..first + count {
        if is_free(seen, id) {
            return Some(id);
        }
    }
    None
}

fn first_id(options: &Options, work: &Work) -> u128
    ensures value { result ≡ options.now.salt * 2 ^ 64 + unsigned_abs (place_of work.now) + 1 }
    ensures room { result + 2 ^ 33 < 2 ^ 128 }
{
    options.salt as u128 * LOW_IDS + start_of(work) as u128 + 1
}

fn new_id<S: Store>(seen: &Seen<S>, options: &Options, work: &Work) -> u128
    ensures { result ≡ create_topics.new_id options.now seen.now (place_of work.now) }
{
    let first = first_id(options, work);
    let count = seen.counts().topics as u128 + 1;
    free_id(seen, first, count).unwrap_or(first)
}

// ---- the name

// Another name may become the same after each `.` becomes `_`.
fn may_agree(name: &Text) -> bool
    ensures { result ≡ list_any (λ byte. byte == 46 || byte == 95) name.now }
{
    name.as_bytes()
        .iter()
        .any(|byte| *byte == b'.' || *byte == b'_')
}

// There is a topic whose name agrees with this one, which is that of no topic.
fn is_like_another<S: Store>(alloc: Global, seen: &Seen<S>, name: &Text) -> Result<bool, NoMemory>
    requires { entries.contains text_order seen.now.topics name.now ≡ false }
    ensures { IfOk result (λ is. is ≡
        list_any (λ topic. texts.names_agree topic.0 name.now) seen.now.topics) }
{
    if may_agree(name) {
        has_agreeing_name(alloc, seen, name)
    } else {
        Ok(false)
    }
}

// ---- the records

fn answer(
    alloc: Global,
    entry: &CreatableTopic,
    topic: &u128,
    error: &i16,
    partitions: &i32,
    factor: &i16,
) -> Result<CreatableTopicResult, NoMemory>
    ensures { IfOk result (λ answer. answer ≡ record { name = entry.now.name; topic = topic.now; error = error.now; partitions = partitions.now; factor = factor.now }) }
{
    let name = entry.name.copied(alloc)?;
    Ok(CreatableTopicResult {
        name,
        topic: *topic,
        error: *error,
        partitions: *partitions,
        factor: *factor,
    })
}

// The id that the answer shows.
fn shown_id(validate_only: bool, id: &u128) -> u128
    ensures { result ≡ (if validate_only then 0 else id.now) }
{
    if validate_only { 0 } else { *id }
}

fn topic_record(alloc: Global, name: &Text, id: &u128) -> Result<Record, NoMemory>
    ensures { IfOk result (λ topic. topic ≡ kinds.Topic name.now id.now) }
{
    let name = name.copied(alloc)?;
    Ok(Record::Topic { name, id: *id })
}

// The records of a topic, its settings and its partitions.
fn records_of<S: Store>(
    alloc: Global,
    seen: &Seen<S>,
    entry: &CreatableTopic,
    id: &u128,
    lists: &Lists,
) -> Result<Records, NoMemory>
    requires { length lists.now ≤ 2 ^ 31 }
    ensures { IfOk result (λ records. records ≡
        room.new_topic_records seen.now id.now entry.now lists.now) }
{
    let mut records = Rows::new(alloc);
    records.push(topic_record(alloc, &entry.name, id)?)?;
    add_settings(
        alloc,
        seen,
        &mut records,
        &entry.name,
        entry.configs.as_slice(),
    )?;
    add_partitions(alloc, seen, &mut records, id, 0, lists.as_slice())?;
    Ok(records)
}

fn draft_create_topics<S: Store>(
    alloc: Global,
    seen: &Seen<S>,
    rule: &Creating,
    work: &Work,
    entry: &CreatableTopic,
    partitions: &i32,
    factor: &i16,
    lists: &Lists,
) -> Result<Draft<CreatableTopicResult>, NoMemory>
    requires { length lists.now ≤ 2 ^ 31 }
    ensures { IfOk result (λ draft. draft ≡
        room.topic_draft rule.now.options.now rule.now.validate_only seen.now
        (place_of work.now) entry.now (room.laid partitions.now factor.now lists.now)) }
{
    let id = new_id(seen, rule.options, work);
    let records = records_of(alloc, seen, entry, &id, lists)?;
    let shown = shown_id(rule.validate_only, &id);
    let answer = answer(alloc, entry, &shown, &0, partitions, factor)?;
    Ok(Draft { records, answer })
}

// ---- with assignments

fn count_of(lists: &Lists) -> i32
    requires { length lists.now < 2 ^ 31 }
    ensures { result ≡ pos (length lists.now) }
{
    lists.len() as i32
}

fn size_of(assignments: &[CreatableReplicaAssignment]) -> i16
    requires { create_topics.first_size assignments.now ≤ 32 }
    ensures { result ≡ pos (create_topics.first_size assignments.now) }
{
    first_size(assignments) as i16
}

// The replicas that were given for each partition.
#[tactic(auto, using(crate::proofs::Assignments::few_first))]
fn create_as_assigned<S: Store>(
    alloc: Global,
    seen: &Seen<S>,
    rule: &Creating,
    work: &Work,
    entry: &CreatableTopic,
) -> Result<Draft<CreatableTopicResult>, Refusal>
    ensures { Judges result (room.created_over rule.now.options.now rule.now.validate_only seen.now
        (place_of work.now) entry.now (create_topics.assigned seen.now entry.now)) }
{
    if entry.partitions != -1 || entry.factor != -1 {
        return Err(Refusal::Error(INVALID_REQUEST));
    }
    let assignments = entry.assignments.as_slice();
    let Some(lists) = lists_of(alloc, assignments)? else {
        return Err(Refusal::Error(INVALID_REPLICA_ASSIGNMENT));
    };
    if !are_assignable(seen, assignments) {
        return Err(Refusal::Error(INVALID_REPLICA_ASSIGNMENT));
    }
    if has_bad_setting(entry.configs.as_slice()) {
        return Err(Refusal::Error(INVALID_CONFIG));
    }
    if !has_room(seen, lists.len()) {
        return Err(Refusal::Error(POLICY_VIOLATION));
    }
    let partitions = count_of(&lists);
    let factor = size_of(assignments);
    Ok(draft_create_topics(alloc, seen, rule, work, entry, &partitions, &factor, &lists)?)
}

// ---- without assignments

fn partitions_of(options: &Options, entry: &CreatableTopic) -> i32
    ensures { result ≡ create_topics.or_default entry.now.partitions options.now.partitions }
{
    if entry.partitions == -1 {
        options.partitions
    } else {
        entry.partitions
    }
}

fn factor_of(options: &Options, entry: &CreatableTopic) -> i16
    ensures { result ≡ create_topics.or_default entry.now.factor options.now.factor }
{
    if entry.factor == -1 {
        options.factor
    } else {
        entry.factor
    }
}

fn is_factor(those: &Grouped, factor: i16) -> bool
    ensures { result ≡ room.is_factor_among those.now factor }
{
    1 <= factor && factor as usize <= MOST_TARGETS && factor as usize <= those.count()
}

// The replicas are placed on the active brokers.
#[tactic(auto, using(crate::proofs::Placements::counts))]
fn create_by_placing<S: Store>(
    alloc: Global,
    seen: &Seen<S>,
    rule: &Creating,
    work: &Work,
    entry: &CreatableTopic,
) -> Result<Draft<CreatableTopicResult>, Refusal>
    ensures { Judges result (room.created_by_placing rule.now.those rule.now.options.now rule.now.validate_only seen.now (place_of work.now) entry.now) }
{
    let partitions = partitions_of(rule.options, entry);
    if partitions < 1 {
        return Err(Refusal::Error(INVALID_PARTITIONS));
    }
    let factor = factor_of(rule.options, entry);
    if !is_factor(&rule.those, factor) {
        return Err(Refusal::Error(INVALID_REPLICATION_FACTOR));
    }
    if has_bad_setting(entry.configs.as_slice()) {
        return Err(Refusal::Error(INVALID_CONFIG));
    }
    if !has_room(seen, partitions.unsigned_abs() as usize) {
        return Err(Refusal::Error(POLICY_VIOLATION));
    }
    let lists = placements(
        alloc,
        &rule.those,
        start_of(work),
        0,
        partitions.unsigned_abs() as u64,
        factor.unsigned_abs() as usize,
    )?;
    Ok(draft_create_topics(alloc, seen, rule, work, entry, &partitions, &factor, &lists)?)
}

// ---- the rule

// A topic whose name is a new one.
fn create_new<S: Store>(
    alloc: Global,
    seen: &Seen<S>,
    rule: &Creating,
    work: &Work,
    entry: &CreatableTopic,
) -> Result<Draft<CreatableTopicResult>, Refusal>
    ensures { Judges result
        (room.created_new rule.now.those rule.now.options.now rule.now.validate_only seen.now
        (place_of work.now) entry.now) }
{
    if entry.assignments.is_empty() {
        create_by_placing(alloc, seen, rule, work, entry)
    } else {
        create_as_assigned(alloc, seen, rule, work, entry)
    }
}

impl<'a> Rule<CreatableTopic, CreatableTopicResult> for Creating<'a> {
    ghost refusal = { λ _. refused_create_topics };

    ghost rule = { λ r. room.create_topics_by_racks r.those r.options.now r.validate_only };

    fn refusal(
        &self,
        alloc: Global,
        error: &i16,
        entry: &CreatableTopic,
    ) -> Result<CreatableTopicResult, NoMemory> {
        answer(alloc, entry, &0, error, &-1, &-1)
    }

    fn judge<S: Store>(
        &self,
        alloc: Global,
        seen: &Seen<S>,
        work: &Work,
        entry: &CreatableTopic,
    ) -> Result<Draft<CreatableTopicResult>, Refusal> {
        if !is_topic_name(&entry.name) {
            return Err(Refusal::Error(INVALID_TOPIC_EXCEPTION));
        }
        if seen.topic_named(&entry.name).is_some() {
            return Err(Refusal::Error(TOPIC_ALREADY_EXISTS));
        }
        if is_like_another(alloc, seen, &entry.name)? {
            return Err(Refusal::Error(INVALID_TOPIC_EXCEPTION));
        }
        create_new(alloc, seen, self, work, entry)
    }
}

// The topics in turn, on brokers that are grouped.
fn decide_on<S: Store, L: Ledger>(
    alloc: Global,
    store: &mut S,
    options: &Options,
    place: &i64,
    those: Grouped,
    topics: &[CreatableTopic],
    validate_only: bool,
    steps: &mut Steps<L>,
) -> Result<(Records, CreatableTopicResults), NoMemory>
    requires low { place.now ≤ℤ places_end }
    requires kept { last_image (S.images store.old) ≡ Some (S.images store.old).tip }
    ensures answers { IfOk result (λ d. AnswersEach refused_create_topics
        (room.create_topics_by_racks those options.now validate_only) place.now topics.now
        (S.images store.old) d.1) }
    ensures after { IfOk result (λ d.
        room.CreatesOn those options.now validate_only place.now topics.now (S.images store.old)
        (S.images store.new) d.0) }
    ensures kept { (S.images store.new).kept ≡ (S.images store.old).kept }
    ensures calls { (S.images store.new).kept_made ≡ (S.images store.old).kept_made }
    ensures begins { (S.images store.new).kept_begun ≡ (S.images store.old).kept_begun }
    ensures settled { IsSettled (S.images store.old) → IsSettled (S.images store.new) }
    ensures made { IfOk result (λ d. (S.images store.new).made ≤
        (S.images store.old).made + weights (S.images store.old).tip d.0) }
    ensures later { steps.old ≤ steps.new }
{
    let rule = Creating {
        options,
        validate_only,
        those,
    };
    decide_or_validate(alloc, store, *place, &rule, topics, validate_only, steps)
}

// The topics of a request in turn.
fn decide_create_topics<S: Store, L: Ledger>(
    alloc: Global,
    store: &mut S,
    options: &Options,
    place: &i64,
    request: &CreateTopics,
    steps: &mut Steps<L>,
) -> Result<(Records, CreatableTopicResults), NoMemory>
    requires low { place.now ≤ℤ places_end }
    requires kept { last_image (S.images store.old) ≡ Some (S.images store.old).tip }
    ensures answers { IfOk result (λ d. AnswersEach refused_create_topics
        (create_topics.rule options.now request.now.validate_only) place.now request.now.topics
        (S.images store.old) d.1) }
    ensures after { IfOk result (λ d. room.CreatesTopics options.now place.now request.now
        (S.images store.old) (S.images store.new) d.0) }
    ensures kept { (S.images store.new).kept ≡ (S.images store.old).kept }
    ensures calls { (S.images store.new).kept_made ≡ (S.images store.old).kept_made }
    ensures begins { (S.images store.new).kept_begun ≡ (S.images store.old).kept_begun }
    ensures settled { IsSettled (S.images store.old) → IsSettled (S.images store.new) }
    ensures made { IfOk result (λ d. (S.images store.new).made ≤
        (S.images store.old).made + weights (S.images store.old).tip d.0) }
    ensures later { steps.old ≤ steps.new }
{
    let those = active_by_rack(alloc, &Seen::tip(store))?;
    let topics = request.topics.as_slice();
    decide_on(
        alloc,
        store,
        options,
        place,
        those,
        topics,
        request.validate_only,
        steps,
    )
}

/// Each topic whose name is new is created, with its settings and its partitions: over the replicas that the request
/// gives, or else placed on the active brokers from the place of the topic's record on.
#[derive(Drop)]
pub struct CreateTopicsHandler;

impl Handler<CreateTopics> for CreateTopicsHandler {
    ghost decided = { λ request given image. create_topics.decided given.options.now image given.place request };

    #[tactic(auto, unfolding(kr_calls::specs::CreateTopics::decided))]
    fn decide<S: Store, L: Ledger>(
        alloc: Global,
        store: &mut S,
        context: &Context,
        request: &CreateTopics,
        steps: &mut Steps<L>,
    ) -> Result<Effect, NoMemory> {
        let (records, topics) = decide_create_topics(
            alloc,
            store,
            context.options,
            &context.place,
            request,
            steps,
        )?;
        Ok(Effect {
            records,
            reply: Reply::CreateTopics(CreateTopicsReply { topics }),
        })
    }
}
