//! What is decided of an election of one partition.

ghost use Rattle.std.specs.Prelude.{◌≡◌, ◌&&◌, not, negsuc, IfOk};
ghost use Rattle.std.specs.Ordering.{int_eq};
ghost use Rattle.kr_defs.specs.Ids.{has};
ghost use Rattle.kr_defs.specs.Brokers.{active};
ghost use Rattle.kr_defs.specs.Build.{built};
ghost use Rattle.kr_defs.specs.Settings.{facts_of};
ghost use Rattle.kr_calls.specs.ElectLeaders as elect_leaders;
ghost use Rattle.kr_rules.specs.Refusals.{Judges};
ghost use Rattle.kr_partitions.specs.inner.NamedLeader.{names_nobody, with_leader};

use kr_base::NoMemory;
use kr_calls::errors::{
    ELECTION_NOT_NEEDED, ELIGIBLE_LEADERS_NOT_AVAILABLE, PREFERRED_LEADER_NOT_AVAILABLE,
    UNKNOWN_TOPIC_OR_PARTITION,
};
use kr_calls::{Draft, PartitionElectionResult, PartitionElectionResults, ReplicaElectionResult};
use kr_change::{Mode, Want};
use kr_defs::{Copied, Ids, Options, Partition, PartitionChange, Text};
use kr_listing::change_records;
use kr_replication::{ActiveOnes, build_with, default_want, is_accepted};
use kr_rules::{Groups, ItemRule, Refusal, Work};
use kr_store::{Seen, Store};
use std::alloc::Global;

/// The rule for elections of one kind: 0 the preferred leaders, 1 any replica where there is no leader.
#[derive(Drop)]
pub(crate) struct ElectionRule<'a> {
    options: &'a Options,
    kind: i8,
}

impl<'a> ElectionRule<'a> {
    /// The rule for elections of this kind, under these options.
    pub fn new(options: &'a Options, kind: &i8) -> ElectionRule<'a>
        ensures options { result.options.now ≡ options.now }
        ensures kind { result.kind ≡ kind.now }
    {
        ElectionRule {
            options,
            kind: *kind,
        }
    }
}

// The answer for a partition.
fn answer(error: &i16, _name: &Text, index: &i32) -> PartitionElectionResult
    ensures { result ≡ elect_leaders.answer error.now (_name.now, index.now) }
{
    PartitionElectionResult {
        index: *index,
        error: *error,
    }
}

fn draft_of(
    alloc: Global,
    name: &Text,
    index: &i32,
    topic: &u128,
    change: Option<PartitionChange>,
) -> Result<Draft<PartitionElectionResult>, NoMemory>
    ensures { IfOk result (λ draft. draft ≡ elect_leaders.drafted (name.now, index.now) topic.now change) }
{
    let records = change_records(alloc, topic, index, change)?;
    let answer = answer(&0, name, index);
    Ok(Draft { records, answer })
}

fn in_mode(alloc: Global, partition: &Partition, mode: Mode) -> Result<Want, NoMemory>
    ensures { IfOk result (λ want. want ≡ elect_leaders.in_mode partition.now mode) }
{
    let want = default_want(alloc, partition)?;
    Ok(Want { mode, ..want })
}

fn first_replica(partition: &Partition) -> i32
    ensures { result ≡ elect_leaders.first_replica partition.now }
{
    match partition.replicas.as_slice().first() {
        Some(id) => *id,
        None => -1,
    }
}

// The change of an election in this mode.
fn election_change<S: Store>(
    alloc: Global,
    seen: &Seen<S>,
    options: &Options,
    name: &Text,
    partition: &Partition,
    mode: Mode,
) -> Result<Option<PartitionChange>, NoMemory>
    ensures { IfOk result (λ change. change ≡ built partition.now (elect_leaders.in_mode partition.now mode) (facts_of options.now seen.now name.now)) }
{
    let want = in_mode(alloc, partition, mode)?;
    build_with(
        alloc,
        seen,
        &ActiveOnes,
        &options.minimum,
        name,
        partition,
        &want,
    )
}

fn is_in_sync_and_active<S: Store>(seen: &Seen<S>, partition: &Partition, id: &i32) -> bool
    ensures { result ≡ (has partition.now.in_sync id.now && has (active seen.now) id.now) }
{
    partition.in_sync.contains(id) && is_accepted(seen, &ActiveOnes, id)
}

// The first replica is to lead.
fn prefers<S: Store>(
    alloc: Global,
    seen: &Seen<S>,
    options: &Options,
    name: &Text,
    index: &i32,
    topic: &u128,
    partition: &Partition,
) -> Result<Draft<PartitionElectionResult>, Refusal>
    ensures { Judges result (elect_leaders.prefers options.now seen.now (name.now, index.now) topic.now partition.now) }
{
    let first = first_replica(partition);
    if partition.leader == first {
        return Err(Refusal::Error(ELECTION_NOT_NEEDED));
    }
    if !is_in_sync_and_active(seen, partition, &first) {
        return Err(Refusal::Error(PREFERRED_LEADER_NOT_AVAILABLE));
    }
    let change = election_change(alloc, seen, options, name, partition, Mode::Preferred)?;
    Ok(draft_of(alloc, name, index, topic, change)?)
}

// No leader is named, or -1.
fn names_nobody(change: &Option<PartitionChange>) -> bool
    ensures { result ≡ names_nobody change.now }
{
    match change {
        Some(change) => change.leader.unwrap_or(-1) == -1,
        None => true,
    }
}

// What is said of a change, where it names a leader.
#[tactic(auto, unfolding(crate::specs::inner::NamedLeader::with_leader))]
fn with_leader(
    alloc: Global,
    name: &Text,
    index: &i32,
    topic: &u128,
    change: Option<PartitionChange>,
) -> Result<Draft<PartitionElectionResult>, Refusal>
    ensures { Judges result (with_leader (name.now, index.now) topic.now change) }
{
    if names_nobody(&change) {
        return Err(Refusal::Error(ELIGIBLE_LEADERS_NOT_AVAILABLE));
    }
    Ok(draft_of(alloc, name, index, topic, change)?)
}

fn has_leader(partition: &Partition) -> bool
    ensures { result ≡ not (int_eq partition.now.leader (negsuc 0)) }
{
    partition.leader != -1
}

// Where nobody leads, any active replica is to lead.
fn elects_any<S: Store>(
    alloc: Global,
    seen: &Seen<S>,
    options: &Options,
    name: &Text,
    index: &i32,
    topic: &u128,
    partition: &Partition,
) -> Result<Draft<PartitionElectionResult>, Refusal>
    ensures { Judges result (elect_leaders.elects_any options.now seen.now (name.now, index.now) topic.now partition.now) }
{
    if has_leader(partition) {
        return Err(Refusal::Error(ELECTION_NOT_NEEDED));
    }
    let change = election_change(alloc, seen, options, name, partition, Mode::Unclean)?;
    with_leader(alloc, name, index, topic, change)
}

fn is_preferred_kind(kind: &i8) -> bool
    ensures { result ≡ elect_leaders.is_preferred_kind kind.now }
{
    *kind == 0
}

/// There are elections of this kind.
pub(crate) fn is_kind(kind: &i8) -> bool
    ensures { result ≡ elect_leaders.is_kind kind.now }
{
    is_preferred_kind(kind) || *kind == 1
}

// What is said of a partition that stands.
fn of_partition<S: Store>(
    alloc: Global,
    seen: &Seen<S>,
    rule: &ElectionRule,
    name: &Text,
    index: &i32,
    topic: &u128,
    partition: &Partition,
) -> Result<Draft<PartitionElectionResult>, Refusal>
    ensures { Judges result (elect_leaders.of_partition rule.now.options.now rule.now.kind seen.now (name.now, index.now) topic.now partition.now) }
{
    if is_preferred_kind(&rule.kind) {
        prefers(alloc, seen, rule.options, name, index, topic, partition)
    } else {
        elects_any(alloc, seen, rule.options, name, index, topic, partition)
    }
}

impl<'a> ItemRule<Text, i32, PartitionElectionResult> for ElectionRule<'a> {
    ghost refusal = { λ _. elect_leaders.answer };

    ghost rule = { λ r. elect_leaders.rule r.options.now r.kind };

    fn refusal(
        &self,
        _alloc: Global,
        error: &i16,
        key: &Text,
        item: &i32,
    ) -> Result<PartitionElectionResult, NoMemory> {
        Ok(answer(error, key, item))
    }

    fn judge<S: Store>(
        &self,
        alloc: Global,
        seen: &Seen<S>,
        _work: &Work,
        key: &Text,
        item: &i32,
    ) -> Result<Draft<PartitionElectionResult>, Refusal> {
        let Some(topic) = seen.topic_named(key) else {
            return Err(Refusal::Error(UNKNOWN_TOPIC_OR_PARTITION));
        };
        let Some(partition) = seen.partition(&topic.id, item) else {
            return Err(Refusal::Error(UNKNOWN_TOPIC_OR_PARTITION));
        };
        of_partition(alloc, seen, self, key, item, &topic.id, partition)
    }
}

impl<'a> Groups<(Text, Ids), Text, i32, PartitionElectionResult, ReplicaElectionResult>
    for ElectionRule<'a> {
    ghost entries_of = { elect_leaders.entries_of };

    ghost answer_of = { elect_leaders.answer_of };

    fn members<'g>(&self, group: &'g (Text, Ids)) -> (&'g Text, &'g [i32]) {
        (&group.0, group.1.as_slice())
    }

    fn answer(
        &self,
        alloc: Global,
        group: &(Text, Ids),
        answers: PartitionElectionResults,
    ) -> Result<ReplicaElectionResult, NoMemory>
        ensures { IfOk result (λ answer. answer ≡ elect_leaders.answer_of group.now answers) }
    {
        let topic = group.0.copied(alloc)?;
        Ok(ReplicaElectionResult {
            topic,
            partitions: answers,
        })
    }
}
