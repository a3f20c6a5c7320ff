//! What is decided of a leader's report of one partition.

ghost use Rattle.std.specs.Prelude.{◌≡◌, IfOk};
ghost use Rattle.std.specs.List.{list_all};
ghost use Rattle.kr_calls.specs.AlterPartition as alter_partition;
ghost use Rattle.kr_rules.specs.Refusals.{Judges};
ghost use Rattle.kr_partitions.specs.inner.EpochReports.{of_members};

use crate::members::{are_bad_members, members};
use kr_base::NoMemory;
use kr_calls::errors::{
    FENCED_LEADER_EPOCH, INELIGIBLE_REPLICA, INVALID_REQUEST, INVALID_UPDATE_VERSION,
    NEW_LEADER_ELECTED, UNKNOWN_LEADER_EPOCH, UNKNOWN_TOPIC_ID, UNKNOWN_TOPIC_OR_PARTITION,
};
use kr_calls::{
    AlterPartitionResult, AlterPartitionResults, AlterPartitionTopic, AlterPartitionTopicResult,
    BrokerState, Draft, PartitionReport,
};
use kr_change::{Want, merge};
use kr_defs::{Broker, Copied, Ids, Options, Partition, PartitionChange, Records, Text};
use kr_listing::change_records;
use kr_replication::{ActiveOnes, build_with, default_want, is_active};
use kr_rules::{Groups, ItemRule, Refusal, Work};
use kr_store::{Seen, Store};
use std::alloc::Global;

/// The rule for the reports of one broker.
#[derive(Drop)]
pub(crate) struct ReportRule<'a> {
    options: &'a Options,
    broker: i32,
}

impl<'a> ReportRule<'a> {
    /// The rule for the reports of the broker of this id, under these options.
    pub fn new(options: &'a Options, broker: &i32) -> ReportRule<'a>
        ensures options { result.options.now ≡ options.now }
        ensures broker { result.broker ≡ broker.now }
    {
        ReportRule {
            options,
            broker: *broker,
        }
    }
}

// The answer to a report that is refused.
fn refusal_answer(
    alloc: Global,
    error: &i16,
    _topic: &u128,
    report: &PartitionReport,
) -> AlterPartitionResult
    ensures { result ≡ alter_partition.refused error.now (_topic.now, report.now) }
{
    AlterPartitionResult {
        index: report.index,
        error: *error,
        leader: 0,
        leader_epoch: 0,
        in_sync: Ids::new(alloc),
        recovery: 0,
        partition_epoch: 0,
    }
}

fn is_bad_recovery(partition: &Partition, report: &PartitionReport) -> bool
    ensures { result ≡ alter_partition.is_bad_recovery partition.now report.now }
{
    let recovery = &report.recovery;
    if *recovery != 0 && *recovery != 1 {
        return true;
    }
    *recovery == 1 && (report.in_sync.len() > 1 || partition.recovery == 0)
}

// The report can't be one of this partition's leader.
fn is_bad(broker: &i32, partition: &Partition, report: &PartitionReport, members: &Ids) -> bool
    requires { members.now ≡ alter_partition.members report.now }
    ensures { result ≡ alter_partition.is_bad broker.now partition.now report.now }
{
    partition.leader != *broker
        || are_bad_members(partition, members)
        || is_bad_recovery(partition, report)
}

// The epoch isn't told, or is that of the registration.
fn is_same_epoch(epoch: &i64, state: &Broker) -> bool
    ensures { result ≡ alter_partition.is_same_epoch epoch.now state.now }
{
    *epoch == -1 || *epoch == state.epoch
}

// The member may be in sync.
fn is_ready<S: Store>(seen: &Seen<S>, member: &BrokerState) -> bool
    ensures { result ≡ alter_partition.is_ready seen.now member.now }
{
    match seen.broker(&member.broker) {
        Some(state) => is_active(state) && is_same_epoch(&member.epoch, state),
        None => false,
    }
}

fn are_ready<S: Store>(seen: &Seen<S>, members: &[BrokerState]) -> bool
    ensures { result ≡ list_all (alter_partition.is_ready seen.now) members.now }
{
    members.iter().all(|member| is_ready(seen, member))
}

fn want_of(
    alloc: Global,
    partition: &Partition,
    report: &PartitionReport,
    members: Ids,
) -> Result<Want, NoMemory>
    requires { members ≡ alter_partition.members report.now }
    ensures { IfOk result (λ want. want ≡ alter_partition.wanted partition.now report.now) }
{
    let want = default_want(alloc, partition)?;
    Ok(Want {
        in_sync: members,
        recovery: report.recovery,
        ..want
    })
}

// The partition's new values, where the broker that reported still leads.
fn answer_to_leader(
    alloc: Global,
    broker: &i32,
    topic: &u128,
    report: &PartitionReport,
    partition: &Partition,
) -> Result<AlterPartitionResult, NoMemory>
    ensures { IfOk result (λ answer. answer ≡ alter_partition.partition_result broker.now (topic.now, report.now) partition.now) }
{
    if partition.leader != *broker {
        return Ok(refusal_answer(alloc, &NEW_LEADER_ELECTED, topic, report));
    }
    let in_sync = partition.in_sync.copied(alloc)?;
    Ok(AlterPartitionResult {
        index: report.index,
        error: 0,
        leader: partition.leader,
        leader_epoch: partition.leader_epoch,
        in_sync,
        recovery: partition.recovery,
        partition_epoch: partition.partition_epoch,
    })
}

fn draft_of(
    alloc: Global,
    broker: &i32,
    topic: &u128,
    report: &PartitionReport,
    partition: &Partition,
    change: Option<PartitionChange>,
) -> Result<Draft<AlterPartitionResult>, NoMemory>
    ensures { IfOk result (λ draft. draft ≡ alter_partition.drafted broker.now (topic.now, report.now) partition.now change) }
{
    match change {
        Some(change) => {
            let after = merge(alloc, partition, &change)?;
            let answer = answer_to_leader(alloc, broker, topic, report, &after)?;
            let records = change_records(alloc, topic, &report.index, Some(change))?;
            Ok(Draft { records, answer })
        }
        None => {
            let answer = answer_to_leader(alloc, broker, topic, report, partition)?;
            let records = Records::new(alloc);
            Ok(Draft { records, answer })
        }
    }
}

// What is said where no refusal fits.
#[tactic(auto, unfolding(kr_calls::specs::AlterPartition::accepted))]
fn accept<S: Store>(
    alloc: Global,
    seen: &Seen<S>,
    rule: &ReportRule,
    topic: &u128,
    report: &PartitionReport,
    name: &Text,
    partition: &Partition,
    members: Ids,
) -> Result<Draft<AlterPartitionResult>, NoMemory>
    requires { members ≡ alter_partition.members report.now }
    ensures { IfOk result (λ draft. draft ≡ alter_partition.accepted rule.now.options.now rule.now.broker seen.now (topic.now, report.now) name.now partition.now) }
{
    let want = want_of(alloc, partition, report, members)?;
    let minimum = &rule.options.minimum;
    let change = build_with(alloc, seen, &ActiveOnes, minimum, name, partition, &want)?;
    draft_of(alloc, &rule.broker, topic, report, partition, change)
}

// What is said of a report that knows the partition's epochs.
#[tactic(auto, unfolding(crate::specs::inner::EpochReports::of_members))]
fn of_members<S: Store>(
    alloc: Global,
    seen: &Seen<S>,
    rule: &ReportRule,
    topic: &u128,
    report: &PartitionReport,
    name: &Text,
    partition: &Partition,
) -> Result<Draft<AlterPartitionResult>, Refusal>
    ensures { Judges result (of_members rule.now.options.now rule.now.broker seen.now (topic.now, report.now) name.now partition.now) }
{
    let members = members(alloc, report)?;
    if is_bad(&rule.broker, partition, report, &members) {
        return Err(Refusal::Error(INVALID_REQUEST));
    }
    if !are_ready(seen, report.in_sync.as_slice()) {
        return Err(Refusal::Error(INELIGIBLE_REPLICA));
    }
    Ok(accept(alloc, seen, rule, topic, report, name, partition, members)?)
}

// What is said of a partition that stands.
#[tactic(auto, unfolding(kr_calls::specs::AlterPartition::of_partition, crate::specs::inner::EpochReports::of_members))]
fn of_partition<S: Store>(
    alloc: Global,
    seen: &Seen<S>,
    rule: &ReportRule,
    topic: &u128,
    report: &PartitionReport,
    name: &Text,
    partition: &Partition,
) -> Result<Draft<AlterPartitionResult>, Refusal>
    ensures { Judges result (alter_partition.of_partition rule.now.options.now rule.now.broker seen.now (topic.now, report.now) name.now partition.now) }
{
    if report.leader_epoch < partition.leader_epoch {
        return Err(Refusal::Error(FENCED_LEADER_EPOCH));
    }
    if report.leader_epoch > partition.leader_epoch {
        return Err(Refusal::Error(UNKNOWN_LEADER_EPOCH));
    }
    if report.partition_epoch != partition.partition_epoch {
        return Err(Refusal::Error(INVALID_UPDATE_VERSION));
    }
    of_members(alloc, seen, rule, topic, report, name, partition)
}

impl<'a> ItemRule<u128, PartitionReport, AlterPartitionResult> for ReportRule<'a> {
    ghost refusal = { λ _. alter_partition.refused };

    ghost rule = { λ r. alter_partition.rule r.options.now r.broker };

    fn refusal(
        &self,
        alloc: Global,
        error: &i16,
        key: &u128,
        item: &PartitionReport,
    ) -> Result<AlterPartitionResult, NoMemory> {
        Ok(refusal_answer(alloc, error, key, item))
    }

    fn judge<S: Store>(
        &self,
        alloc: Global,
        seen: &Seen<S>,
        _work: &Work,
        key: &u128,
        item: &PartitionReport,
    ) -> Result<Draft<AlterPartitionResult>, Refusal> {
        let Some(topic) = seen.topic(key) else {
            return Err(Refusal::Error(UNKNOWN_TOPIC_ID));
        };
        let Some(partition) = seen.partition(key, &item.index) else {
            return Err(Refusal::Error(UNKNOWN_TOPIC_OR_PARTITION));
        };
        of_partition(alloc, seen, self, key, item, &topic.name, partition)
    }
}

impl<'a> Groups<
    AlterPartitionTopic,
    u128,
    PartitionReport,
    AlterPartitionResult,
    AlterPartitionTopicResult,
> for ReportRule<'a> {
    ghost entries_of = { alter_partition.entries_of };

    ghost answer_of = { alter_partition.answer_of };

    fn members<'g>(&self, group: &'g AlterPartitionTopic) -> (&'g u128, &'g [PartitionReport]) {
        (&group.topic, group.partitions.as_slice())
    }

    fn answer(
        &self,
        _alloc: Global,
        group: &AlterPartitionTopic,
        answers: AlterPartitionResults,
    ) -> Result<AlterPartitionTopicResult, NoMemory>
        ensures { IfOk result (λ answer. answer ≡ alter_partition.answer_of group.now answers) }
    {
        Ok(AlterPartitionTopicResult {
            topic: group.topic,
            partitions: answers,
        })
    }
}
