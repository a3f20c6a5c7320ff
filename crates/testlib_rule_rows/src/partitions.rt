//! Rows on partitions.

use kr_defs::{Facts, Ids, Mode, Partition, PartitionChange, Want};
use std::alloc::Global;
use testlib_rule_answers::{
    build_answer, completes_answer, elect_answer, eligible_answer, merge_answer, target_answer,
};
use testlib_words::{Fields, RowFault};

/// What is asked of a partition.
#[derive(Clone, Copy)]
pub enum Question {
    /// The partition, a bar and a change: the partition after it.
    Merge,
    /// The partition: the replicas that its reassignment leads to.
    Target,
    /// The replicas, those added, those removed and those in sync: whether the reassignment completes.
    Completes,
    /// The partition, a bar, the replicas, those in sync, the minimum and a restarted broker: the eligible and the last known
    /// replicas.
    Eligible,
    /// The partition, a bar, the replicas, those in sync, the mode and a restarted broker, and the facts: the leader, and among
    /// whom it was found.
    Elect,
    /// The partition, a bar, what is to come of it, and the facts: the change.
    Build,
}

// A partition, and what is asked of it.
#[derive(Drop)]
struct Asked {
    partition: Partition,
    change: PartitionChange,
    want: Want,
    facts: Facts,
}

fn no_partition(alloc: Global) -> Partition {
    Partition {
        replicas: Ids::new(alloc),
        in_sync: Ids::new(alloc),
        eligible: Ids::new(alloc),
        last_known: Ids::new(alloc),
        adding: Ids::new(alloc),
        removing: Ids::new(alloc),
        leader: -1,
        recovery: 0,
        leader_epoch: 0,
        partition_epoch: 0,
    }
}

fn no_want(alloc: Global) -> Want {
    Want {
        replicas: Ids::new(alloc),
        adding: Ids::new(alloc),
        removing: Ids::new(alloc),
        in_sync: Ids::new(alloc),
        recovery: 0,
        mode: Mode::Plain,
        restarted: None,
    }
}

fn no_facts(alloc: Global) -> Facts {
    Facts {
        active: Ids::new(alloc),
        unclean: false,
        minimum: 1,
    }
}

fn no_change() -> PartitionChange {
    PartitionChange {
        in_sync: None,
        replicas: None,
        removing: None,
        adding: None,
        eligible: None,
        last_known: None,
        leader: None,
        recovery: None,
    }
}

impl Asked {
    fn nothing(alloc: Global) -> Asked {
        Asked {
            partition: no_partition(alloc),
            change: no_change(),
            want: no_want(alloc),
            facts: no_facts(alloc),
        }
    }
}

// The replicas, those in sync, the eligible, the last known, the added and the removed ones.
fn read_lists(fields: &mut Fields, partition: &mut Partition) -> Result<(), RowFault> {
    fields.ids(&mut partition.replicas)?;
    fields.ids(&mut partition.in_sync)?;
    fields.ids(&mut partition.eligible)?;
    fields.ids(&mut partition.last_known)?;
    fields.ids(&mut partition.adding)?;
    fields.ids(&mut partition.removing)
}

// The lists; then leader and recovery, and the epochs of the leader and of the partition.
fn read_partition(fields: &mut Fields, partition: &mut Partition) -> Result<(), RowFault> {
    read_lists(fields, partition)?;
    partition.leader = fields.number()?;
    partition.recovery = fields.number()?;
    partition.leader_epoch = fields.number()?;
    partition.partition_epoch = fields.number()?;
    Ok(())
}

fn read_mode(fields: &mut Fields) -> Result<Mode, RowFault> {
    match fields.word()? {
        "Plain" => Ok(Mode::Plain),
        "Preferred" => Ok(Mode::Preferred),
        "Unclean" => Ok(Mode::Unclean),
        _ => Err(RowFault::Fields),
    }
}

// The fields in the order of their tags, `.` for one that is absent.
fn read_change(
    alloc: Global,
    fields: &mut Fields,
    change: &mut PartitionChange,
) -> Result<(), RowFault> {
    read_changed_lists(alloc, fields, change)?;
    change.eligible = fields.ids_or_none(alloc)?;
    change.last_known = fields.ids_or_none(alloc)?;
    change.leader = fields.number_or_none()?;
    change.recovery = fields.number_or_none()?;
    Ok(())
}

fn read_changed_lists(
    alloc: Global,
    fields: &mut Fields,
    change: &mut PartitionChange,
) -> Result<(), RowFault> {
    change.in_sync = fields.ids_or_none(alloc)?;
    change.replicas = fields.ids_or_none(alloc)?;
    change.removing = fields.ids_or_none(alloc)?;
    change.adding = fields.ids_or_none(alloc)?;
    Ok(())
}

// The replicas that are asked for, those to be added and to be removed, and those in sync.
fn read_wanted(fields: &mut Fields, want: &mut Want) -> Result<(), RowFault> {
    fields.ids(&mut want.replicas)?;
    fields.ids(&mut want.adding)?;
    fields.ids(&mut want.removing)?;
    fields.ids(&mut want.in_sync)
}

// The lists that are asked for, recovery and mode, and a broker that has restarted uncleanly.
fn read_want(fields: &mut Fields, want: &mut Want) -> Result<(), RowFault> {
    read_wanted(fields, want)?;
    want.recovery = fields.number()?;
    want.mode = read_mode(fields)?;
    want.restarted = fields.number_or_none()?;
    Ok(())
}

// Behind a bar the active brokers, whether unclean election is on, and the least number in sync.
fn read_facts(fields: &mut Fields, facts: &mut Facts) -> Result<(), RowFault> {
    fields.bar()?;
    fields.ids(&mut facts.active)?;
    facts.unclean = fields.number()?;
    facts.minimum = fields.number()?;
    Ok(())
}

/// The answer to the question, whose fields these are.
pub fn change_row(
    alloc: Global,
    question: Question,
    fields: &mut Fields,
) -> Result<String, RowFault> {
    let mut asked = Asked::nothing(alloc);
    answer(alloc, question, fields, &mut asked)
}

fn answer(
    alloc: Global,
    question: Question,
    fields: &mut Fields,
    asked: &mut Asked,
) -> Result<String, RowFault> {
    match question {
        Question::Merge => merge(alloc, fields, asked),
        Question::Target => target(alloc, fields, asked),
        Question::Completes => completes(alloc, fields, &mut asked.want),
        Question::Eligible => eligible(alloc, fields, asked),
        Question::Elect => elect(alloc, fields, asked),
        Question::Build => build(alloc, fields, asked),
    }
}

fn merge(alloc: Global, fields: &mut Fields, asked: &mut Asked) -> Result<String, RowFault> {
    read_partition(fields, &mut asked.partition)?;
    fields.bar()?;
    read_change(alloc, fields, &mut asked.change)?;
    Ok(merge_answer(alloc, &asked.partition, &asked.change)?)
}

fn target(alloc: Global, fields: &mut Fields, asked: &mut Asked) -> Result<String, RowFault> {
    read_partition(fields, &mut asked.partition)?;
    Ok(target_answer(alloc, &asked.partition)?)
}

fn completes(alloc: Global, fields: &mut Fields, want: &mut Want) -> Result<String, RowFault> {
    read_wanted(fields, want)?;
    Ok(completes_answer(
        alloc,
        &want.replicas,
        &want.adding,
        &want.removing,
        &want.in_sync,
    )?)
}

fn eligible(alloc: Global, fields: &mut Fields, asked: &mut Asked) -> Result<String, RowFault> {
    read_standing_by(fields, asked)?;
    asked.facts.minimum = fields.number()?;
    asked.want.restarted = fields.number_or_none()?;
    Ok(eligible_answer(
        alloc,
        &asked.partition,
        &asked.want.replicas,
        &asked.want.in_sync,
        asked.facts.minimum,
        asked.want.restarted,
    )?)
}

// A partition, a bar, the replicas and those in sync.
fn read_standing_by(fields: &mut Fields, asked: &mut Asked) -> Result<(), RowFault> {
    read_partition(fields, &mut asked.partition)?;
    fields.bar()?;
    fields.ids(&mut asked.want.replicas)?;
    fields.ids(&mut asked.want.in_sync)
}

fn elect(alloc: Global, fields: &mut Fields, asked: &mut Asked) -> Result<String, RowFault> {
    read_standing_by(fields, asked)?;
    asked.want.mode = read_mode(fields)?;
    asked.want.restarted = fields.number_or_none()?;
    read_facts(fields, &mut asked.facts)?;
    Ok(elect_answer(
        alloc,
        &asked.partition,
        &asked.want.replicas,
        &asked.want.in_sync,
        asked.want.mode,
        asked.want.restarted,
        &asked.facts,
    )?)
}

fn build(alloc: Global, fields: &mut Fields, asked: &mut Asked) -> Result<String, RowFault> {
    read_partition(fields, &mut asked.partition)?;
    fields.bar()?;
    read_want(fields, &mut asked.want)?;
    read_facts(fields, &mut asked.facts)?;
    Ok(build_answer(alloc, &asked.partition, &asked.want, &asked.facts)?)
}
