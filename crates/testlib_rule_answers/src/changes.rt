//! What the calls on changes of partitions answer, in words.

ghost use Rattle.std.specs.Prelude.{◌≡◌, IfOk, string_bytes};
ghost use Rattle.kr_defs.specs.Build as builds;
ghost use Rattle.kr_defs.specs.Elect as elections;
ghost use Rattle.kr_defs.specs.Eligible as eligibles;
ghost use Rattle.kr_defs.specs.Merge as merges;
ghost use Rattle.kr_defs.specs.Partition as formed;
ghost use Rattle.testlib_rule_answers.specs.ChangeWords as words;
ghost use Rattle.testlib_words.specs.PlainWords as plain;

use kr_base::NoMemory;
use kr_defs::{Choice, Facts, Ids, Mode, Partition, PartitionChange, Want};
use std::alloc::{AllocError, Global};
use testlib_words::{bool_word, ids_text, join_by_space, number_text, three_given, three_lists};

fn lists_text(alloc: Global, p: &Partition) -> Result<String, AllocError>
    ensures { IfOk result (λ text. string_bytes text ≡ words.list_words p.now) }
{
    let present = three_lists(alloc, &p.replicas, &p.in_sync, &p.eligible)?;
    let others = three_lists(alloc, &p.last_known, &p.adding, &p.removing)?;
    join_by_space(alloc, &present, &others)
}

fn state_text(alloc: Global, p: &Partition) -> Result<String, AllocError>
    ensures { IfOk result (λ text. string_bytes text ≡ words.state_words p.now) }
{
    let (leader, recovery) = (p.leader, p.recovery);
    let (leader_epoch, partition_epoch) = (p.leader_epoch, p.partition_epoch);
    let state = format!(in alloc; "{leader} {recovery}")?;
    let epochs = format!(in alloc; "{leader_epoch} {partition_epoch}")?;
    join_by_space(alloc, &state, &epochs)
}

/// The partition's lists, its leader and recovery, and its epochs.
#[tactic(auto, unfolding(crate::specs::ChangeWords::partition_words))]
pub fn partition_text(alloc: Global, p: &Partition) -> Result<String, AllocError>
    ensures { IfOk result (λ text. string_bytes text ≡ words.partition_words p.now) }
{
    let lists = lists_text(alloc, p)?;
    let state = state_text(alloc, p)?;
    join_by_space(alloc, &lists, &state)
}

fn recovery_text(alloc: Global, recovery: Option<i8>) -> Result<String, AllocError>
    ensures { IfOk result (λ text. string_bytes text ≡ plain.number_words recovery) }
{
    match recovery {
        Some(state) => format!(in alloc; "{state}"),
        None => String::from_str(alloc, "."),
    }
}

#[tactic(auto, unfolding(crate::specs::ChangeWords::change_words))]
fn change_text(alloc: Global, c: &PartitionChange) -> Result<String, AllocError>
    ensures { IfOk result (λ text. string_bytes text ≡ words.change_words c.now) }
{
    let standing = three_given(alloc, &c.in_sync, &c.replicas, &c.removing)?;
    let others = three_given(alloc, &c.adding, &c.eligible, &c.last_known)?;
    let lists = join_by_space(alloc, &standing, &others)?;
    let leader = number_text(alloc, c.leader)?;
    let recovery = recovery_text(alloc, c.recovery)?;
    let numbers = join_by_space(alloc, &leader, &recovery)?;
    join_by_space(alloc, &lists, &numbers)
}

/// The partition after the change.
pub fn merge_answer(
    alloc: Global,
    partition: &Partition,
    change: &PartitionChange,
) -> Result<String, NoMemory>
    ensures { IfOk result (λ text. string_bytes text ≡ words.partition_words (merges.merged
        partition.now change.now)) }
{
    let after = kr_change::merge(alloc, partition, change)?;
    Ok(partition_text(alloc, &after)?)
}

/// The replicas that the partition's reassignment leads to.
pub fn target_answer(alloc: Global, partition: &Partition) -> Result<String, NoMemory>
    ensures { IfOk result (λ text. string_bytes text ≡ plain.ids_words (formed.target
        partition.now)) }
{
    let target = kr_change::target_of(alloc, partition)?;
    Ok(ids_text(alloc, target.as_slice())?)
}

/// Whether a reassignment completes.
pub fn completes_answer(
    alloc: Global,
    replicas: &Ids,
    adding: &Ids,
    removing: &Ids,
    in_sync: &Ids,
) -> Result<String, AllocError>
    ensures { IfOk result (λ text. string_bytes text ≡ plain.bool_words (builds.completes
        replicas.now adding.now removing.now in_sync.now)) }
{
    String::from_str(
        alloc,
        bool_word(kr_change::completes(replicas, adding, removing, in_sync)),
    )
}

/// The eligible replicas and the last known ones.
pub fn eligible_answer(
    alloc: Global,
    partition: &Partition,
    replicas: &Ids,
    in_sync: &Ids,
    minimum: i32,
    restarted: Option<i32>,
) -> Result<String, NoMemory>
    ensures { IfOk result (λ text. string_bytes text ≡ words.stand_by_words
        (eligibles.eligible_after partition.now replicas.now in_sync.now minimum restarted)) }
{
    let (eligible, last_known) = kr_change::eligible_after(
        alloc, partition, replicas, in_sync, minimum, restarted,
    )?;
    let eligible = ids_text(alloc, eligible.as_slice())?;
    let last_known = ids_text(alloc, last_known.as_slice())?;
    Ok(join_by_space(alloc, &eligible, &last_known)?)
}

fn choice_word(choice: Choice) -> &'static str
    ensures { result.now ≡ words.choice_words choice }
{
    match choice {
        Choice::InSync => "InSync",
        Choice::Eligible => "Eligible",
        Choice::Unclean => "Unclean",
        Choice::Nobody => "Nobody",
    }
}

fn election_text(alloc: Global, leader: i32, choice: Choice) -> Result<String, AllocError>
    ensures { IfOk result (λ text. string_bytes text ≡ words.election_words (leader, choice)) }
{
    let word = choice_word(choice);
    format!(in alloc; "{leader} {word}")
}

/// The leader, and among whom it was found.
pub fn elect_answer(
    alloc: Global,
    partition: &Partition,
    replicas: &Ids,
    in_sync: &Ids,
    mode: Mode,
    restarted: Option<i32>,
    facts: &Facts,
) -> Result<String, AllocError>
    ensures { IfOk result (λ text. string_bytes text ≡ words.election_words (elections.elected
        partition.now replicas.now in_sync.now mode restarted facts.now)) }
{
    let (leader, choice) = kr_change::elect(partition, replicas, in_sync, mode, restarted, facts);
    election_text(alloc, leader, choice)
}

fn built_text(alloc: Global, change: &Option<PartitionChange>) -> Result<String, AllocError>
    ensures { IfOk result (λ text. string_bytes text ≡ words.built_words change.now) }
{
    match change {
        Some(change) => change_text(alloc, change),
        None => String::from_str(alloc, "none"),
    }
}

/// The change that brings the partition to what is asked of it.
pub fn build_answer(
    alloc: Global,
    partition: &Partition,
    want: &Want,
    facts: &Facts,
) -> Result<String, NoMemory>
    ensures { IfOk result (λ text. string_bytes text ≡ words.built_words (builds.built
        partition.now want.now facts.now)) }
{
    let change = kr_change::build(alloc, partition, want, facts)?;
    Ok(built_text(alloc, &change)?)
}
