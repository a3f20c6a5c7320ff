//! The plan: by tallies of all brokers, what is imbalanced of those that are above.

ghost use Rattle.std.specs.Prelude.{◌≡◌, ◌++◌, IfOk, OnOk};
ghost use Rattle.kr_store.specs.Reads.{LooksUp};
ghost use Rattle.kr_balance.specs.Plan as plans;
ghost use Rattle.kr_balance.specs.inner.Planned as planned;

use crate::counts::{Tallies, Tally, count_partitions, is_imbalanced, preferred_leader, tally_of};
use kr_base::NoMemory;
use kr_defs::{Copied, Partition, Rows, Text};
use kr_listing::{PartitionPart, TopicPart, add_partitions, gather_topics};
use kr_store::{At, ReadFault, Seen, Store};
use std::alloc::Global;

/// Partitions, each by its topic's name and its index.
pub type Named = Rows<(Text, i32)>;

// More than so many of a hundred are imbalanced.
fn is_over(percent: u8, tally: &Tally) -> bool
    ensures { result ≡ planned.is_over percent tally.now }
{
    u64::from(percent) * u64::from(tally.preferring) < u64::from(tally.imbalanced) * 100
}

fn is_planned<S: Store>(
    seen: &Seen<S>,
    tallies: &Tallies,
    percent: u8,
    partition: &Partition,
) -> bool
    ensures { result ≡ planned.is_planned_by seen.now tallies.now.entries percent partition.now }
{
    let preferred = preferred_leader(partition);
    is_imbalanced(seen, partition, &preferred) && is_over(percent, &tally_of(tallies, &preferred))
}

// A partition of this topic, where it is planned.
#[derive(Drop)]
struct PlannedPartitions<'a, 's, S: Store> {
    seen: &'a Seen<'s, S>,
    tallies: &'a Tallies,
    percent: u8,
    name: &'a Text,
}

impl<'a, 's, S: Store> PartitionPart<(Text, i32)> for PlannedPartitions<'a, 's, S> {
    ghost part = { λ s e. planned.planned_row s.seen.now s.tallies.now.entries s.percent s.name.now e };

    fn add(
        &self,
        alloc: Global,
        key: &(u128, i32),
        partition: &Partition,
        rows: &mut Named,
    ) -> Result<(), NoMemory> {
        if is_planned(self.seen, self.tallies, self.percent, partition) {
            rows.push((self.name.copied(alloc)?, key.1))?;
        }
        Ok(())
    }
}

// What is planned of a topic.
#[derive(Drop)]
struct PlannedTopics<'a> {
    tallies: &'a Tallies,
    percent: u8,
}

impl<'a> TopicPart<(Text, i32)> for PlannedTopics<'a> {
    ghost part = { λ s image topic. planned.planned_rows image s.tallies.now.entries s.percent topic };

    fn add<S: Store>(
        &self,
        alloc: Global,
        seen: &Seen<S>,
        name: &Text,
        id: &u128,
        rows: &mut Named,
    ) -> Result<(), NoMemory> {
        let part = PlannedPartitions {
            seen,
            tallies: self.tallies,
            percent: self.percent,
            name,
        };
        add_partitions(alloc, seen, &part, id, rows)
    }
}

/// The partitions that are imbalanced, of all brokers of which more than so many of a hundred are, in walking order, by the
/// image that is seen. An error is want of memory alone.
pub fn plan_of<S: Store>(alloc: Global, seen: &Seen<S>, percent: u8) -> Result<Named, NoMemory>
    ensures { IfOk result (λ rows. rows ≡ plans.plan seen.now percent) }
{
    let tallies = count_partitions(alloc, seen)?;
    let part = PlannedTopics {
        tallies: &tallies,
        percent,
    };
    let rows = gather_topics(alloc, seen, &part)?;
    Ok(rows)
}

/// The same by the image at the place. NoEpoch exactly where that is an epoch that isn't kept.
pub fn plan<S: Store>(alloc: Global, store: &S, at: At, percent: u8) -> Result<Named, ReadFault>
    ensures { LooksUp (S.images store.now) at result (λ image. plans.plan image percent) }
{
    let seen = Seen::at(store, at)?;
    Ok(plan_of(alloc, &seen, percent)?)
}
