//! Which partitions are well formed, and which lists a partition may be asked to have.

ghost use Rattle.std.specs.Prelude.{◌≡◌, ◌&&◌};
ghost use Rattle.std.specs.List.{list_all};
ghost use Rattle.kr_defs.specs.Build as builds;
ghost use Rattle.kr_defs.specs.Partition as rules;

use crate::id_lists::{are_apart, is_distinct, is_within};
use crate::limits::MOST_REPLICAS;
use crate::{Ids, Partition, Want};

fn are_natural(list: &[i32]) -> bool
    ensures { result ≡ list_all rules.is_natural list.now }
{
    list.iter().all(|id| *id >= 0)
}

/// Each of the list is a replica, and stands once. A list longer than the replicas costs their number a member: it is walked
/// for what stands twice only where all are replicas, and then one of the first does.
pub fn is_part(list: &Ids, replicas: &Ids) -> bool
    ensures { result ≡ rules.is_part list.now replicas.now }
{
    is_within(list.as_slice(), replicas) && is_distinct(list.as_slice())
}

/// 1 to 64 ids, each once, none negative.
pub fn are_replicas(replicas: &Ids) -> bool
    ensures { result ≡ rules.are_replicas replicas.now }
{
    let list = replicas.as_slice();
    !list.is_empty() && list.len() <= MOST_REPLICAS && is_distinct(list) && are_natural(list)
}

/// What is added and what is removed are replicas, none is both, and some replica isn't added and some isn't removed.
pub fn is_reassignment(replicas: &Ids, adding: &Ids, removing: &Ids) -> bool
    ensures { result ≡ rules.is_reassignment replicas.now adding.now removing.now }
{
    is_part(adding, replicas)
        && is_part(removing, replicas)
        && are_apart(adding.as_slice(), removing)
        && !is_within(replicas.as_slice(), adding)
        && !is_within(replicas.as_slice(), removing)
}

fn are_parts(replicas: &Ids, in_sync: &Ids, eligible: &Ids, last_known: &Ids) -> bool
    ensures { result ≡ rules.are_parts replicas.now in_sync.now eligible.now last_known.now }
{
    is_part(in_sync, replicas)
        && is_part(eligible, replicas)
        && is_part(last_known, replicas)
        && are_apart(in_sync.as_slice(), eligible)
        && are_apart(in_sync.as_slice(), last_known)
        && are_apart(eligible.as_slice(), last_known)
}

fn has_leader(partition: &Partition) -> bool
    ensures { result ≡ rules.is_leader partition.now.leader partition.now.in_sync }
{
    partition.leader == -1 || partition.in_sync.contains(&partition.leader)
}

fn is_recovery(recovery: i8) -> bool
    ensures { result ≡ rules.is_recovery recovery }
{
    recovery == 0 || recovery == 1
}

fn has_epochs(partition: &Partition) -> bool
    ensures { result ≡ rules.has_epochs partition.now }
{
    partition.leader_epoch >= 0 && partition.partition_epoch >= 0
}

/// The partition's lists, leader, recovery and epochs meet every rule that an image has for them.
#[tactic(auto, unfolding(crate::specs::Partition::is_well_formed))]
pub fn is_well_formed(partition: &Partition) -> bool
    ensures { result ≡ rules.is_well_formed partition.now }
{
    are_replicas(&partition.replicas)
        && is_reassignment(&partition.replicas, &partition.adding, &partition.removing)
        && are_parts(
            &partition.replicas,
            &partition.in_sync,
            &partition.eligible,
            &partition.last_known,
        )
        && has_leader(partition)
        && is_recovery(partition.recovery)
        && has_epochs(partition)
}

/// What is asked is a replica list with a reassignment, and recovery 0 or 1.
pub fn is_sensible(want: &Want) -> bool
    ensures { result ≡ builds.is_sensible want.now }
{
    are_replicas(&want.replicas)
        && is_reassignment(&want.replicas, &want.adding, &want.removing)
        && is_recovery(want.recovery)
}
