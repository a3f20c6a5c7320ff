//! The fields in which a partition differs from what it was.

ghost use Rattle.std.specs.Prelude.{◌≡◌, ◌&&◌};
ghost use Rattle.std.specs.Cmp.Lexicographic.{pointwise};
ghost use Rattle.std.specs.Ordering.{int_eq};
ghost use Rattle.kr_defs.specs.Build as builds;
ghost use Rattle.kr_defs.specs.Ids as ids;

use kr_defs::{Ids, Partition, PartitionChange, is_within};

fn same_members(old: &Ids, new: &Ids) -> bool
    ensures { result ≡ builds.same_members old.now new.now }
{
    is_within(old.as_slice(), new) && is_within(new.as_slice(), old)
}

fn is_equal(old: &[i32], new: &[i32]) -> bool
    ensures { result ≡ pointwise int_eq old.now new.now }
{
    old == new
}

// The new list, where its members aren't those of the old.
fn changed_set(old: &Ids, new: Ids) -> Option<Ids>
    ensures { result ≡ builds.unless (builds.same_members old.now new) new }
{
    if same_members(old, &new) {
        None
    } else {
        Some(new)
    }
}

// The new list, where it isn't the old.
fn changed_list(old: &Ids, new: Ids) -> Option<Ids>
    ensures { result ≡ builds.unless (pointwise int_eq old.now new) new }
{
    if is_equal(old.as_slice(), new.as_slice()) {
        None
    } else {
        Some(new)
    }
}

// The new leader, where it isn't the old or a replica goes.
fn changed_leader(old: &Partition, replicas: &Ids, leader: i32) -> Option<i32>
    ensures { result ≡ builds.unless (int_eq old.now.leader leader && ids.is_within old.now.replicas replicas.now) leader }
{
    if old.leader == leader && is_within(old.replicas.as_slice(), replicas) {
        None
    } else {
        Some(leader)
    }
}

fn changed_recovery(old: i8, new: i8) -> Option<i8>
    ensures { result ≡ builds.unless (int_eq old new) new }
{
    if old == new { None } else { Some(new) }
}

#[tactic(auto, unfolding(kr_defs::specs::Build::difference))]
fn fields(old: &Partition, new: Partition) -> PartitionChange
    ensures { result ≡ builds.difference old.now new }
{
    let leader = changed_leader(old, &new.replicas, new.leader);
    PartitionChange {
        in_sync: changed_set(&old.in_sync, new.in_sync),
        replicas: changed_list(&old.replicas, new.replicas),
        removing: changed_list(&old.removing, new.removing),
        adding: changed_list(&old.adding, new.adding),
        eligible: changed_set(&old.eligible, new.eligible),
        last_known: changed_set(&old.last_known, new.last_known),
        leader,
        recovery: changed_recovery(old.recovery, new.recovery),
    }
}

fn is_blank(change: &PartitionChange) -> bool
    ensures { result ≡ builds.is_blank change.now }
{
    let same_standing = change.in_sync.is_none()
        && change.eligible.is_none()
        && change.last_known.is_none()
        && change.leader.is_none();
    let same_replicas = change.replicas.is_none()
        && change.removing.is_none()
        && change.adding.is_none()
        && change.recovery.is_none();
    same_standing && same_replicas
}

// The change from the old partition to the new one but for the epochs, None where no field differs.
pub(crate) fn difference(old: &Partition, new: Partition) -> Option<PartitionChange>
    ensures { result ≡ builds.change_between old.now new }
{
    let change = fields(old, new);
    if is_blank(&change) {
        None
    } else {
        Some(change)
    }
}
