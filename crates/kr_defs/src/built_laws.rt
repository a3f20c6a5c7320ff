//! Laws of the changes that are built, and of partitions that are created or emptied. Each function's contract is the
//! law.

ghost use Rattle.std.specs.Prelude.{List, ℤ, IsTrue};
ghost use Rattle.kr_defs.specs.declared.partition.Partition.{Partition as AnyPartition};
ghost use Rattle.kr_defs.specs.Partition.{are_replicas};
ghost use Rattle.kr_defs.specs.BuiltLaws.{BuiltLeadersHadRecords, ReassignmentsEndInSync, DefaultWantsAreSensible, LongListsAreTheOnlyFault, NewPartitionsAreWellFormed, EmptyingKeeps};

/// Where unclean election is neither on nor asked for, a leader that is named is said to be in sync, or was eligible.
/// Where no further replica is said to be in sync, it was in sync or eligible.
pub fn built_leaders_had_records()
    ensures { BuiltLeadersHadRecords }
{}

/// A reassignment that runs by the lists of the partition goes on, or its target is in sync.
pub fn reassignments_end_in_sync()
    ensures { ReassignmentsEndInSync }
{}

/// What is asked of a well formed partition where nothing is named is sensible.
pub fn default_wants_are_sensible()
    ensures { DefaultWantsAreSensible }
{}

/// What is sensible but for too many replicas leads to a well formed partition, or to one with too many.
pub fn long_lists_are_the_only_fault()
    ensures { LongListsAreTheOnlyFault }
{}

/// A partition is well formed where it is created, with any of its replicas in sync.
pub fn new_partitions_are_well_formed()
    ensures { (replicas : List ℤ) → IsTrue (are_replicas replicas) → NewPartitionsAreWellFormed replicas }
{}

/// The change that empties the eligible and the last known replicas does, and keeps the partition well formed.
pub fn emptying_keeps_well_formed()
    ensures { (p : AnyPartition) → EmptyingKeeps p }
{}
