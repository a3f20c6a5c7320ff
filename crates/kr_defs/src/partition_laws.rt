//! Laws of elections, of eligible replicas and of changes of partitions. Each function's contract is the law.

ghost use Rattle.kr_defs.specs.PartitionLaws.{ElectionsAreSound, CleanElectionsKeepRecords, EligibleStandBy, BuiltChangesKeepPartitions};
ghost use Rattle.kr_defs.specs.Reassign.{ReassignmentsLeadBothWays, ReassignmentsAreSensible};

/// Who is elected is an active replica that is in sync, or eligible, or, where unclean election is on or asked for,
/// any; or -1.
pub fn elections_are_sound()
    ensures { ElectionsAreSound }
{}

/// Where unclean election is neither on nor asked for, only a replica in sync or an eligible one leads.
pub fn clean_elections_keep_records()
    ensures { CleanElectionsKeepRecords }
{}

/// The eligible and the last known replicas are replicas, none is both, and none is in sync.
pub fn eligible_stand_by()
    ensures { EligibleStandBy }
{}

/// A partition stays well formed under the change that is built for it.
pub fn built_changes_keep_partitions()
    ensures { BuiltChangesKeepPartitions }
{}

/// The lists of a reassignment, without what it removes, are its target; without what it adds, they have the members
/// of its original; and they are distinct where both are.
pub fn reassignments_lead_both_ways()
    ensures { ReassignmentsLeadBothWays }
{}

/// Between two replica lists that together aren't too many, a reassignment's lists are those of a partition.
pub fn reassignments_are_sensible()
    ensures { ReassignmentsAreSensible }
{}
