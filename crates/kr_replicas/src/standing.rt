//! Partitions that a replica stands by of.

ghost use Rattle.std.specs.Prelude.{◌≡◌};
ghost use Rattle.kr_replicas.specs.BrokerPartitions.{has_standing_by};

use kr_defs::Partition;

/// A replica of the partition stands by.
pub fn has_standing_by(partition: &Partition) -> bool
    ensures { result ≡ has_standing_by partition.now }
{
    !(partition.eligible.is_empty() && partition.last_known.is_empty())
}
