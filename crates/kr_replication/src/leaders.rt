//! Whether a broker leads a partition.

ghost use Rattle.std.specs.Prelude.{◌≡◌, IsSome};
ghost use Rattle.std.specs.Ordering.{int_cmp, int_eq};
ghost use Rattle.kr_calls.specs.BrokerHeartbeat as broker_heartbeat;
ghost use Rattle.kr_defs.specs.Map as entries;
ghost use Rattle.kr_replication.specs.ListedWalks.{leads_any, leads_at};

use kr_defs::Partition;
use kr_replicas::PartitionKeys;
use kr_store::{Seen, Store};

fn is_led_by(partition: &Partition, broker: &i32) -> bool
    ensures { result ≡ int_eq partition.now.leader broker.now }
{
    partition.leader == *broker
}

// The broker leads the partition with this key.
fn leads_at<S: Store>(seen: &Seen<S>, broker: &i32, key: &(u128, i32)) -> bool
    ensures { result ≡ leads_at seen.now.partitions broker.now key.now }
{
    match seen.partition(&key.0, &key.1) {
        Some(partition) => is_led_by(partition, broker),
        None => false,
    }
}

// The broker leads one of the partitions with these keys.
#[tactic(auto, using(crate::proofs::LedPartitions::leading))]
fn leads_any<S: Store>(seen: &Seen<S>, broker: &i32, keys: &PartitionKeys) -> bool
    ensures { result ≡ leads_any seen.now.partitions broker.now keys.now }
{
    for key in keys.as_set() {
        if leads_at(seen, broker, key) {
            return true;
        }
    }
    false
}

/// The broker, which is registered, leads a partition. Only the partitions are looked at whose keys are listed for it.
pub fn leads<S: Store>(seen: &Seen<S>, broker: &i32) -> bool
    requires { IsSome (entries.get int_cmp seen.now.brokers broker.now) }
    ensures { result ≡ broker_heartbeat.leads seen.now broker.now }
{
    seen.is_valid();
    match seen.keys_of(broker) {
        Some(keys) => leads_any(seen, broker, keys),
        None => false,
    }
}
