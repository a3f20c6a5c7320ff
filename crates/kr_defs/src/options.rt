//! What a controller is started with.

ghost use Rattle.std.specs.Prelude.{◌≡◌, ◌&&◌, pos, int_le};
ghost use Rattle.kr_defs.specs.OpenOptions.{are_options};
ghost use Rattle.kr_defs.specs.declared.limits.TheConstants.{MOST_DEFAULT_PARTITIONS, MOST_TARGETS};

use crate::Text;
use crate::limits::{LONGEST_CLUSTER, MOST_DEFAULT_PARTITIONS, MOST_TARGETS};

/// The settings of one controller, fixed while it runs.
#[derive(Debug, Drop)]
pub struct Options {
    /// The id of this node, at least 0.
    pub node: i32,
    /// The high 64 bits of each topic id that this controller makes.
    pub salt: u64,
    /// The length of a broker's session in milliseconds, at least 1.
    pub session_ms: u32,
    /// The number of partitions of a topic where a request leaves it open, 1 to 9,000.
    pub partitions: i32,
    /// The replication factor where a request leaves it open, 1 to 32.
    pub factor: i16,
    /// `min.insync.replicas` where neither the topic nor the broker default sets it, at least 1.
    pub minimum: i32,
    /// The cluster id, at most 255 bytes.
    pub cluster: Text,
}

impl Options {
    /// Whether a controller may be started with these.
    pub fn is_fit(&self) -> bool
        ensures { result ≡ are_options self.now }
    {
        self.node >= 0
            && 0 < self.session_ms
            && has_partitions(&self.partitions)
            && has_factor(&self.factor)
            && self.minimum >= 1
            && self.cluster.as_bytes().len() <= LONGEST_CLUSTER
    }
}

fn has_partitions(partitions: &i32) -> bool
    ensures { result ≡
        (int_le (pos 1) partitions.now && int_le partitions.now MOST_DEFAULT_PARTITIONS) }
{
    1 <= *partitions && *partitions <= MOST_DEFAULT_PARTITIONS
}

fn has_factor(factor: &i16) -> bool
    ensures { result ≡ (int_le (pos 1) factor.now && int_le factor.now (pos MOST_TARGETS)) }
{
    1 <= *factor && *factor <= MOST_TARGETS as i16
}
