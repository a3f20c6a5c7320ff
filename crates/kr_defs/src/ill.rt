//! Why a record has no meaning.

ghost use Rattle.std.specs.Prelude.{◌≡◌};
ghost use Rattle.kr_defs.specs.Causes.{number_of};

/// Why a record has no meaning.
#[derive(Clone, Copy, Debug, Drop, PartialEq, Eq)]
pub enum Ill {
    /// A number is outside its field's range.
    BadNumber,
    /// No such broker is registered.
    NoBroker,
    /// The broker is registered under another epoch, or under a later one.
    StaleEpoch,
    /// There is no such topic.
    NoTopic,
    /// The name or the id is a topic's already.
    TopicExists,
    /// No topic may be named so.
    BadName,
    /// There is no such partition.
    NoPartition,
    /// The partition is there already.
    PartitionExists,
    /// The partition's lists and leader don't go together.
    BadPartition,
    /// The image would hold more than it may.
    Limit,
    /// A transaction is open where one begins, or none is open where one ends or is given up (KIP-868).
    BadTransaction,
}

impl Ill {
    /// The number that stands for the cause, 1 to 11 in the order above.
    pub fn number(self) -> u8
        ensures { result ≡ number_of self }
    {
        match self {
            Ill::BadNumber => 1,
            Ill::NoBroker => 2,
            Ill::StaleEpoch => 3,
            Ill::NoTopic => 4,
            Ill::TopicExists => 5,
            Ill::BadName => 6,
            Ill::NoPartition => 7,
            Ill::PartitionExists => 8,
            Ill::BadPartition => 9,
            Ill::Limit => 10,
            Ill::BadTransaction => 11,
        }
    }
}
