//! The requests that are served.

ghost use Rattle.std.specs.Prelude.{◌≡◌, find};
ghost use Rattle.kr_req.specs.Messages.{number_of, version_of};
ghost use Rattle.kr_req.specs.Reading.{is_api, served_by};

/// The requests that are served, by their names in Kafka's ApiKeys.
#[derive(Clone, Copy, Debug, Drop, PartialEq, Eq)]
pub enum ApiKey {
    /// Key 62.
    BrokerRegistration,
    /// Key 63.
    BrokerHeartbeat,
    /// Key 64.
    UnregisterBroker,
    /// Key 19.
    CreateTopics,
    /// Key 20.
    DeleteTopics,
    /// Key 37.
    CreatePartitions,
    /// Key 56.
    AlterPartition,
    /// Key 43.
    ElectLeaders,
    /// Key 45.
    AlterPartitionReassignments,
    /// Key 46.
    ListPartitionReassignments,
    /// Key 44.
    IncrementalAlterConfigs,
    /// Key 3.
    Metadata,
}

const SERVED: [ApiKey; 12] = [
    ApiKey::BrokerRegistration,
    ApiKey::BrokerHeartbeat,
    ApiKey::UnregisterBroker,
    ApiKey::CreateTopics,
    ApiKey::DeleteTopics,
    ApiKey::CreatePartitions,
    ApiKey::AlterPartition,
    ApiKey::ElectLeaders,
    ApiKey::AlterPartitionReassignments,
    ApiKey::ListPartitionReassignments,
    ApiKey::IncrementalAlterConfigs,
    ApiKey::Metadata,
];

impl ApiKey {
    /// Its number in Kafka's ApiKeys.
    pub fn number(&self) -> i16
        ensures { result ≡ number_of self.now }
    {
        match self {
            ApiKey::BrokerRegistration => 62,
            ApiKey::BrokerHeartbeat => 63,
            ApiKey::UnregisterBroker => 64,
            ApiKey::CreateTopics => 19,
            ApiKey::DeleteTopics => 20,
            ApiKey::CreatePartitions => 37,
            ApiKey::AlterPartition => 56,
            ApiKey::ElectLeaders => 43,
            ApiKey::AlterPartitionReassignments => 45,
            ApiKey::ListPartitionReassignments => 46,
            ApiKey::IncrementalAlterConfigs => 44,
            ApiKey::Metadata => 3,
        }
    }

    /// The one version that is served.
    pub fn version(&self) -> i16
        ensures { result ≡ version_of self.now }
    {
        match self {
            ApiKey::BrokerRegistration => 3,
            ApiKey::BrokerHeartbeat => 0,
            ApiKey::UnregisterBroker => 0,
            ApiKey::CreateTopics => 7,
            ApiKey::DeleteTopics => 6,
            ApiKey::CreatePartitions => 3,
            ApiKey::AlterPartition => 3,
            ApiKey::ElectLeaders => 2,
            ApiKey::AlterPartitionReassignments => 0,
            ApiKey::ListPartitionReassignments => 0,
            ApiKey::IncrementalAlterConfigs => 1,
            ApiKey::Metadata => 12,
        }
    }

    // It has this number and version.
    fn is(&self, number: &i16, version: &i16) -> bool
        ensures { result ≡ is_api number.now version.now self.now }
    {
        self.number() == *number && self.version() == *version
    }

    /// The request of that number and version, where it is served.
    #[tactic(auto, unfolding(crate::specs::Reading::served_by))]
    pub fn served_by(number: &i16, version: &i16) -> Option<ApiKey>
        ensures { result ≡ served_by number.now version.now }
    {
        first_of(&SERVED, number, version)
    }
}

// The first of these of that number and version.
fn first_of(apis: &[ApiKey], number: &i16, version: &i16) -> Option<ApiKey>
    ensures { result ≡ find (is_api number.now version.now) apis.now }
{
    for api in apis {
        if api.is(number, version) {
            return Some(*api);
        }
    }
    None
}
