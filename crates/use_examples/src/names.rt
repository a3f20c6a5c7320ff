//! Records by name.

ghost use Rattle.std.specs.Prelude.{◌≡◌};
ghost use Rattle.use_examples.specs.RecordNames.{name_of};

use kr_defs::Record;

/// Kafka's name of the record's kind.
pub(crate) fn record_name(record: &Record) -> &'static str
    ensures { result.now ≡ name_of record.now }
{
    match record {
        Record::RegisterBroker { .. } => "RegisterBrokerRecord",
        Record::UnregisterBroker { .. } => "UnregisterBrokerRecord",
        Record::Topic { .. } => "TopicRecord",
        Record::Partition { .. } => "PartitionRecord",
        Record::Config { .. } => "ConfigRecord",
        Record::PartitionChange { .. } => "PartitionChangeRecord",
        Record::FenceBroker { .. } => "FenceBrokerRecord",
        Record::UnfenceBroker { .. } => "UnfenceBrokerRecord",
        Record::RemoveTopic { .. } => "RemoveTopicRecord",
        Record::FeatureLevel { .. } => "FeatureLevelRecord",
        Record::BrokerRegistrationChange { .. } => "BrokerRegistrationChangeRecord",
        Record::NoOp => "NoOpRecord",
        Record::BeginTransaction { .. } => "BeginTransactionRecord",
        Record::EndTransaction => "EndTransactionRecord",
        Record::AbortTransaction { .. } => "AbortTransactionRecord",
    }
}
