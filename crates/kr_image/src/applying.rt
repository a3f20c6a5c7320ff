//! A record of any kind is applied to the timelines.

ghost use Rattle.std.specs.Prelude.{◌≡◌, ◌≤◌, ◌+◌, OnOk, negsuc, pos};
ghost use Rattle.kr_defs.specs.Apply as apply;
ghost use Rattle.kr_defs.specs.Image.{IsValid};
ghost use Rattle.kr_defs.specs.Weight.{record_weight};
ghost use Rattle.kr_image.specs.inner.RecordAnswers.{Changes};
ghost use Rattle.kr_image.specs.Timelines.{Agrees, keeps_of, made_of, present_image};

use crate::timelines::{ChangeFault, Timelines};
use kr_defs::{Ill, Record};

impl Timelines {
    /// Changes the present image by the meaning of a record. A record without one changes nothing.
    #[tactic(auto, unfolding(kr_defs::specs::Apply::apply_record))]
    pub fn apply_record(&mut self, value: &Record) -> Result<(), ChangeFault>
        requires valid { IsValid (present_image self.old) }
        requires agrees { Agrees self.old }
        ensures changes { Changes self.old self.new result (apply.apply_record (present_image self.old) value.now) }
        ensures agrees { OnOk result (Agrees self.new) }
        ensures kept { keeps_of self.new ≡ keeps_of self.old }
        ensures made { OnOk result (made_of self.new ≤ made_of self.old + record_weight (present_image self.old) value.now) }
    {
        match value {
            Record::RegisterBroker { broker, state } => self.register_broker(broker, state),
            Record::UnregisterBroker { broker, epoch } => self.unregister_broker(broker, epoch),
            Record::Topic { name, id } => self.add_topic(name, id),
            Record::Partition {
                index,
                topic,
                state,
            } => self.add_partition(index, topic, state),
            Record::Config {
                kind,
                name,
                key,
                value,
            } => self.set_config(kind, name, key, value),
            Record::PartitionChange {
                index,
                topic,
                change,
            } => self.change_partition(index, topic, change),
            Record::FenceBroker { broker, epoch } => self.change_broker_registration(
                broker, epoch, &1, &0,
            ),
            Record::UnfenceBroker { broker, epoch } => self.change_broker_registration(
                broker, epoch, &-1, &0,
            ),
            Record::RemoveTopic { topic } => self.remove_topic(topic),
            Record::FeatureLevel { name, level } => self.set_feature_level(name, level),
            Record::BrokerRegistrationChange {
                broker,
                epoch,
                fenced,
                stopping,
            } => { self.change_broker_registration(broker, epoch, fenced, stopping) }
            Record::NoOp => Ok(()),
            Record::BeginTransaction { .. }
            | Record::EndTransaction
            | Record::AbortTransaction { .. } => Err(ChangeFault::IllFormed(Ill::BadTransaction)),
        }
    }
}
