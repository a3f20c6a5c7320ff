//! The store of an image.

ghost use Rattle.std.specs.Prelude.{◌≡◌, ◌≤◌, ◌+◌, IsOkAnd, IsErr, IsSome, Some, MatchOption, OnOk};
ghost use Rattle.std.specs.Option.{option_copied};
ghost use Rattle.std.specs.Ordering.{int_cmp};
ghost use Rattle.kr_defs.specs.declared.record.Item.TheVariants as items;
ghost use Rattle.kr_defs.specs.Lookups.{Finds, FindsEntry};
ghost use Rattle.kr_defs.specs.Map as entries;
ghost use Rattle.kr_defs.specs.Map.{text_order, partition_order, config_order};
ghost use Rattle.kr_defs.specs.Weight.{weight};
ghost use Rattle.kr_replicas.specs.BrokerPartitions.{has_replica, has_standing_by, keys_or_none};
ghost use Rattle.kr_store.specs.ItemAnswers.{Applies, AppliesAt, MayStand, Ticks, made_at};
ghost use Rattle.kr_store.specs.Images.{Images, AreValid, image_of_place, brokers_at, topics_at, partitions_at, configs_at, features_at, topic_under, topic_with, next_topic, last_kept, last_image, last_begun, counts_of};
ghost use Rattle.kr_store.specs.Reads.{AreAtLeastEverywhere};

use crate::{ApplyFault, At, Counts};
use kr_base::{NoEpoch, Steps};
use kr_defs::{Broker, ConfigKey, Item, Partition, Record, Text, Topic};
use kr_replicas::PartitionKeys;
use std::sync::ledger::Ledger;

/// An image that items are applied to, with kept epochs. A look-up answers by the image at a place, and NoEpoch exactly
/// where that place is an epoch that isn't kept. A walk gives the entry with the least key above the given one, or the
/// first entry.
pub trait Store {
    /// The present image, and those that are kept.
    ghost images: { Self → Images };

    /// The registered broker of this id.
    fn broker(&self, at: At, id: i32) -> Result<Option<&Broker>, NoEpoch>
        ensures { Finds (brokers_at (images self.now) at) result
            (λ map. entries.get int_cmp map id) };

    /// The topic of this name.
    fn topic_named(&self, at: At, name: &Text) -> Result<Option<&Topic>, NoEpoch>
        ensures { Finds (topics_at (images self.now) at) result
            (λ topics. topic_under topics name.now) };

    /// The topic of this id.
    fn topic(&self, at: At, id: u128) -> Result<Option<&Topic>, NoEpoch>
        ensures { Finds (topics_at (images self.now) at) result (λ topics. topic_with topics id) };

    /// The partition of the topic of this id with this index.
    fn partition(&self, at: At, id: u128, index: i32) -> Result<Option<&Partition>, NoEpoch>
        ensures { Finds (partitions_at (images self.now) at) result
            (λ map. entries.get partition_order map (id, index)) };

    /// The value of the setting of this key.
    fn config(&self, at: At, key: &ConfigKey) -> Result<Option<&Text>, NoEpoch>
        ensures { Finds (configs_at (images self.now) at) result
            (λ map. entries.get config_order map key.now) };

    /// The level of the feature of this name.
    fn feature(&self, at: At, name: &Text) -> Result<Option<&i16>, NoEpoch>
        ensures { Finds (features_at (images self.now) at) result
            (λ map. entries.get text_order map name.now) };

    /// Keys of partitions: at least of those that have the broker as a replica, in the present image and in every kept one.
    /// Where there is none, no partition of any of these images has it.
    fn keys_of(&self, broker: &i32) -> Option<&PartitionKeys>
        ensures { AreAtLeastEverywhere (keys_or_none (option_copied result))
            (has_replica broker.now) (images self.now) };

    /// Keys of partitions: at least of those that a replica stands by of, in the present image and in every kept one.
    fn standing_keys(&self) -> &PartitionKeys
        ensures { AreAtLeastEverywhere result.now has_standing_by (images self.now) };

    /// By id.
    fn next_broker(&self, at: At, after: Option<&i32>) -> Result<Option<(&i32, &Broker)>, NoEpoch>
        ensures { FindsEntry (brokers_at (images self.now) at) result
            (λ map. entries.next int_cmp map (option_copied after.entry)) };

    /// By name.
    fn next_topic(&self, at: At, after: Option<&Text>) -> Result<Option<(&Text, &Topic)>, NoEpoch>
        ensures { FindsEntry (topics_at (images self.now) at) result
            (λ topics. next_topic topics (option_copied after.entry)) };

    /// By topic id, then by index.
    fn next_partition(
        &self,
        at: At,
        after: Option<&(u128, i32)>,
    ) -> Result<Option<(&(u128, i32), &Partition)>, NoEpoch>
        ensures { FindsEntry (partitions_at (images self.now) at) result
            (λ map. entries.next partition_order map (option_copied after.entry)) };

    /// By type, resource name and key.
    fn next_config(
        &self,
        at: At,
        after: Option<&ConfigKey>,
    ) -> Result<Option<(&ConfigKey, &Text)>, NoEpoch>
        ensures { FindsEntry (configs_at (images self.now) at) result
            (λ map. entries.next config_order map (option_copied after.entry)) };

    /// By name.
    fn next_feature(&self, at: At, after: Option<&Text>) -> Result<Option<(&Text, &i16)>, NoEpoch>
        ensures { FindsEntry (features_at (images self.now) at) result
            (λ map. entries.next text_order map (option_copied after.entry)) };

    /// How much the present image has. Every image of the store is valid.
    fn counts(&self) -> Counts
        ensures counts { result ≡ counts_of (images self.now).tip }
        ensures valid { AreValid (images self.now) };

    /// How much the image at the place has. Every image of the store is valid.
    fn counts_at(&self, at: At) -> Result<Counts, NoEpoch>
        ensures counts { MatchOption (image_of_place (images self.now) at) (IsErr result)
            (λ image. IsOkAnd result (λ counts. counts ≡ counts_of image)) }
        ensures valid { AreValid (images self.now) };

    /// Makes the present image what the item, which stands at the place, makes of it. An item without meaning changes
    /// nothing. Without memory the present image is that of the last kept epoch. It is one step, and after want of memory
    /// there are besides those of going back.
    fn apply<L: Ledger>(
        &mut self,
        place: i64,
        item: &Item,
        steps: &mut Steps<L>,
    ) -> Result<(), ApplyFault>
        requires { IsSome (last_kept (images self.old)) }
        ensures applied { Applies (images self.old) (images self.new) result place item.now }
        ensures kept { (images self.new).kept ≡ (images self.old).kept }
        ensures calls { (images self.new).kept_made ≡ (images self.old).kept_made }
        ensures made { OnOk result ((images self.new).made ≤
            (images self.old).made + weight (images self.old).tip item.now) }
        ensures begun { OnOk result ((images self.new).begun ≡ (images self.old).begun) }
        ensures kept_begun { (images self.new).kept_begun ≡ (images self.old).kept_begun }
        ensures valid { AreValid (images self.new) }
        ensures counted { Ticks steps.old steps.new result };

    /// Makes the present state what the item, which stands at the place, makes of it. The place of a transaction's begin is
    /// kept, if it isn't yet. An item without meaning changes nothing. Without memory the present state is that of the last
    /// kept epoch. It is one step, and after want of memory there are besides those of going back.
    fn apply_at<L: Ledger>(
        &mut self,
        place: i64,
        item: &Item,
        steps: &mut Steps<L>,
    ) -> Result<(), ApplyFault>
        requires some { IsSome (last_kept (images self.old)) }
        requires stands { MayStand (images self.old) place item.now }
        ensures applied { AppliesAt (images self.old) (images self.new) result place item.now }
        ensures made { OnOk result
            ((images self.new).made ≤ made_at (images self.old) place item.now) }
        ensures valid { AreValid (images self.new) }
        ensures counted { Ticks steps.old steps.new result };

    /// The same for a record.
    fn apply_record<L: Ledger>(
        &mut self,
        place: i64,
        value: &Record,
        steps: &mut Steps<L>,
    ) -> Result<(), ApplyFault>
        requires { IsSome (last_kept (images self.old)) }
        ensures applied { Applies (images self.old) (images self.new) result place
            (items.Record value.now) }
        ensures kept { (images self.new).kept ≡ (images self.old).kept }
        ensures calls { (images self.new).kept_made ≡ (images self.old).kept_made }
        ensures made { OnOk result ((images self.new).made ≤
            (images self.old).made + weight (images self.old).tip (items.Record value.now)) }
        ensures begun { OnOk result ((images self.new).begun ≡ (images self.old).begun) }
        ensures kept_begun { (images self.new).kept_begun ≡ (images self.old).kept_begun }
        ensures valid { AreValid (images self.new) }
        ensures counted { Ticks steps.old steps.new result };

    /// Makes the state of the last kept epoch the present one.
    fn revert_to_last<L: Ledger>(&mut self, steps: &mut Steps<L>)
        requires { IsSome (last_kept (images self.old)) }
        ensures tip { last_image (images self.old) ≡ Some (images self.new).tip }
        ensures kept { (images self.new).kept ≡ (images self.old).kept }
        ensures calls { (images self.new).kept_made ≡ (images self.old).kept_made }
        ensures made { (images self.new).made ≡ 0 }
        ensures begun { (images self.new).begun ≡ last_begun (images self.old) }
        ensures kept_begun { (images self.new).kept_begun ≡ (images self.old).kept_begun }
        ensures valid { AreValid (images self.new) }
        ensures counted { steps.old ≤ steps.new };
}
