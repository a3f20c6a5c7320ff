//! An image of a store, as those who only look see it.

ghost use Rattle.std.specs.Prelude.{◌≡◌, ◌∷◌, [], Some, IfSome, IsNone, IsErr, IsOkAnd, MatchOption, negsuc};
ghost use Rattle.std.specs.Option.{option_copied, option_map};
ghost use Rattle.std.specs.Ordering.{int_cmp};
ghost use Rattle.kr_defs.specs.Image.{IsValid};
ghost use Rattle.kr_defs.specs.Lookups.{entry_copied};
ghost use Rattle.kr_defs.specs.Map as entries;
ghost use Rattle.kr_defs.specs.Map.{config_order, partition_order, text_order};
ghost use Rattle.kr_defs.specs.Walk.{rest_of_topic};
ghost use Rattle.kr_replicas.specs.BrokerPartitions.{AreAtLeast, has_replica, has_standing_by, keys_or_none};
ghost use Rattle.kr_store.specs.Images.{counts_of, image_of_place, last_image, last_kept, topic_under, topic_with};
ghost use Rattle.kr_store.specs.declared.places.At.TheVariants as places;

use crate::{At, Counts, Store};
use kr_base::NoEpoch;
use kr_defs::laws::empty_is_valid;
use kr_defs::{Broker, ConfigKey, Partition, Text, Topic};
use kr_replicas::PartitionKeys;
use std::marker::Model;

/// An image of a store: the present one, or that of a kept epoch. As its place is there, each look-up and each walk has an
/// answer. A walk gives the entry with the least key above the given one, or the first entry.
#[derive(Drop)]
pub struct Seen<'a, S: Store> {
    // The store that has the image.
    store: &'a S,
    // Where in it.
    at: At,
}

impl<'a, S: Store> Model for Seen<'a, S> {
    ghost use Rattle.std.specs.Prelude.{IsSome};
    ghost use Rattle.kr_defs.specs.Image.{Image, IsValid};
    ghost use Rattle.kr_store.specs.Images.{image_of_place};
    ghost use Rattle.kr_store.specs.Reads.{seen_at};

    ghost Value = { Image };

    ghost view = { λ s. seen_at (S.images s.store.now) s.at };

    ghost invariant = { λ s. IsSome (image_of_place (S.images s.store.now) s.at) × IsValid (seen_at (S.images s.store.now) s.at) };
}

fn at_epoch(epoch: &i64) -> At
    ensures { result ≡ places.Epoch epoch.now }
{
    At::Epoch(*epoch)
}

impl<'a, S: Store> Seen<'a, S> {
    /// The present image.
    pub fn tip(store: &'a S) -> Seen<'a, S>
        ensures { result ≡ (S.images store.now).tip }
    {
        let _valid = store.counts();
        Seen { store, at: At::Tip }
    }

    /// The image at the place; NoEpoch exactly where that is an epoch that isn't kept.
    pub fn at(store: &'a S, at: At) -> Result<Seen<'a, S>, NoEpoch>
        ensures { MatchOption (image_of_place (S.images store.now) at) (IsErr result)
            (λ image. IsOkAnd result (λ seen. seen ≡ image)) }
    {
        empty_is_valid();
        store.counts_at(at)?;
        Ok(Seen { store, at })
    }

    /// The image of the last kept epoch, which is the given one.
    pub fn last(store: &'a S, epoch: &i64) -> Seen<'a, S>
        requires { option_map (λ k. k.0) (last_kept (S.images store.now)) ≡ Some epoch.now }
        ensures { last_image (S.images store.now) ≡ Some result }
    {
        let _valid = store.counts();
        match Seen::at(store, at_epoch(epoch)) {
            Ok(seen) => seen,
            Err(NoEpoch) => unreachable!(),
        }
    }

    /// Each image is valid.
    pub fn is_valid(&self)
        ensures { IsValid self.now }
    {
        let _store = &self.store;
    }

    /// The registration of a broker.
    pub fn broker(&self, id: &i32) -> Option<&'a Broker>
        ensures { option_copied result ≡ entries.get int_cmp self.now.brokers id.now }
    {
        let store = self.store;
        store.broker(self.at, *id).unwrap()
    }

    /// The topic of this name.
    pub fn topic_named(&self, name: &Text) -> Option<&'a Topic>
        ensures { option_copied result ≡ topic_under self.now.topics name.now }
    {
        let store = self.store;
        store.topic_named(self.at, name).unwrap()
    }

    /// The topic of this id.
    pub fn topic(&self, id: &u128) -> Option<&'a Topic>
        ensures { option_copied result ≡ topic_with self.now.topics id.now }
    {
        let store = self.store;
        store.topic(self.at, *id).unwrap()
    }

    /// The partition of a topic with this index.
    pub fn partition(&self, id: &u128, index: &i32) -> Option<&'a Partition>
        ensures { option_copied result ≡
            entries.get partition_order self.now.partitions (id.now, index.now) }
    {
        let store = self.store;
        store.partition(self.at, *id, *index).unwrap()
    }

    /// Keys of partitions: at least of those that have the broker as a replica. Where there is none, no partition has it.
    pub fn keys_of(&self, broker: &i32) -> Option<&'a PartitionKeys>
        ensures { AreAtLeast (keys_or_none (option_copied result)) (has_replica broker.now)
            self.now.partitions }
    {
        let store = self.store;
        store.keys_of(broker)
    }

    /// Keys of partitions: at least of those that a replica stands by of.
    pub fn standing_keys(&self) -> &'a PartitionKeys
        ensures { AreAtLeast result.now has_standing_by self.now.partitions }
    {
        let store = self.store;
        store.standing_keys()
    }

    /// The value of a setting.
    pub fn config(&self, key: &ConfigKey) -> Option<&'a Text>
        ensures { option_copied result ≡ entries.get config_order self.now.configs key.now }
    {
        let store = self.store;
        store.config(self.at, key).unwrap()
    }

    /// The level of a feature.
    pub fn feature(&self, name: &Text) -> Option<&'a i16>
        ensures { option_copied result ≡ entries.get text_order self.now.features name.now }
    {
        let store = self.store;
        store.feature(self.at, name).unwrap()
    }

    /// How much the image has.
    pub fn counts(&self) -> Counts
        ensures { result ≡ counts_of self.now }
    {
        let store = self.store;
        store.counts_at(self.at).unwrap()
    }

    /// By id.
    pub fn next_broker(&self, after: Option<&i32>) -> Option<(&'a i32, &'a Broker)>
        ensures { entry_copied result ≡
            entries.next int_cmp self.now.brokers (option_copied after.entry) }
    {
        let store = self.store;
        store.next_broker(self.at, after).unwrap()
    }

    /// By name: a topic's name and its id.
    pub fn next_topic(&self, after: Option<&Text>) -> Option<(&'a Text, &'a u128)>
        ensures { entry_copied result ≡
            entries.next text_order self.now.topics (option_copied after.entry) }
    {
        let store = self.store;
        match store.next_topic(self.at, after).unwrap() {
            Some((name, topic)) => Some((name, &topic.id)),
            None => None,
        }
    }

    /// By the topic's id and the index.
    pub fn next_partition(
        &self,
        after: Option<&(u128, i32)>,
    ) -> Option<(&'a (u128, i32), &'a Partition)>
        ensures { entry_copied result ≡
            entries.next partition_order self.now.partitions (option_copied after.entry) }
    {
        let store = self.store;
        store.next_partition(self.at, after).unwrap()
    }

    /// The next partition of the same topic, by index.
    pub fn next_of_topic(&self, after: &(u128, i32)) -> Option<(&'a (u128, i32), &'a Partition)>
        ensures next { IfSome result (λ e. rest_of_topic after.now self.now.partitions ≡
            (e.0.now, e.1.now) ∷ rest_of_topic e.0.now self.now.partitions) }
        ensures none { IsNone result → rest_of_topic after.now self.now.partitions ≡ [] }
    {
        self.is_valid();
        match self.next_partition(Some(after)) {
            Some((key, partition)) => {
                if key.0 == after.0 {
                    Some((key, partition))
                } else {
                    None
                }
            }
            None => None,
        }
    }

    /// By the resource's type and name, and the key.
    pub fn next_config(&self, after: Option<&ConfigKey>) -> Option<(&'a ConfigKey, &'a Text)>
        ensures { entry_copied result ≡
            entries.next config_order self.now.configs (option_copied after.entry) }
    {
        let store = self.store;
        store.next_config(self.at, after).unwrap()
    }

    /// By name.
    pub fn next_feature(&self, after: Option<&Text>) -> Option<(&'a Text, &'a i16)>
        ensures { entry_copied result ≡
            entries.next text_order self.now.features (option_copied after.entry) }
    {
        let store = self.store;
        store.next_feature(self.at, after).unwrap()
    }
}

/// A key below all partitions of the topic.
pub fn before_all(id: &u128) -> (u128, i32)
    ensures { result ≡ (id.now, negsuc 0) }
{
    (*id, -1)
}
