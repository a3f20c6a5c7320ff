//! Topics, by name and by id: added, and removed with their partitions and settings.

ghost use Rattle.std.specs.Prelude.{◌≡◌, ◌≤◌, ◌+◌, OnOk, ◌==◌, ◌||◌, false, not, filter, All, IsTrue, Some};
ghost use Rattle.std.specs.Option.{option_copied};
ghost use Rattle.kr_defs.specs.Apply as apply;
ghost use Rattle.kr_defs.specs.Image as images;
ghost use Rattle.kr_defs.specs.Image.{AreConfigs, IsValid, topic_name};
ghost use Rattle.kr_defs.specs.Map as map;
ghost use Rattle.kr_defs.specs.Map.{partition_order, text_order};
ghost use Rattle.kr_defs.specs.Weight.{partitions_removed, settings_removed};
ghost use Rattle.kr_image.specs.inner.RecordAnswers.{Changes, PartsGo, without_parts};
ghost use Rattle.kr_image.specs.Timelines.{Agrees, keeps_of, made_of, present_image};
ghost use Rattle.kr_store.specs.Images.{topic_with};

use crate::entries::{contains, is_full, set, set_counted, unset, unset_counted};
use crate::partitions::remove_partitions;
use crate::settings::remove_settings;
use crate::timelines::{ChangeFault, Timelines};
use kr_base::NoMemory;
use kr_defs::limits::MOST_TOPICS;
use kr_defs::{Copied, Ill, Text, Topic, is_topic_name};

impl Timelines {
    /// The topic with this id.
    pub fn topic_with(&self, id: &u128) -> Option<&Topic>
        requires { Agrees self.now }
        ensures { option_copied result ≡ topic_with (present_image self.now).topics id.now }
    {
        self.topics.get(id)
    }

    /// Some topic has this id.
    pub fn has_topic(&self, id: &u128) -> bool
        requires { Agrees self.now }
        ensures { result ≡ images.has_topic (present_image self.now).topics id.now }
    {
        self.topic_with(id).is_some()
    }

    fn set_topic(&mut self, name: &Text, id: &u128) -> Result<(), NoMemory>
        requires valid { IsValid (present_image self.old) }
        requires agrees { Agrees self.old }
        requires name { map.contains text_order (present_image self.old).topics name.now ≡ false }
        requires id { images.has_topic (present_image self.old).topics id.now ≡ false }
        ensures tip { OnOk result (present_image self.new ≡
            record (present_image self.old) {
              topics = map.insert text_order
                  (present_image self.old).topics name.now id.now;
            }) }
        ensures agrees { OnOk result (Agrees self.new) }
        ensures kept { keeps_of self.new ≡ keeps_of self.old }
        ensures made { OnOk result (made_of self.new ≤ made_of self.old + 2) }
    {
        let key = name.copied(self.alloc)?;
        let topic = Topic {
            name: name.copied(self.alloc)?,
            id: *id,
        };
        set_counted(&mut self.names, &mut self.counts.topics, key, *id)?;
        set(&mut self.topics, *id, topic)?;
        Ok(())
    }

    // The name or the id stands already, or the id is zero.
    fn is_taken(&self, name: &Text, id: &u128) -> bool
        requires { Agrees self.now }
        ensures { result ≡ (map.contains text_order
            (present_image self.now).topics name.now || images.has_topic
            (present_image self.now).topics id.now || id.now == 0) }
    {
        contains(&self.names, name) || self.has_topic(id) || *id == 0
    }

    /// Adds a topic without partitions.
    pub fn add_topic(&mut self, name: &Text, id: &u128) -> Result<(), ChangeFault>
        requires valid { IsValid (present_image self.old) }
        requires agrees { Agrees self.old }
        ensures changes { Changes self.old self.new result
            (apply.add_topic (present_image self.old) name.now id.now) }
        ensures agrees { OnOk result (Agrees self.new) }
        ensures kept { keeps_of self.new ≡ keeps_of self.old }
        ensures made { OnOk result (made_of self.new ≤ made_of self.old + 2) }
    {
        if !is_topic_name(name) {
            return Err(ChangeFault::IllFormed(Ill::BadName));
        }
        if self.is_taken(name, id) {
            return Err(ChangeFault::IllFormed(Ill::TopicExists));
        }
        if is_full(self.counts.topics, MOST_TOPICS) {
            return Err(ChangeFault::IllFormed(Ill::Limit));
        }
        self.set_topic(name, id)?;
        Ok(())
    }

    // Takes out the topic alone.
    fn unset_topic(&mut self, name: &Text, id: &u128) -> Result<(), NoMemory>
        requires valid { IsValid (present_image self.old) }
        requires agrees { Agrees self.old }
        requires named { topic_name (present_image self.old).topics id.now ≡ Some name.now }
        ensures tip { OnOk result (present_image self.new ≡
            record (present_image self.old) {
              topics = filter (λ e. not (e.1 == id.now))
                  (present_image self.old).topics;
            }) }
        ensures agrees { OnOk result (Agrees self.new) }
        ensures kept { keeps_of self.new ≡ keeps_of self.old }
        ensures made { OnOk result (made_of self.new ≤ made_of self.old + 2) }
    {
        unset_counted(self.alloc, &mut self.names, &mut self.counts.topics, name)?;
        unset(self.alloc, &mut self.topics, id)?;
        Ok(())
    }

    // Takes out what the topic has: its partitions, and its settings.
    fn unset_parts(&mut self, name: &Text, id: &u128) -> Result<(), NoMemory>
        requires ordered { map.IsMap partition_order (present_image self.old).partitions }
        requires indexes { All (λ e. IsTrue (images.is_index e.0.1))
            (present_image self.old).partitions }
        requires configs { AreConfigs (present_image self.old).configs }
        requires agrees { Agrees self.old }
        ensures tip { OnOk result (present_image self.new ≡
            without_parts (present_image self.old) name.now id.now) }
        ensures agrees { OnOk result (Agrees self.new) }
        ensures kept { keeps_of self.new ≡ keeps_of self.old }
        ensures made { OnOk result (PartsGo (present_image self.old) name.now id.now
            (made_of self.old) (made_of self.new)) }
    {
        remove_partitions(
            self.alloc,
            &mut self.partitions,
            &mut self.counts.partitions,
            id,
        )?;
        remove_settings(
            self.alloc,
            &mut self.configs,
            &mut self.counts.config_bytes,
            name,
        )?;
        Ok(())
    }

    /// Removes a topic, with its partitions and its settings.
    pub fn remove_topic(&mut self, id: &u128) -> Result<(), ChangeFault>
        requires valid { IsValid (present_image self.old) }
        requires agrees { Agrees self.old }
        ensures changes { Changes self.old self.new result
            (apply.remove_topic (present_image self.old) id.now) }
        ensures agrees { OnOk result (Agrees self.new) }
        ensures kept { keeps_of self.new ≡ keeps_of self.old }
        ensures made { OnOk result (made_of self.new ≤ made_of self.old + (2 + partitions_removed
            (present_image self.old) id.now + settings_removed (present_image self.old) id.now)) }
    {
        let Some(topic) = self.topic_with(id) else {
            return Err(ChangeFault::IllFormed(Ill::NoTopic));
        };
        let name = topic.name.copied(self.alloc)?;
        self.unset_topic(&name, id)?;
        self.unset_parts(&name, id)?;
        Ok(())
    }
}
