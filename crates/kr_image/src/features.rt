//! Levels of features.

ghost use Rattle.std.specs.Prelude.{◌≡◌, ◌≤◌, ◌+◌, OnOk};
ghost use Rattle.kr_defs.specs.Apply as apply;
ghost use Rattle.kr_defs.specs.Image.{IsValid};
ghost use Rattle.kr_defs.specs.Map as map;
ghost use Rattle.kr_defs.specs.Map.{text_order};
ghost use Rattle.kr_image.specs.inner.RecordAnswers.{Changes};
ghost use Rattle.kr_image.specs.Timelines.{Agrees, keeps_of, made_of, present_image};

use crate::entries::{contains, is_full, set_counted, unset_counted};
use crate::timelines::{ChangeFault, Timelines};
use kr_base::NoMemory;
use kr_defs::limits::{LONGEST_FEATURE, MOST_FEATURES};
use kr_defs::{Copied, Ill, Text};

impl Timelines {
    fn add_feature(&mut self, name: &Text, level: &i16) -> Result<(), NoMemory>
        requires valid { IsValid (present_image self.old) }
        requires agrees { Agrees self.old }
        ensures tip { OnOk result (present_image self.new ≡ record (present_image self.old) { features = map.insert text_order (present_image self.old).features name.now level.now }) }
        ensures agrees { OnOk result (Agrees self.new) }
        ensures kept { keeps_of self.new ≡ keeps_of self.old }
        ensures made { OnOk result (made_of self.new ≤ made_of self.old + 1) }
    {
        let name = name.copied(self.alloc)?;
        set_counted(&mut self.features, &mut self.counts.features, name, *level)?;
        Ok(())
    }

    fn remove_feature(&mut self, name: &Text) -> Result<(), NoMemory>
        requires agrees { Agrees self.old }
        ensures tip { OnOk result (present_image self.new ≡ record (present_image self.old) { features = map.remove text_order (present_image self.old).features name.now }) }
        ensures agrees { OnOk result (Agrees self.new) }
        ensures kept { keeps_of self.new ≡ keeps_of self.old }
        ensures made { OnOk result (made_of self.new ≤ made_of self.old + 1) }
    {
        unset_counted(
            self.alloc,
            &mut self.features,
            &mut self.counts.features,
            name,
        )?;
        Ok(())
    }

    fn is_full_of_features(&self, name: &Text) -> bool
        requires { Agrees self.now }
        ensures { result ≡ map.is_full text_order MOST_FEATURES (present_image self.now).features name.now }
    {
        !contains(&self.features, name) && is_full(self.counts.features, MOST_FEATURES)
    }

    /// Sets the level of a feature, or removes it where the level is 0.
    pub fn set_feature_level(&mut self, name: &Text, level: &i16) -> Result<(), ChangeFault>
        requires valid { IsValid (present_image self.old) }
        requires agrees { Agrees self.old }
        ensures changes { Changes self.old self.new result (apply.set_feature_level (present_image self.old) name.now level.now) }
        ensures agrees { OnOk result (Agrees self.new) }
        ensures kept { keeps_of self.new ≡ keeps_of self.old }
        ensures made { OnOk result (made_of self.new ≤ made_of self.old + 1) }
    {
        if *level < 0 {
            return Err(ChangeFault::IllFormed(Ill::BadNumber));
        }
        if name.len() > LONGEST_FEATURE || (*level != 0 && self.is_full_of_features(name)) {
            return Err(ChangeFault::IllFormed(Ill::Limit));
        }
        if *level == 0 {
            self.remove_feature(name)?;
        } else {
            self.add_feature(name, level)?;
        }
        Ok(())
    }
}
