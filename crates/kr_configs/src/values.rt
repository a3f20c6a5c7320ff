//! The values that one resource's operations leave.

ghost use Rattle.std.specs.Prelude.{◌≡◌, [], bytes_eq, find, map, OnOk};
ghost use Rattle.std.specs.Option.{option_copied, option_map};
ghost use Rattle.kr_calls.specs.IncrementalAlterConfigs.{with_value};
ghost use Rattle.kr_configs.specs.NamedKeys.{AreOnce};

use indexmap::IndexMap;
use kr_base::NoMemory;
use kr_defs::Text;
use std::alloc::Global;
use std::marker::Model;

/// The keys that one resource's operations named, in order of first naming, each with its value now; none where the
/// setting goes.
#[derive(Drop)]
pub(crate) struct Values<'a> {
    named: IndexMap<&'a str, Option<Text>>,
}

impl<'a> Model for Values<'a> {
    ghost use Rattle.std.specs.Prelude.{ℕ, List, Option, map};
    ghost use Rattle.kr_configs.specs.NamedKeys.{AreOnce};

    ghost Value = { List (List ℕ × Option (List ℕ)) };

    ghost view = { λ v. map (λ e. (e.0.now, e.1)) v.named.entries };

    ghost invariant = { λ v. AreOnce (map (λ e. (e.0.now, e.1)) v.named.entries) };
}

impl<'a> Values<'a> {
    /// No key is named.
    pub fn new(alloc: Global) -> Values<'a>
        ensures { result ≡ [] }
    {
        Values {
            named: IndexMap::new(alloc),
        }
    }

    /// Each key stands once.
    pub fn are_once(&self)
        ensures { AreOnce self.now }
    {
        let _named = &self.named;
    }

    /// The value of a key that was named.
    pub fn get(&self, key: &str) -> Option<&Option<Text>>
        ensures { option_copied result ≡ option_map (λ v. v.1) (find (λ v. bytes_eq v.0 key.now) self.now) }
    {
        self.named.get(key)
    }

    /// The keys and their values.
    pub fn entries(&self) -> &IndexMap<&'a str, Option<Text>>
        ensures { map (λ e. (e.0.now, e.1)) result.now.entries ≡ self.now }
    {
        &self.named
    }

    /// The key has the value. One that wasn't named comes last.
    pub fn set(&mut self, key: &'a str, value: Option<Text>) -> Result<(), NoMemory>
        ensures { OnOk result (self.new ≡ with_value self.old key.now value) }
    {
        self.named.insert(key, value)?;
        Ok(())
    }
}
