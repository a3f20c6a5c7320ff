//! The versions of one key.

ghost use Rattle.std.specs.Prelude.{◌≡◌, ℕ, [], ◌∷◌, drop, nat_eq, nat_le, not, ◌&&◌, is_some, OnOk, OnErr, true};
ghost use Rattle.std.specs.Bool.{OnTrue, OnFalse};
ghost use Rattle.std.specs.Option.{option_copied};
ghost use Rattle.std.specs.VecDeque.{deque_len};
ghost use Rattle.kr_timeline.specs.Chains.{value_at, is_written, written, Falls, is_above, cut, settled, left_of, is_left, EndsCovered, EndsOpen, newer, is_gone, without_gone, without_first, repeated, lowered};

use kr_base::NoMemory;
use kr_defs::Copied;
use std::alloc::Global;
use std::collections::VecDeque;
use std::marker::Model;
use std::mem::replace;

// A value, or none, that was written in the interval of the number.
#[derive(Drop)]
pub(crate) struct Version<V> {
    number: u64,
    value: Option<V>,
}

impl<V> Model for Version<V> {
    ghost use Rattle.std.specs.Prelude.{ℕ, Option};
    ghost use Rattle.std.specs.Coded.{coded×, coded_ℕ, coded_option};

    ghost Value = { ℕ × Option V };

    ghost coded = { coded× coded_ℕ (coded_option V.code) };

    ghost view = { λ v. (v.number, v.value) };
}

impl<V: Drop> Version<V> {
    fn is_up_to(&self, number: u64) -> bool
        ensures { result ≡ nat_le self.now.0 number }
    {
        self.number <= number
    }

    fn is_of(&self, number: u64) -> bool
        ensures { result ≡ nat_eq self.now.0 number }
    {
        self.number == number
    }

    // A removal, up to the number.
    fn is_gone(&self, number: u64) -> bool
        ensures { result ≡ nat_le self.now.0 number && not (is_some self.now.1) }
    {
        self.number <= number && self.value.is_none()
    }

    fn value(&self) -> Option<&V>
        ensures { option_copied result ≡ self.now.1 }
    {
        self.value.as_ref()
    }
}

/// What is dropped of a chain at a number.
#[derive(Clone, Copy, Debug, Drop, PartialEq, Eq)]
pub(crate) enum Trim {
    /// The versions above it.
    Above,
    /// Those that no map from it on has.
    Below,
}

/// The versions of a key. There is always one, which takes no memory of its own.
#[derive(Drop)]
pub(crate) struct Chain<V> {
    newest: Version<V>,
    older: VecDeque<Version<V>>, // the newest first
}

impl<V> Model for Chain<V> {
    ghost use Rattle.std.specs.Prelude.{ℕ, List, Option, ◌∷◌};
    ghost use Rattle.std.specs.Coded.{coded×, coded_ℕ, coded_option, coded_list};

    ghost Value = { List (ℕ × Option V) };

    ghost coded = { coded_list (coded× coded_ℕ (coded_option V.code)) };

    ghost view = { λ c. c.newest ∷ c.older.items };
}

// The value of the first version up to the number. The numbers fall, so those above it stand in front.
fn value_among<V: Drop>(versions: &VecDeque<Version<V>>, number: u64) -> Option<&V>
    requires { Falls versions.now.items }
    ensures { option_copied result ≡ value_at number versions.now.items }
{
    let place = versions.partition_point(|version| !version.is_up_to(number));
    match versions.get(place) {
        Some(version) => version.value(),
        None => None,
    }
}

// Drops the first version, where it has the number.
fn drop_first_of<V: Drop>(versions: &mut VecDeque<Version<V>>, number: u64)
    ensures { versions.new.items ≡ without_first number versions.old.items }
{
    let is_first = match versions.front() {
        Some(version) => version.is_of(number),
        None => false,
    };
    if is_first {
        versions.pop_front();
    }
}

impl<V: Drop> Chain<V> {
    /// One version.
    pub fn of(alloc: Global, number: u64, value: Option<V>) -> Chain<V>
        ensures { result ≡ (number, value) ∷ [] }
    {
        Chain {
            newest: Version { number, value },
            older: VecDeque::new(alloc),
        }
    }

    /// The value of the newest version up to the number.
    pub fn at(&self, number: u64) -> Option<&V>
        requires { Falls self.now }
        ensures { option_copied result ≡ value_at number self.now }
    {
        if self.newest.is_up_to(number) {
            self.newest.value()
        } else {
            value_among(&self.older, number)
        }
    }

    /// The newest version has the number.
    pub fn is_written(&self, number: u64) -> bool
        ensures { result ≡ is_written number self.now }
    {
        self.newest.is_of(number)
    }

    /// Writes the value under the number, which no version is above.
    pub fn write(&mut self, number: u64, value: Option<V>) -> Result<(), NoMemory>
        ensures ok { OnOk result (self.new ≡ written number value self.old) }
        ensures err { OnErr result (self.new ≡ self.old) }
    {
        let written = Version { number, value };
        if self.is_written(number) {
            self.newest = written;
        } else {
            self.older.reserve(1)?;
            let before = replace(&mut self.newest, written);
            self.older.push_front_reserved(before);
        }
        Ok(())
    }

    /// Drops versions, where one is left, and says whether one is.
    pub fn trim(&mut self, trim: Trim, number: u64) -> bool
        requires { Falls self.old }
        ensures answer { result ≡ is_left (left_of trim number self.old) }
        ensures left { OnTrue result (self.new ≡ left_of trim number self.old) }
    {
        match trim {
            Trim::Above => self.drop_above(number),
            Trim::Below => self.drop_below(number),
        }
    }

    fn is_above(&self, number: u64) -> bool
        ensures value { result ≡ is_above number self.now }
        ensures some { is_left self.now ≡ true }
    {
        !self.newest.is_up_to(number)
    }

    // Drops the newest version, where there is an older one.
    fn drop_newest(&mut self) -> bool
        ensures answer { result ≡ is_left (drop 1 self.old) }
        ensures left { OnTrue result (self.new ≡ drop 1 self.old) }
    {
        match self.older.pop_front() {
            Some(version) => {
                self.newest = version;
                true
            }
            None => false,
        }
    }

    fn drop_above(&mut self, number: u64) -> bool
        ensures answer { result ≡ is_left (cut number self.old) }
        ensures left { OnTrue result (self.new ≡ cut number self.old) }
    {
        while self.is_above(number) {
            if !self.drop_newest() {
                return false;
            }
        }
        self.free_block();
        true
    }

    // The last version but one is up to the number.
    fn is_covered(&self, number: u64) -> bool
        ensures covered { OnTrue result (EndsCovered number self.now) }
        ensures open { OnFalse result (EndsOpen number self.now) }
    {
        let count = self.older.len();
        if count == 0 {
            return false;
        }
        if count == 1 {
            return self.newest.is_up_to(number);
        }
        match self.older.get(count - 2) {
            Some(version) => version.is_up_to(number),
            None => false,
        }
    }

    // The oldest version is a removal, up to the number.
    fn is_gone(&self, number: u64) -> bool
        ensures value { result ≡ is_gone number self.now }
        ensures some { is_left self.now ≡ true }
    {
        match self.older.back() {
            Some(version) => version.is_gone(number),
            None => self.newest.is_gone(number),
        }
    }

    // Drops the oldest version, where there is a newer one.
    fn drop_oldest(&mut self) -> bool
        ensures answer { result ≡ is_left (newer self.old) }
        ensures left { OnTrue result (self.new ≡ newer self.old) }
    {
        self.older.pop_back().is_some()
    }

    // Drops the oldest version where it is a removal up to the number and there is a newer one.
    fn drop_gone(&mut self, number: u64) -> bool
        ensures answer { result ≡ is_left (without_gone number self.old) }
        ensures left { OnTrue result (self.new ≡ without_gone number self.old) }
    {
        !self.is_gone(number) || self.drop_oldest()
    }

    fn drop_below(&mut self, number: u64) -> bool
        requires { Falls self.old }
        ensures answer { result ≡ is_left (settled number self.old) }
        ensures left { OnTrue result (self.new ≡ settled number self.old) }
    {
        while self.is_covered(number) {
            self.drop_oldest();
        }
        let is_left = self.drop_gone(number);
        self.free_block();
        is_left
    }

    /// The newest version, where it has the number `above`, gets the number, in the place of one that has it.
    pub fn lower(&mut self, above: u64, number: u64)
        ensures lowered { self.new ≡ lowered above number self.old }
        ensures some { is_left self.new ≡ true }
    {
        if self.is_written(above) {
            self.newest.number = number;
            drop_first_of(&mut self.older, number);
            self.free_block();
        }
    }

    // Gives back the memory for older versions, where there are none.
    fn free_block(&mut self)
        ensures { self.new ≡ self.old }
    {
        if self.older.is_empty() {
            self.older.shrink_to_fit();
        }
    }
}

impl<V: Copied + Drop> Chain<V> {
    /// Writes the value at the number `from` under the number `above`, where nothing has that number.
    pub fn repeat(&mut self, alloc: Global, from: u64, above: u64) -> Result<(), NoMemory>
        requires { Falls self.old }
        ensures ok { OnOk result (self.new ≡ repeated from above self.old) }
        ensures err { OnErr result (self.new ≡ self.old) }
    {
        if self.is_written(above) {
            return Ok(());
        }
        let value = match self.at(from) {
            Some(value) => Some(value.copied(alloc)?),
            None => None,
        };
        self.write(above, value)?;
        Ok(())
    }
}
