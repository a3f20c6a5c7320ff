//! Values of which there can be two alike.

ghost use Rattle.std.specs.Prelude.{◌≡◌, ◌↔◌, IfOk, IsTrue};

use kr_base::NoMemory;
use kr_defs::{Copied, Text};
use std::alloc::Global;

/// Values of which there can be two alike.
pub trait Repeat {
    /// The same value once more.
    fn again(&self, alloc: Global) -> Result<Self, NoMemory>
        ensures { IfOk result (λ copy. copy ≡ self.now) };

    /// The values are the same.
    fn is(&self, other: &Self) -> bool
        ensures { IsTrue result ↔ (self.now ≡ other.now) };
}

impl Repeat for i32 {
    fn again(&self, _alloc: Global) -> Result<i32, NoMemory> {
        Ok(*self)
    }

    fn is(&self, other: &i32) -> bool {
        *self == *other
    }
}

impl Repeat for Text {
    fn again(&self, alloc: Global) -> Result<Text, NoMemory> {
        Ok(self.copied(alloc)?)
    }

    fn is(&self, other: &Text) -> bool {
        self == other
    }
}
