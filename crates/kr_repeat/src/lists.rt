//! Lists, and what may be absent.

ghost use Rattle.std.specs.Prelude.{◌≡◌, ◌↔◌, IsTrue};

use crate::Repeat;
use kr_base::NoMemory;
use kr_defs::Rows;
use std::alloc::Global;

impl<T: Repeat> Repeat for Option<T> {
    fn again(&self, alloc: Global) -> Result<Option<T>, NoMemory> {
        match self {
            None => Ok(None),
            Some(value) => Ok(Some(value.again(alloc)?)),
        }
    }

    fn is(&self, other: &Option<T>) -> bool {
        match (self, other) {
            (None, None) => true,
            (Some(one), Some(two)) => one.is(two),
            _ => false,
        }
    }
}

// The lists have the same items in the same order.
fn same_items<T: Repeat>(left: &[T], right: &[T]) -> bool
    ensures { IsTrue result ↔ (left.now ≡ right.now) }
{
    if left.len() != right.len() {
        return false;
    }
    for index in 0..left.len() {
        if !left[index].is(&right[index]) {
            return false;
        }
    }
    true
}

impl<T: Repeat + Drop> Repeat for Rows<T> {
    fn again(&self, alloc: Global) -> Result<Rows<T>, NoMemory> {
        let mut copy = Rows::new(alloc);
        for value in self.as_slice() {
            copy.push(value.again(alloc)?)?;
        }
        Ok(copy)
    }

    fn is(&self, other: &Rows<T>) -> bool {
        same_items(self.as_slice(), other.as_slice())
    }
}
