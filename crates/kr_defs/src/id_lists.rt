//! Lists of broker ids, looked at.

ghost use Rattle.std.specs.Prelude.{◌≡◌};
ghost use Rattle.kr_defs.specs.Ids as ids;

use crate::Ids;

/// Each id stands once.
pub fn is_distinct(list: &[i32]) -> bool
    ensures { result ≡ ids.is_distinct list.now }
{
    for (at, id) in list.iter().enumerate() {
        let (_, later) = list.split_at(at + 1);
        if later.contains(id) {
            return false;
        }
    }
    true
}

/// Each of these is among those.
pub fn is_within(list: &[i32], those: &Ids) -> bool
    ensures { result ≡ ids.is_within list.now those.now }
{
    list.iter().all(|id| those.contains(id))
}

/// None of these is among those.
pub fn are_apart(list: &[i32], those: &Ids) -> bool
    ensures { result ≡ ids.are_apart list.now those.now }
{
    list.iter().all(|id| !those.contains(id))
}
