//! Laws of the epochs under which maps are kept. Each function's contract is the law.

ghost use Rattle.std.specs.Prelude.{ℤ};
ghost use Rattle.std.specs.declared.cmp.Ordering.{Ordering as AnyOrdering};
ghost use Rattle.kr_defs.specs.KeptMaps.{KeptMaps};
ghost use Rattle.kr_defs.specs.KeptLaws.{RevertsRestore, ForgetsBelow, RevertsAbove};

/// Whatever was done above an epoch, a revert to it makes the map that is kept there the present one.
pub fn reverts_restore<K, V>()
    ensures { (order : K → K → AnyOrdering) (maps : KeptMaps K V) → RevertsRestore order maps }
{}

/// Forgetting below an epoch leaves the maps that are kept from it on, and the present one.
pub fn forgetting_leaves_the_others<K, V>()
    ensures { (maps : KeptMaps K V) (epoch : ℤ) → ForgetsBelow maps epoch }
{}

/// A revert to an epoch leaves the maps that are kept up to it, and no others.
pub fn reverts_leave_the_others<K, V>()
    ensures { (maps : KeptMaps K V) (epoch : ℤ) → RevertsAbove maps epoch }
{}
