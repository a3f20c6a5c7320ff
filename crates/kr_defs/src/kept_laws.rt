//! Laws of maps with kept epochs.

ghost use Rattle.std.specs.Prelude.{◌≡◌, ℤ, Some};
ghost use Rattle.kr_defs.specs.KeptMaps.{KeptMaps, IsAbove, marked, reverted};

/// To revert to the epoch that was marked last changes nothing: the map kept there is the present one.
#[tactic(auto, using(crate::proofs::EpochCuts::laws))]
pub fn revert_after_mark<K, V>()
    ensures { (maps : KeptMaps K V) (epoch : ℤ) → IsAbove maps.kept epoch → reverted (marked maps epoch) epoch ≡ Some (marked maps epoch) }
{}
