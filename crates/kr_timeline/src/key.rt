//! Keys of which equal ones are the same.

ghost use Rattle.std.specs.Prelude.{◌≡◌};
ghost use Rattle.std.specs.declared.cmp.Ordering.TheVariants.{Equal};

use kr_defs::{ConfigKey, Copied, Text};

/// Keys that can be copied, and of which no two are equal that are not the same.
pub trait Key: Ord + Copied {
    ghost exact: { (x y : Self) → Self.cmp x y ≡ Equal → x ≡ y };
}

impl Key for i32 {
    ghost use Rattle.std.proofs.lemmas.Map.Lookups.{exact_signed};

    ghost exact = { exact_signed };
}

impl Key for (u128, i32) {
    ghost use Rattle.std.specs.Ordering.{nat_cmp, int_cmp};
    ghost use Rattle.std.proofs.lemmas.Map.Lookups.{exact_unsigned, exact_signed, exact_pairs};

    ghost exact = { exact_pairs nat_cmp int_cmp exact_unsigned exact_signed };
}

impl Key for Text {
    ghost use Rattle.std.proofs.lemmas.Map.Lookups.{exact_bytes};

    ghost exact = { exact_bytes };
}

impl Key for u128 {
    ghost use Rattle.std.proofs.lemmas.Map.Lookups.{exact_unsigned};

    ghost exact = { exact_unsigned };
}

impl Key for ConfigKey {
    ghost use Rattle.kr_timeline.specs.Keys.{config_exact};

    ghost exact = { config_exact };
}
