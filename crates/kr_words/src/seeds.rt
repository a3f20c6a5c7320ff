//! The number of `make`.

ghost use Rattle.std.specs.Prelude.{◌≡◌, ◌<◌, ◌^◌, ◌↔◌, ℕ, Some};
ghost use Rattle.std.specs.Fmt.{decimal};

use kr_defs::decimal_up_to;

/// The number of 32 bits that the word spells in decimal, without sign or leading zero.
pub(crate) fn seed_of(word: &str) -> Option<u32>
    ensures { (seed : ℕ) → (result ≡ Some seed) ↔ ((seed < 2 ^ 32) × (word.now ≡ decimal seed)) }
{
    decimal_up_to(u32::MAX, word.as_bytes())
}
