//! The percentage of `balance`.

ghost use Rattle.std.specs.Prelude.{◌≡◌, ◌≤◌, ◌↔◌, ℕ, Some};
ghost use Rattle.std.specs.Fmt.{decimal};

use kr_defs::decimal_up_to;

/// The number 0 to 100 that the word spells in decimal, without sign or leading zero.
pub(crate) fn percent_of(word: &str) -> Option<u8>
    ensures { (percent : ℕ) → (result ≡ Some percent) ↔
        ((percent ≤ 100) × (word.now ≡ decimal percent)) }
{
    match decimal_up_to(100, word.as_bytes()) {
        Some(percent) => Some(percent as u8),
        None => None,
    }
}
