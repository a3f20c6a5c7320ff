//! What placement answers, in words.

ghost use Rattle.std.specs.Prelude.{◌≡◌, ◌<◌, ◌≤◌, ◌≤ℤ◌, pos, length, unsigned_abs, IfOk, string_bytes};
ghost use Rattle.testlib_rule_answers.specs.PlaceWords as words;

use kr_place::{PlaceFault, Racked, place};
use std::alloc::{AllocError, Global};
use testlib_words::ids_text;

fn too_few_text(alloc: Global, usable: usize, asked: i16) -> Result<String, AllocError>
    ensures { IfOk result (λ text. string_bytes text ≡ words.too_few_words usable asked) }
{
    format!(in alloc; "TooFew {usable} {asked}")
}

/// The brokers that are chosen, or how many there are and how many are asked for.
pub fn place_answer(
    alloc: Global,
    brokers: &Racked,
    start: i64,
    index: i32,
    factor: i16,
) -> Result<String, AllocError>
    requires start { pos 0 ≤ℤ start }
    requires index { pos 0 ≤ℤ index }
    requires factor { pos 1 ≤ℤ factor }
    ensures placed { unsigned_abs factor ≤ length brokers.now → IfOk result (λ text.
        string_bytes text ≡ words.placed_words brokers.now start index factor) }
    ensures too_few { length brokers.now < unsigned_abs factor → IfOk result (λ text.
        string_bytes text ≡ words.too_few_words (length brokers.now) factor) }
{
    match place(alloc, brokers, start, index, factor) {
        Ok(ids) => ids_text(alloc, ids.as_slice()),
        Err(PlaceFault::TooFew { usable, asked }) => too_few_text(alloc, usable, asked),
        Err(PlaceFault::NoMemory) => Err(AllocError),
    }
}
