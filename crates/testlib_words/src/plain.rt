//! Numbers, lists of ids and what is left out, in plain words.

ghost use Rattle.std.specs.Prelude.{◌≡◌, ◌/◌, ◌%◌, ◌^◌, IfOk, string_bytes};
ghost use Rattle.testlib_words.specs.PlainWords as plain;
ghost use Rattle.testlib_words.specs.PlainWords.{◌␣◌};

use kr_defs::Ids;
use std::alloc::{AllocError, Global};

/// Two words, a space between them.
pub fn join_by_space(alloc: Global, before: &str, behind: &str) -> Result<String, AllocError>
    ensures { IfOk result (λ text. string_bytes text ≡ (before.now ␣ behind.now)) }
{
    format!(in alloc; "{before} {behind}")
}

// Each id behind a comma.
fn others_text(alloc: Global, ids: &[i32]) -> Result<String, AllocError>
    ensures { IfOk result (λ text. string_bytes text ≡ plain.others_words ids.now) }
{
    match ids.split_first() {
        None => Ok(String::new(alloc)),
        Some((first, others)) => {
            let behind = others_text(alloc, others)?;
            format!(in alloc; ",{first}{behind}")
        }
    }
}

/// The ids with commas between them, `-` for none.
pub fn ids_text(alloc: Global, ids: &[i32]) -> Result<String, AllocError>
    ensures { IfOk result (λ text. string_bytes text ≡ plain.ids_words ids.now) }
{
    match ids.split_first() {
        None => String::from_str(alloc, "-"),
        Some((first, others)) => {
            let behind = others_text(alloc, others)?;
            format!(in alloc; "{first}{behind}")
        }
    }
}

/// Three lists of ids, a space between each two.
pub fn three_lists(
    alloc: Global,
    first: &Ids,
    second: &Ids,
    third: &Ids,
) -> Result<String, AllocError>
    ensures { IfOk result (λ text. string_bytes text ≡ (plain.ids_words first.now ␣ plain.ids_words second.now ␣ plain.ids_words third.now)) }
{
    let first = ids_text(alloc, first.as_slice())?;
    let second = ids_text(alloc, second.as_slice())?;
    let two = join_by_space(alloc, &first, &second)?;
    let third = ids_text(alloc, third.as_slice())?;
    join_by_space(alloc, &two, &third)
}

/// The ids, or `.` where no list is given.
pub fn given_text(alloc: Global, list: &Option<Ids>) -> Result<String, AllocError>
    ensures { IfOk result (λ text. string_bytes text ≡ plain.given_words list.now) }
{
    match list {
        Some(ids) => ids_text(alloc, ids.as_slice()),
        None => String::from_str(alloc, "."),
    }
}

/// Three lists that may be left out, a space between each two.
pub fn three_given(
    alloc: Global,
    first: &Option<Ids>,
    second: &Option<Ids>,
    third: &Option<Ids>,
) -> Result<String, AllocError>
    ensures { IfOk result (λ text. string_bytes text ≡ (plain.given_words first.now ␣ plain.given_words second.now ␣ plain.given_words third.now)) }
{
    let first = given_text(alloc, first)?;
    let second = given_text(alloc, second)?;
    let two = join_by_space(alloc, &first, &second)?;
    let third = given_text(alloc, third)?;
    join_by_space(alloc, &two, &third)
}

/// The number, or `.` where none is given.
pub fn number_text(alloc: Global, number: Option<i32>) -> Result<String, AllocError>
    ensures { IfOk result (λ text. string_bytes text ≡ plain.number_words number) }
{
    match number {
        Some(number) => format!(in alloc; "{number}"),
        None => String::from_str(alloc, "."),
    }
}

/// `true` or `false`.
pub fn bool_word(test: bool) -> &'static str
    ensures { result.now ≡ plain.bool_words test }
{
    if test { "true" } else { "false" }
}

/// The high and the low 64 bits of an id.
pub fn halves(id: u128) -> (u64, u64)
    ensures { result ≡ (id / 2 ^ 64, id % 2 ^ 64) }
{
    ((id >> 64) as u64, (id % (1 << 64)) as u64)
}

/// The bytes in hex, `-` for none.
pub fn hex_text(alloc: Global, bytes: &[u8]) -> Result<String, AllocError>
    ensures { IfOk result (λ text. string_bytes text ≡ plain.hex_words bytes.now) }
{
    if bytes.is_empty() {
        return String::from_str(alloc, "-");
    }
    hex::encode(alloc, bytes)
}
