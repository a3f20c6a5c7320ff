//! Tests of names, and decimal numbers.

ghost use Rattle.std.specs.Prelude.{◌≡◌};
ghost use Rattle.kr_defs.specs.Texts as texts;

use crate::Text;
use crate::limits::LONGEST_TOPIC;

fn is_digit(byte: u8) -> bool
    ensures { result ≡ texts.is_digit byte }
{
    b'0' <= byte && byte <= b'9'
}

fn is_letter(byte: u8) -> bool
    ensures { result ≡ texts.is_letter byte }
{
    (b'A' <= byte && byte <= b'Z') || (b'a' <= byte && byte <= b'z')
}

fn is_name_byte(byte: u8) -> bool
    ensures { result ≡ texts.is_name_byte byte }
{
    is_digit(byte) || is_letter(byte) || byte == b'.' || byte == b'_' || byte == b'-'
}

fn are_name_bytes(name: &[u8]) -> bool
    ensures { result ≡ texts.are_name_bytes name.now }
{
    name.iter().all(|byte| is_name_byte(*byte))
}

/// The text is at most so many ASCII letters, digits, `.`, `_` and `-`, and not empty.
pub fn is_name(longest: usize, name: &Text) -> bool
    ensures { result ≡ texts.is_name longest name.now }
{
    !name.is_empty() && name.len() <= longest && are_name_bytes(name.as_bytes())
}

/// The text may name a topic: 1 to 249 ASCII letters, digits, `.`, `_` and `-`, and neither `.` nor `..`.
pub fn is_topic_name(name: &Text) -> bool
    ensures { result ≡ texts.is_topic_name name.now }
{
    is_name(LONGEST_TOPIC, name) && name.as_str() != "." && name.as_str() != ".."
}

fn as_underscore(byte: u8) -> u8
    ensures { result ≡ texts.as_underscore byte }
{
    if byte == b'.' { b'_' } else { byte }
}

/// The names are the same after each `.` becomes `_`.
pub fn names_agree(name: &Text, other: &Text) -> bool
    ensures { result ≡ texts.names_agree name.now other.now }
{
    let others = other.as_bytes();
    if name.len() != others.len() {
        return false;
    }
    for (at, byte) in name.as_bytes().iter().enumerate() {
        if as_underscore(*byte) != as_underscore(others[at]) {
            return false;
        }
    }
    true
}

fn are_digits(text: &[u8]) -> bool
    ensures { result ≡ texts.are_digits text.now }
{
    text.iter().all(|byte| is_digit(*byte))
}

// There is a first digit, which is zero only where it is the only one.
fn is_led(text: &[u8]) -> bool
    ensures { result ≡ texts.is_led text.now }
{
    match text {
        [] => false,
        [digit, digits @ ..] => *digit != b'0' || digits.is_empty(),
    }
}

fn is_decimal(text: &[u8]) -> bool
    ensures { result ≡ texts.is_decimal text.now }
{
    is_led(text) && are_digits(text)
}

/// The number up to `greatest` that the text spells in decimal, without sign or leading zero.
pub fn decimal_up_to(greatest: u32, text: &[u8]) -> Option<u32>
    ensures { result ≡ texts.decimal_up_to greatest text.now }
{
    if !is_decimal(text) {
        return None;
    }
    let mut number: u64 = 0;
    for byte in text {
        number = number * 10 + u64::from(byte.saturating_sub(b'0'));
        if number > u64::from(greatest) {
            return None;
        }
    }
    Some(number as u32)
}
