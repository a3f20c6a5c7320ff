//! Decimal numbers of 64 bits.

ghost use Rattle.std.specs.Prelude.{◌≡◌};
ghost use Rattle.kr_defs.specs.Texts as texts;

fn is_digit(byte: u8) -> bool
    ensures { result ≡ texts.is_digit byte }
{
    b'0' <= byte && byte <= b'9'
}

fn are_digits(text: &[u8]) -> bool
    ensures { result ≡ texts.are_digits text.now }
{
    text.iter().all(|byte| is_digit(*byte))
}

// There is a first digit, which is zero only where it is the only one.
fn is_led(text: &[u8]) -> bool
    ensures { result ≡ texts.is_led text.now }
{
    match text {
        [] => false,
        [digit, digits @ ..] => *digit != b'0' || digits.is_empty(),
    }
}

fn is_decimal(text: &[u8]) -> bool
    ensures { result ≡ texts.is_decimal text.now }
{
    is_led(text) && are_digits(text)
}

/// The number up to `greatest` that the text spells in decimal, without sign or leading zero.
pub(crate) fn long_up_to(greatest: u64, text: &[u8]) -> Option<u64>
    ensures { result ≡ texts.decimal_up_to greatest text.now }
{
    if !is_decimal(text) {
        return None;
    }
    let mut number: u128 = 0;
    for byte in text {
        number = number * 10 + u128::from(byte.saturating_sub(b'0'));
        if number > u128::from(greatest) {
            return None;
        }
    }
    Some(number as u64)
}
