//! JSON texts.

ghost use Rattle.std.specs.Prelude.{◌≡◌, ◌<◌, ◌/◌, ◌%◌, [], ◌∷◌, ◌++◌, codes, flat_map, string_bytes, IfOk, OnOk};
ghost use Rattle.std.specs.Int.{w128, to_be_bytes};
ghost use Rattle.base64.specs.Engines.{url_safe_no_pad};
ghost use Rattle.base64.specs.GeneralPurpose.{encode_of};
ghost use Rattle.std.specs.Fmt.{signed_decimal};
ghost use Rattle.kr_json.specs.JsonText as texts;

use base64::engine::general_purpose::URL_SAFE_NO_PAD;
use kr_defs::Text;
use std::alloc::{AllocError, Global};

/// Appends these characters. Without memory some of them may stand behind what there was.
pub fn put_str(out: &mut Vec<u8>, text: &str) -> Result<(), AllocError>
    ensures { OnOk result (out.new.items ≡ out.old.items ++ text.now) }
{
    out.extend_from_slice(text.as_bytes())
}

fn hex_digit(n: u8) -> u8
    requires { n < 16 }
    ensures { result ≡ texts.upper_hex n }
{
    if n < 10 { b'0' + n } else { b'A' - 10 + n }
}

// A control character without a letter.
fn put_control(out: &mut Vec<u8>, byte: u8) -> Result<(), AllocError>
    requires { byte < 32 }
    ensures { OnOk result (out.new.items ≡ out.old.items ++ (codes "\\u00" ++ (texts.upper_hex
        (byte / 16) ∷ texts.upper_hex (byte % 16) ∷ []))) }
{
    put_str(out, "\\u00")?;
    out.push(hex_digit(byte / 16))?;
    out.push(hex_digit(byte % 16))?;
    Ok(())
}

fn put_plain(out: &mut Vec<u8>, byte: u8) -> Result<(), AllocError>
    ensures { OnOk result (out.new.items ≡ out.old.items ++ byte ∷ []) }
{
    out.push(byte)?;
    Ok(())
}

fn put_escaped(out: &mut Vec<u8>, byte: u8) -> Result<(), AllocError>
    ensures { OnOk result (out.new.items ≡ out.old.items ++ texts.escaped byte) }
{
    match byte {
        b'"' => put_str(out, "\\\""),
        b'\\' => put_str(out, "\\\\"),
        8 => put_str(out, "\\b"),
        9 => put_str(out, "\\t"),
        10 => put_str(out, "\\n"),
        12 => put_str(out, "\\f"),
        13 => put_str(out, "\\r"),
        0..32 => put_control(out, byte),
        _ => put_plain(out, byte),
    }
}

fn put_all_escaped(out: &mut Vec<u8>, bytes: &[u8]) -> Result<(), AllocError>
    ensures { OnOk result (out.new.items ≡ out.old.items ++ flat_map texts.escaped bytes.now) }
{
    for byte in bytes {
        put_escaped(out, *byte)?;
    }
    Ok(())
}

pub(crate) fn put_string(out: &mut Vec<u8>, text: &Text) -> Result<(), AllocError>
    ensures { OnOk result (out.new.items ≡ out.old.items ++ texts.string text.now) }
{
    put_str(out, "\"")?;
    put_all_escaped(out, text.as_str().as_bytes())?;
    put_str(out, "\"")
}

pub(crate) fn put_string_or_null(out: &mut Vec<u8>, text: &Option<Text>) -> Result<(), AllocError>
    ensures { OnOk result (out.new.items ≡ out.old.items ++ texts.string_or_null text.now) }
{
    match text {
        Some(text) => put_string(out, text),
        None => put_str(out, "null"),
    }
}

pub(crate) fn put_boolean(out: &mut Vec<u8>, value: bool) -> Result<(), AllocError>
    ensures { OnOk result (out.new.items ≡ out.old.items ++ texts.boolean value) }
{
    put_str(out, if value { "true" } else { "false" })
}

fn base64_of(alloc: Global, bytes: &[u8]) -> Result<String, AllocError>
    ensures { IfOk result (λ text. string_bytes text ≡ encode_of url_safe_no_pad bytes.now) }
{
    URL_SAFE_NO_PAD.encode(alloc, bytes)
}

fn id_text(alloc: Global, id: u128) -> Result<String, AllocError>
    ensures { IfOk result (λ text. string_bytes text ≡
        encode_of url_safe_no_pad (to_be_bytes w128 id)) }
{
    let bytes = id.to_be_bytes();
    base64_of(alloc, &bytes)
}

pub(crate) fn put_id(alloc: Global, out: &mut Vec<u8>, id: &u128) -> Result<(), AllocError>
    ensures { OnOk result (out.new.items ≡ out.old.items ++ texts.base64_id id.now) }
{
    put_str(out, "\"")?;
    let text = id_text(alloc, *id)?;
    put_str(out, text.as_str())?;
    put_str(out, "\"")
}

fn put_further(alloc: Global, out: &mut Vec<u8>, numbers: &[i32]) -> Result<(), AllocError>
    ensures { OnOk result (out.new.items ≡ out.old.items ++ flat_map (texts.further
        signed_decimal) numbers.now) }
{
    for number in numbers {
        put_further_number(alloc, out, number)?;
    }
    Ok(())
}

// Behind a comma.
fn put_further_number(alloc: Global, out: &mut Vec<u8>, number: &i32) -> Result<(), AllocError>
    ensures { OnOk result (out.new.items ≡ out.old.items ++ texts.further signed_decimal
        number.now) }
{
    let text = format!(in alloc; ",{number}")?;
    put_str(out, text.as_str())
}

fn put_first(alloc: Global, out: &mut Vec<u8>, number: &i32) -> Result<(), AllocError>
    ensures { OnOk result (out.new.items ≡ out.old.items ++ signed_decimal number.now) }
{
    let text = format!(in alloc; "{number}")?;
    put_str(out, text.as_str())
}

fn put_elements(alloc: Global, out: &mut Vec<u8>, numbers: &[i32]) -> Result<(), AllocError>
    ensures { OnOk result (out.new.items ≡ out.old.items ++ texts.elements signed_decimal
        numbers.now) }
{
    match numbers.split_first() {
        None => Ok(()),
        Some((first, others)) => {
            put_first(alloc, out, first)?;
            put_further(alloc, out, others)
        }
    }
}

pub(crate) fn put_numbers(
    alloc: Global,
    out: &mut Vec<u8>,
    numbers: &[i32],
) -> Result<(), AllocError>
    ensures { OnOk result (out.new.items ≡ out.old.items ++ texts.numbers numbers.now) }
{
    put_str(out, "[")?;
    put_elements(alloc, out, numbers)?;
    put_str(out, "]")
}
