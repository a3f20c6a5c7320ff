//! Texts and lists of ids.

ghost use Rattle.std.specs.Prelude.{◌≡◌, ◌<◌, ◌++◌, flat_map, OnOk};
ghost use Rattle.std.specs.Fmt.{signed_decimal};
ghost use Rattle.kr_dump.specs.DumpText as texts;

use kr_defs::{Bytes, Ids, Text};
use std::alloc::{AllocError, Global};

fn is_plain(byte: u8) -> bool
    ensures { result ≡ texts.is_plain byte }
{
    32 <= byte && byte <= 126 && byte != b'"' && byte != b'\\'
}

fn hex_digit(n: u8) -> u8
    requires { n < 16 }
    ensures { result ≡ texts.hex_digit n }
{
    if n < 10 { b'0' + n } else { b'a' - 10 + n }
}

fn put_byte(out: &mut Bytes, byte: u8) -> Result<(), AllocError>
    ensures { OnOk result (out.new ≡ out.old ++ texts.shown_byte byte) }
{
    if is_plain(byte) {
        return out.push(byte);
    }
    put_str(out, "\\x")?;
    out.push(hex_digit(byte / 16))?;
    out.push(hex_digit(byte % 16))
}

fn put_shown(out: &mut Bytes, bytes: &[u8]) -> Result<(), AllocError>
    ensures { OnOk result (out.new ≡ out.old ++ flat_map texts.shown_byte bytes.now) }
{
    for byte in bytes {
        put_byte(out, *byte)?;
    }
    Ok(())
}

/// In double quotes; other bytes than visible ones of ASCII, and `"` and `\`, stand as `\x` and two digits.
pub(crate) fn put_quoted(out: &mut Bytes, text: &Text) -> Result<(), AllocError>
    ensures { OnOk result (out.new ≡ out.old ++ texts.quoted text.now) }
{
    out.push(b'"')?;
    put_shown(out, text.as_str().as_bytes())?;
    out.push(b'"')
}

fn put_bytes(out: &mut Bytes, bytes: &[u8]) -> Result<(), AllocError>
    ensures { OnOk result (out.new ≡ out.old ++ bytes.now) }
{
    for byte in bytes {
        out.push(*byte)?;
    }
    Ok(())
}

pub(crate) fn put_str(out: &mut Bytes, text: &str) -> Result<(), AllocError>
    ensures { OnOk result (out.new ≡ out.old ++ text.now) }
{
    put_bytes(out, text.as_bytes())
}

/// `-` for none.
pub(crate) fn put_rack(out: &mut Bytes, rack: &Option<Text>) -> Result<(), AllocError>
    ensures { OnOk result (out.new ≡ out.old ++ texts.rack_text rack.now) }
{
    match rack {
        Some(rack) => put_quoted(out, rack),
        None => put_str(out, "-"),
    }
}

fn put_id(alloc: Global, out: &mut Bytes, id: &i32) -> Result<(), AllocError>
    ensures { OnOk result (out.new ≡ out.old ++ signed_decimal id.now) }
{
    let text = format!(in alloc; "{id}")?;
    put_str(out, text.as_str())
}

// Behind a comma.
fn put_further_id(alloc: Global, out: &mut Bytes, id: &i32) -> Result<(), AllocError>
    ensures { OnOk result (out.new ≡ out.old ++ texts.further_id id.now) }
{
    put_str(out, ",")?;
    put_id(alloc, out, id)
}

fn put_further(alloc: Global, out: &mut Bytes, ids: &[i32]) -> Result<(), AllocError>
    ensures { OnOk result (out.new ≡ out.old ++ flat_map texts.further_id ids.now) }
{
    for id in ids {
        put_further_id(alloc, out, id)?;
    }
    Ok(())
}

// Commas between them, `-` for none.
fn put_list(alloc: Global, out: &mut Bytes, ids: &[i32]) -> Result<(), AllocError>
    ensures { OnOk result (out.new ≡ out.old ++ texts.ids_text ids.now) }
{
    match ids.split_first() {
        None => put_str(out, "-"),
        Some((first, others)) => {
            put_id(alloc, out, first)?;
            put_further(alloc, out, others)
        }
    }
}

/// A word, and then the ids with commas between them, `-` for none.
pub(crate) fn put_ids(
    alloc: Global,
    out: &mut Bytes,
    word: &str,
    ids: &Ids,
) -> Result<(), AllocError>
    ensures { OnOk result (out.new ≡ out.old ++ (word.now ++ texts.ids_text ids.now)) }
{
    put_str(out, word)?;
    put_list(alloc, out, ids.as_slice())
}
