//! Members of an object, that are left out where a version doesn't have them or where they have their default.

ghost use Rattle.std.specs.Prelude.{◌≡◌, [], ◌++◌, if◌then◌else◌, OnOk};
ghost use Rattle.std.specs.Fmt.{decimal, signed_decimal};
ghost use Rattle.kr_json.specs.Lines as lines;
ghost use Rattle.kr_json.specs.JsonText as texts;

use crate::text::{put_boolean, put_id, put_numbers, put_str, put_string, put_string_or_null};
use kr_defs::{Ids, Text};
use std::alloc::{AllocError, Global};

/// A name, with what stands before it, and a number.
pub(crate) fn put_i8(
    alloc: Global,
    out: &mut Vec<u8>,
    name: &str,
    number: &i8,
) -> Result<(), AllocError>
    ensures { OnOk result (out.new.items ≡ out.old.items ++ (name.now ++ signed_decimal
        number.now)) }
{
    put_str(out, name)?;
    let text = format!(in alloc; "{number}")?;
    put_str(out, text.as_str())
}

pub(crate) fn put_i16(
    alloc: Global,
    out: &mut Vec<u8>,
    name: &str,
    number: &i16,
) -> Result<(), AllocError>
    ensures { OnOk result (out.new.items ≡ out.old.items ++ (name.now ++ signed_decimal
        number.now)) }
{
    put_str(out, name)?;
    let text = format!(in alloc; "{number}")?;
    put_str(out, text.as_str())
}

pub(crate) fn put_u16(
    alloc: Global,
    out: &mut Vec<u8>,
    name: &str,
    number: &u16,
) -> Result<(), AllocError>
    ensures { OnOk result (out.new.items ≡
        out.old.items ++ (name.now ++ decimal number.now)) }
{
    put_str(out, name)?;
    let text = format!(in alloc; "{number}")?;
    put_str(out, text.as_str())
}

pub(crate) fn put_i128(
    alloc: Global,
    out: &mut Vec<u8>,
    name: &str,
    number: i128,
) -> Result<(), AllocError>
    ensures { OnOk result (out.new.items ≡
        out.old.items ++ (name.now ++ signed_decimal number)) }
{
    put_str(out, name)?;
    let text = format!(in alloc; "{number}")?;
    put_str(out, text.as_str())
}

pub(crate) fn put_i32(
    alloc: Global,
    out: &mut Vec<u8>,
    name: &str,
    number: &i32,
) -> Result<(), AllocError>
    ensures { OnOk result (out.new.items ≡ out.old.items ++ (name.now ++ signed_decimal
        number.now)) }
{
    put_str(out, name)?;
    let text = format!(in alloc; "{number}")?;
    put_str(out, text.as_str())
}

pub(crate) fn put_i64(
    alloc: Global,
    out: &mut Vec<u8>,
    name: &str,
    number: &i64,
) -> Result<(), AllocError>
    ensures { OnOk result (out.new.items ≡ out.old.items ++ (name.now ++ signed_decimal
        number.now)) }
{
    put_str(out, name)?;
    let text = format!(in alloc; "{number}")?;
    put_str(out, text.as_str())
}

/// A name and a list of numbers.
pub(crate) fn put_ids(
    alloc: Global,
    out: &mut Vec<u8>,
    name: &str,
    ids: &Ids,
) -> Result<(), AllocError>
    ensures { OnOk result (out.new.items ≡ out.old.items ++ (name.now ++ texts.numbers ids.now)) }
{
    put_str(out, name)?;
    put_numbers(alloc, out, ids.as_slice())
}

pub(crate) fn put_unless_zero(
    alloc: Global,
    out: &mut Vec<u8>,
    name: &str,
    number: &i8,
) -> Result<(), AllocError>
    ensures { OnOk result (out.new.items ≡ out.old.items ++ lines.unless_zero name.now number.now) }
{
    if *number == 0 {
        return Ok(());
    }
    put_i8(alloc, out, name, number)
}

pub(crate) fn put_leader(
    alloc: Global,
    out: &mut Vec<u8>,
    name: &str,
    number: &Option<i32>,
) -> Result<(), AllocError>
    ensures { OnOk result (out.new.items ≡ out.old.items ++ lines.number_if_any name.now
        number.now) }
{
    match number {
        None => Ok(()),
        Some(number) => put_i32(alloc, out, name, number),
    }
}

pub(crate) fn put_recovery(
    alloc: Global,
    out: &mut Vec<u8>,
    name: &str,
    number: &Option<i8>,
) -> Result<(), AllocError>
    ensures { OnOk result (out.new.items ≡ out.old.items ++ lines.number_if_any name.now
        number.now) }
{
    match number {
        None => Ok(()),
        Some(number) => put_i8(alloc, out, name, number),
    }
}

pub(crate) fn put_ids_if_any(
    alloc: Global,
    out: &mut Vec<u8>,
    name: &str,
    ids: &Option<Ids>,
) -> Result<(), AllocError>
    ensures { OnOk result (out.new.items ≡ out.old.items ++ lines.numbers_if_any name.now ids.now) }
{
    match ids {
        None => Ok(()),
        Some(ids) => put_ids(alloc, out, name, ids),
    }
}

pub(crate) fn put_ids_since(
    alloc: Global,
    out: &mut Vec<u8>,
    is_there: bool,
    name: &str,
    ids: &Option<Ids>,
) -> Result<(), AllocError>
    ensures { OnOk result (out.new.items ≡
        out.old.items ++ (if is_there then lines.numbers_if_any name.now ids.now else [])) }
{
    if !is_there {
        return Ok(());
    }
    put_ids_if_any(alloc, out, name, ids)
}

fn put_unless_empty(
    alloc: Global,
    out: &mut Vec<u8>,
    name: &str,
    ids: &[i32],
) -> Result<(), AllocError>
    ensures { OnOk result (out.new.items ≡ out.old.items ++ lines.unless_no_ids name.now ids.now) }
{
    match ids {
        [] => Ok(()),
        _ => {
            put_str(out, name)?;
            put_numbers(alloc, out, ids)
        }
    }
}

pub(crate) fn put_leaders_since(
    alloc: Global,
    out: &mut Vec<u8>,
    is_there: bool,
    name: &str,
    ids: &Ids,
) -> Result<(), AllocError>
    ensures { OnOk result (out.new.items ≡
        out.old.items ++ (if is_there then lines.unless_no_ids name.now ids.now else [])) }
{
    if !is_there {
        return Ok(());
    }
    put_unless_empty(alloc, out, name, ids.as_slice())
}

/// A name and `true` or `false`.
pub(crate) fn put_flag(out: &mut Vec<u8>, name: &str, value: bool) -> Result<(), AllocError>
    ensures { OnOk result (out.new.items ≡ out.old.items ++ (name.now ++ texts.boolean value)) }
{
    put_str(out, name)?;
    put_boolean(out, value)
}

/// A name and an id.
pub(crate) fn put_uuid(
    alloc: Global,
    out: &mut Vec<u8>,
    name: &str,
    id: &u128,
) -> Result<(), AllocError>
    ensures { OnOk result (out.new.items ≡ out.old.items ++ (name.now ++ texts.base64_id id.now)) }
{
    put_str(out, name)?;
    put_id(alloc, out, id)
}

/// A name and a string.
pub(crate) fn put_text(out: &mut Vec<u8>, name: &str, text: &Text) -> Result<(), AllocError>
    ensures { OnOk result (out.new.items ≡ out.old.items ++ (name.now ++ texts.string text.now)) }
{
    put_str(out, name)?;
    put_string(out, text)
}

/// A name, and a string or null.
pub(crate) fn put_text_or_null(
    out: &mut Vec<u8>,
    name: &str,
    text: &Option<Text>,
) -> Result<(), AllocError>
    ensures { OnOk result (out.new.items ≡ out.old.items ++ (name.now ++ texts.string_or_null
        text.now)) }
{
    put_str(out, name)?;
    put_string_or_null(out, text)
}
