//! Parts of messages that stand for themselves.

ghost use Rattle.std.specs.Prelude.{◌≡◌, Some};
ghost use Rattle.base64.specs.Engines.{url_safe_no_pad};
ghost use Rattle.base64.specs.GeneralPurpose.{decode_of};
ghost use Rattle.serde_json.specs.View.{view};
ghost use Rattle.kr_request_json.specs.Inputs as inputs;
ghost use Rattle.kr_request_json.specs.Inputs.{JsonInput};
ghost use Rattle.kr_request_json.specs.inner.Steps.{Found, PutsInput};

use crate::fault::PartFault;
use base64::DecodeAllocError;
use base64::engine::general_purpose::URL_SAFE_NO_PAD;
use kr_wire::{put_bool, put_bytes, put_i8, put_i16, put_i32, put_i64, put_null, put_str, put_u16};
use serde_json::Value;
use std::alloc::Global;

/// A part of a message, by the value that its JSON has and the bytes of that.
pub(crate) trait Part {
    ghost input: { JsonInput };

    /// Appends the bytes of the value that the JSON is. Where it is none, or without memory, which a text or a list of 2^31 or more
    /// wants too, some of them may stand behind what there was.
    fn put(alloc: Global, json: &Value, out: &mut Vec<u8>) -> Result<(), PartFault>
        ensures { PutsInput input (view json.now) result out.old.items out.new.items };
}

// ---- numbers

fn as_i8(json: &Value) -> Option<i8>
    ensures { result ≡ inputs.int8_of (view json.now) }
{
    let number = json.as_i64()?;
    if number < -128 || 127 < number {
        return None;
    }
    Some(number as i8)
}

pub(crate) fn as_i16(json: &Value) -> Option<i16>
    ensures { result ≡ inputs.int16_of (view json.now) }
{
    let number = json.as_i64()?;
    if number < -32768 || 32767 < number {
        return None;
    }
    Some(number as i16)
}

fn as_i32(json: &Value) -> Option<i32>
    ensures { result ≡ inputs.int32_of (view json.now) }
{
    let number = json.as_i64()?;
    if number < -2147483648 || 2147483647 < number {
        return None;
    }
    Some(number as i32)
}

fn as_u16(json: &Value) -> Option<u16>
    ensures { result ≡ inputs.uint16_of (view json.now) }
{
    let number = json.as_u64()?;
    if number > 65535 {
        return None;
    }
    Some(number as u16)
}

pub(crate) struct Int8;

impl Part for Int8 {
    ghost input = { inputs.int8_input };

    fn put(alloc: Global, json: &Value, out: &mut Vec<u8>) -> Result<(), PartFault> {
        let Some(number) = as_i8(json) else {
            return Err(PartFault::BadField);
        };
        put_i8(out, number)?;
        Ok(())
    }
}

pub(crate) struct Int16;

impl Part for Int16 {
    ghost input = { inputs.int16_input };

    fn put(alloc: Global, json: &Value, out: &mut Vec<u8>) -> Result<(), PartFault> {
        let Some(number) = as_i16(json) else {
            return Err(PartFault::BadField);
        };
        put_i16(out, number)?;
        Ok(())
    }
}

pub(crate) struct Int32;

impl Part for Int32 {
    ghost input = { inputs.int32_input };

    fn put(alloc: Global, json: &Value, out: &mut Vec<u8>) -> Result<(), PartFault> {
        let Some(number) = as_i32(json) else {
            return Err(PartFault::BadField);
        };
        put_i32(out, number)?;
        Ok(())
    }
}

pub(crate) struct Int64;

impl Part for Int64 {
    ghost input = { inputs.int64_input };

    fn put(alloc: Global, json: &Value, out: &mut Vec<u8>) -> Result<(), PartFault> {
        let Some(number) = json.as_i64() else {
            return Err(PartFault::BadField);
        };
        put_i64(out, number)?;
        Ok(())
    }
}

pub(crate) struct Uint16;

impl Part for Uint16 {
    ghost input = { inputs.uint16_input };

    fn put(alloc: Global, json: &Value, out: &mut Vec<u8>) -> Result<(), PartFault> {
        let Some(number) = as_u16(json) else {
            return Err(PartFault::BadField);
        };
        put_u16(out, number)?;
        Ok(())
    }
}

pub(crate) struct Boolean;

impl Part for Boolean {
    ghost input = { inputs.boolean_input };

    fn put(alloc: Global, json: &Value, out: &mut Vec<u8>) -> Result<(), PartFault> {
        let Some(value) = json.as_bool() else {
            return Err(PartFault::BadField);
        };
        put_bool(out, value)?;
        Ok(())
    }
}

// ---- texts

pub(crate) struct Str;

impl Part for Str {
    ghost input = { inputs.text_input };

    fn put(alloc: Global, json: &Value, out: &mut Vec<u8>) -> Result<(), PartFault> {
        let Some(text) = json.as_str() else {
            return Err(PartFault::BadField);
        };
        if text.len() >= 1 << 31 {
            return Err(PartFault::NoMemory);
        }
        put_str(out, text)?;
        Ok(())
    }
}

/// A text, or null.
pub(crate) struct NullableStr;

impl Part for NullableStr {
    ghost input = { inputs.nullable_text_input };

    #[tactic(auto, using(crate::proofs::Texts::text_put, crate::proofs::Texts::text_null))]
    fn put(alloc: Global, json: &Value, out: &mut Vec<u8>) -> Result<(), PartFault> {
        if json.is_null() {
            put_null(out)?;
            return Ok(());
        }
        <Str as Part>::put(alloc, json, out)
    }
}

// The bytes that a text is in base64.
fn id_bytes(alloc: Global, text: &str) -> Result<Vec<u8>, PartFault>
    ensures { Found (λ bytes. bytes.items) result (inputs.sixteen (decode_of url_safe_no_pad
        text.now)) }
{
    match URL_SAFE_NO_PAD.decode(alloc, text.as_bytes()) {
        Ok(bytes) => {
            if bytes.len() == 16 {
                return Ok(bytes);
            }
            Err(PartFault::BadField)
        }
        Err(DecodeAllocError::DecodeError(_)) => Err(PartFault::BadField),
        Err(DecodeAllocError::OutOfMemory) => Err(PartFault::NoMemory),
    }
}

/// An id, in base64.
pub(crate) struct Uuid;

impl Part for Uuid {
    ghost input = { inputs.uuid_input };

    fn put(alloc: Global, json: &Value, out: &mut Vec<u8>) -> Result<(), PartFault> {
        let Some(text) = json.as_str() else {
            return Err(PartFault::BadField);
        };
        let bytes = id_bytes(alloc, text)?;
        put_bytes(out, bytes.as_slice())?;
        Ok(())
    }
}

/// The client id of a header: a text behind its length in 16 bits, or null.
pub(crate) struct ClientId;

fn put_short(out: &mut Vec<u8>, json: &Value) -> Result<(), PartFault>
    ensures { PutsInput (inputs.plain_input inputs.short_text_of (λ text. inputs.client_id (Some text))) (view json.now) result
        out.old.items out.new.items }
{
    let Some(text) = json.as_str() else {
        return Err(PartFault::BadField);
    };
    if text.len() > 32767 {
        return Err(PartFault::BadField);
    }
    put_i16(out, text.len() as i16)?;
    put_bytes(out, text.as_bytes())?;
    Ok(())
}

impl Part for ClientId {
    ghost input = { inputs.client_id_input };

    #[tactic(auto, using(crate::proofs::Texts::client_put, crate::proofs::Texts::client_null))]
    fn put(alloc: Global, json: &Value, out: &mut Vec<u8>) -> Result<(), PartFault> {
        if json.is_null() {
            put_i16(out, -1)?;
            return Ok(());
        }
        put_short(out, json)
    }
}
