//! What the readers of primitives answer at the start of some bytes, in words: the value, what is written for it, and
//! how many bytes are left, or the fault.

ghost use Rattle.std.specs.Prelude.{◌≡◌, ◌<◌, ◌≤◌, ◌^◌, ◌++◌, drop, length, slice_range, IfOk, IfSome, IsUtf8, None, OnOk, string_bytes};
ghost use Rattle.std.specs.Fmt.{decimal};
ghost use Rattle.std.specs.Int.{w8, w16, w32, w64};
ghost use Rattle.hex.specs.Hex.{encode_lower};
ghost use Rattle.kr_batch.specs.Crc as crc;
ghost use Rattle.kr_wire.specs.Reading as reading;
ghost use Rattle.testlib_words.specs.PlainWords.{◌␣◌};
ghost use Rattle.testlib_codec_answers.specs.PrimitiveWords as words;
ghost use Rattle.testlib_codec_answers.specs.PrimitiveWords.{Tells, TellsLeft, TellsPrimitive};

use crate::records::wire_words;
use kr_batch::crc32c;
use kr_defs::Text;
use kr_wire::*;
use std::alloc::{AllocError, Global};
use testlib_words::{bool_word, halves, hex_text, join_by_space};

/// What is read at the start of some bytes.
#[derive(Clone, Copy, Drop)]
pub enum Primitive {
    /// A number of 32 bits, seven bits a byte.
    Uvarint,
    /// A signed number of 32 bits, zigzag, seven bits a byte.
    Varint,
    /// A signed number of 64 bits, zigzag, seven bits a byte.
    Varlong,
    /// A signed number of 8 bits.
    I8,
    /// A signed number of 16 bits.
    I16,
    /// A signed number of 32 bits.
    I32,
    /// A signed number of 64 bits.
    I64,
    /// A number of 16 bits.
    U16,
    /// A number of 32 bits.
    U32,
    /// A number of 64 bits.
    U64,
    /// A byte: 0 is false, any other one true.
    Bool,
    /// 16 bytes, told by their high and their low 64 bits.
    Id,
    /// A compact text.
    Text,
    /// A compact text, or null.
    TextOrNull,
    /// The number of a compact array's elements.
    Count,
    /// The same, or null.
    CountOrNull,
    /// A tag and the size of its data, behind the last tag.
    Tag { last: Option<u32> },
    /// Tagged fields, which are skipped.
    Tags,
    /// The checksum of the bytes.
    Crc32c,
}

// How many bytes are left from a place on.
fn bytes_left(bytes: &[u8], next: usize) -> usize
    requires { next ≤ length bytes.now }
    ensures { result ≡ length (drop next bytes.now) }
{
    let (_, behind) = bytes.split_at(next);
    behind.len()
}

// What is written, and how many bytes are left.
fn written_text(alloc: Global, written: &[u8], left: usize) -> Result<String, AllocError>
    ensures { IfOk result (λ text. string_bytes text ≡ (encode_lower written.now ␣ decimal left)) }
{
    let digits = hex::encode(alloc, written)?;
    format!(in alloc; "{digits} {left}")
}

// The value before that.
fn value_text(
    alloc: Global,
    value: String,
    written: Vec<u8>,
    left: usize,
) -> Result<String, AllocError>
    ensures { IfOk result (λ text. string_bytes text ≡ (string_bytes value ␣ (encode_lower
        written.items ␣ decimal left))) }
{
    let behind = written_text(alloc, &written, left)?;
    join_by_space(alloc, &value, &behind)
}

fn uvarint_answer(alloc: Global, bytes: &[u8]) -> Result<String, AllocError>
    ensures { IfOk result (λ text. Tells words.uvarint_words (string_bytes text)
        (reading.uvarint_at bytes.now)) }
{
    match read_uvarint(bytes, 0) {
        Ok((number, next)) => {
            let value = format!(in alloc; "{number}")?;
            let mut out = Vec::new(alloc);
            put_uvarint(&mut out, number)?;
            value_text(alloc, value, out, bytes_left(bytes, next))
        }
        Err(fault) => String::from_str(alloc, wire_words(fault)),
    }
}

fn varint_answer(alloc: Global, bytes: &[u8]) -> Result<String, AllocError>
    ensures { IfOk result (λ text. Tells words.varint_words (string_bytes text)
        (reading.varint32_at bytes.now)) }
{
    match read_varint(bytes, 0) {
        Ok((number, next)) => {
            let value = format!(in alloc; "{number}")?;
            let mut out = Vec::new(alloc);
            put_varint(&mut out, number)?;
            value_text(alloc, value, out, bytes_left(bytes, next))
        }
        Err(fault) => String::from_str(alloc, wire_words(fault)),
    }
}

fn varlong_answer(alloc: Global, bytes: &[u8]) -> Result<String, AllocError>
    ensures { IfOk result (λ text. Tells words.varlong_words (string_bytes text)
        (reading.varint64_at bytes.now)) }
{
    match read_varlong(bytes, 0) {
        Ok((number, next)) => {
            let value = format!(in alloc; "{number}")?;
            let mut out = Vec::new(alloc);
            put_varlong(&mut out, number)?;
            value_text(alloc, value, out, bytes_left(bytes, next))
        }
        Err(fault) => String::from_str(alloc, wire_words(fault)),
    }
}

fn u16_answer(alloc: Global, bytes: &[u8]) -> Result<String, AllocError>
    ensures { IfOk result (λ text. Tells (words.number_words w16) (string_bytes text)
        (reading.number_at w16 bytes.now)) }
{
    match read_u16(bytes, 0) {
        Ok((number, next)) => {
            let value = format!(in alloc; "{number}")?;
            let mut out = Vec::new(alloc);
            put_u16(&mut out, number)?;
            value_text(alloc, value, out, bytes_left(bytes, next))
        }
        Err(fault) => String::from_str(alloc, wire_words(fault)),
    }
}

fn u32_answer(alloc: Global, bytes: &[u8]) -> Result<String, AllocError>
    ensures { IfOk result (λ text. Tells (words.number_words w32) (string_bytes text)
        (reading.number_at w32 bytes.now)) }
{
    match read_u32(bytes, 0) {
        Ok((number, next)) => {
            let value = format!(in alloc; "{number}")?;
            let mut out = Vec::new(alloc);
            put_u32(&mut out, number)?;
            value_text(alloc, value, out, bytes_left(bytes, next))
        }
        Err(fault) => String::from_str(alloc, wire_words(fault)),
    }
}

fn u64_answer(alloc: Global, bytes: &[u8]) -> Result<String, AllocError>
    ensures { IfOk result (λ text. Tells (words.number_words w64) (string_bytes text)
        (reading.number_at w64 bytes.now)) }
{
    match read_u64(bytes, 0) {
        Ok((number, next)) => {
            let value = format!(in alloc; "{number}")?;
            let mut out = Vec::new(alloc);
            put_u64(&mut out, number)?;
            value_text(alloc, value, out, bytes_left(bytes, next))
        }
        Err(fault) => String::from_str(alloc, wire_words(fault)),
    }
}

fn i8_answer(alloc: Global, bytes: &[u8]) -> Result<String, AllocError>
    ensures { IfOk result (λ text. Tells (words.signed_words w8) (string_bytes text)
        (reading.signed_at w8 bytes.now)) }
{
    match read_i8(bytes, 0) {
        Ok((number, next)) => {
            let value = format!(in alloc; "{number}")?;
            let mut out = Vec::new(alloc);
            put_i8(&mut out, number)?;
            value_text(alloc, value, out, bytes_left(bytes, next))
        }
        Err(fault) => String::from_str(alloc, wire_words(fault)),
    }
}

fn i16_answer(alloc: Global, bytes: &[u8]) -> Result<String, AllocError>
    ensures { IfOk result (λ text. Tells (words.signed_words w16) (string_bytes text)
        (reading.signed_at w16 bytes.now)) }
{
    match read_i16(bytes, 0) {
        Ok((number, next)) => {
            let value = format!(in alloc; "{number}")?;
            let mut out = Vec::new(alloc);
            put_i16(&mut out, number)?;
            value_text(alloc, value, out, bytes_left(bytes, next))
        }
        Err(fault) => String::from_str(alloc, wire_words(fault)),
    }
}

fn i32_answer(alloc: Global, bytes: &[u8]) -> Result<String, AllocError>
    ensures { IfOk result (λ text. Tells (words.signed_words w32) (string_bytes text)
        (reading.signed_at w32 bytes.now)) }
{
    match read_i32(bytes, 0) {
        Ok((number, next)) => {
            let value = format!(in alloc; "{number}")?;
            let mut out = Vec::new(alloc);
            put_i32(&mut out, number)?;
            value_text(alloc, value, out, bytes_left(bytes, next))
        }
        Err(fault) => String::from_str(alloc, wire_words(fault)),
    }
}

fn i64_answer(alloc: Global, bytes: &[u8]) -> Result<String, AllocError>
    ensures { IfOk result (λ text. Tells (words.signed_words w64) (string_bytes text)
        (reading.signed_at w64 bytes.now)) }
{
    match read_i64(bytes, 0) {
        Ok((number, next)) => {
            let value = format!(in alloc; "{number}")?;
            let mut out = Vec::new(alloc);
            put_i64(&mut out, number)?;
            value_text(alloc, value, out, bytes_left(bytes, next))
        }
        Err(fault) => String::from_str(alloc, wire_words(fault)),
    }
}

fn count_answer(alloc: Global, bytes: &[u8]) -> Result<String, AllocError>
    requires { length bytes.now < 2 ^ 31 }
    ensures { IfOk result (λ text. Tells words.count_words (string_bytes text) (reading.count_at
        bytes.now)) }
{
    match read_count(bytes, 0) {
        Ok((number, next)) => {
            let value = format!(in alloc; "{number}")?;
            let mut out = Vec::new(alloc);
            put_count(&mut out, number)?;
            value_text(alloc, value, out, bytes_left(bytes, next))
        }
        Err(fault) => String::from_str(alloc, wire_words(fault)),
    }
}

fn bool_answer(alloc: Global, bytes: &[u8]) -> Result<String, AllocError>
    ensures { IfOk result (λ text. Tells words.bool_words (string_bytes text) (reading.bool_at
        bytes.now)) }
{
    match read_bool(bytes, 0) {
        Ok((value, next)) => {
            let word = String::from_str(alloc, bool_word(value))?;
            let mut out = Vec::new(alloc);
            put_bool(&mut out, value)?;
            value_text(alloc, word, out, bytes_left(bytes, next))
        }
        Err(fault) => String::from_str(alloc, wire_words(fault)),
    }
}

fn halves_text(alloc: Global, id: u128) -> Result<String, AllocError>
    ensures { IfOk result (λ text. string_bytes text ≡ words.halves id) }
{
    let (high, low) = halves(id);
    format!(in alloc; "{high} {low}")
}

fn id_answer(alloc: Global, bytes: &[u8]) -> Result<String, AllocError>
    ensures { IfOk result (λ text. Tells words.id_words (string_bytes text) (reading.id_at
        bytes.now)) }
{
    match read_id(bytes, 0) {
        Ok((id, next)) => {
            let value = halves_text(alloc, id)?;
            let mut out = Vec::new(alloc);
            put_id(&mut out, id)?;
            value_text(alloc, value, out, bytes_left(bytes, next))
        }
        Err(fault) => String::from_str(alloc, wire_words(fault)),
    }
}

// Writes the count of a list, or null.
fn put_count_or_null(out: &mut Vec<u8>, count: Option<u32>) -> Result<(), AllocError>
    requires { IfSome count (λ n. n < 2 ^ 31) }
    ensures ok { OnOk result (out.new.items ≡ out.old.items ++ words.count_or_null count) }
{
    match count {
        Some(count) => put_count(out, count),
        None => put_null(out),
    }
}

fn count_or_null_text(alloc: Global, count: Option<u32>) -> Result<String, AllocError>
    ensures { IfOk result (λ text. string_bytes text ≡ (words.count_or_null_words count).0) }
{
    match count {
        Some(count) => format!(in alloc; "{count}"),
        None => String::from_str(alloc, "null"),
    }
}

fn count_or_null_answer(alloc: Global, bytes: &[u8]) -> Result<String, AllocError>
    requires { length bytes.now < 2 ^ 31 }
    ensures { IfOk result (λ text. Tells words.count_or_null_words (string_bytes text)
        (reading.count_or_null_at bytes.now)) }
{
    match read_count_or_null(bytes, 0) {
        Ok((count, next)) => {
            let value = count_or_null_text(alloc, count)?;
            let mut out = Vec::new(alloc);
            put_count_or_null(&mut out, count)?;
            value_text(alloc, value, out, bytes_left(bytes, next))
        }
        Err(fault) => String::from_str(alloc, wire_words(fault)),
    }
}

// The text that stands at these places.
fn text_at(alloc: Global, bytes: &[u8], span: Span) -> Result<Text, AllocError>
    requires order { span.start ≤ span.end }
    requires within { span.end ≤ length bytes.now }
    requires utf8 { IsUtf8 (slice_range bytes.now span.start span.end) }
    requires short { length bytes.now < 2 ^ 31 }
    ensures text { IfOk result (λ text. text ≡ slice_range bytes.now span.start span.end) }
    ensures short { IfOk result (λ text. length text < 2 ^ 31) }
{
    Text::from_utf8(alloc, &bytes[span.start..span.end])
}

// The text that was read, what is written for it, and how many bytes are left.
fn read_text(alloc: Global, text: &Text, left: usize) -> Result<String, AllocError>
    requires { length text.now < 2 ^ 31 }
    ensures { IfOk result (λ said. string_bytes said ≡ ((words.text_words text.now).0 ␣
        (encode_lower (words.text_words text.now).1 ␣ decimal left))) }
{
    let value = hex_text(alloc, text.as_bytes())?;
    let mut out = Vec::new(alloc);
    put_str(&mut out, text.as_str())?;
    value_text(alloc, value, out, left)
}

fn str_answer(alloc: Global, bytes: &[u8]) -> Result<String, AllocError>
    requires { length bytes.now < 2 ^ 31 }
    ensures { IfOk result (λ text. Tells words.text_words (string_bytes text) (reading.text_at
        bytes.now)) }
{
    match read_str(bytes, 0) {
        Ok((span, next)) => {
            let text = text_at(alloc, bytes, span)?;
            read_text(alloc, &text, bytes_left(bytes, next))
        }
        Err(fault) => String::from_str(alloc, wire_words(fault)),
    }
}

// Null that was read, what is written for it, and how many bytes are left.
fn read_null(alloc: Global, left: usize) -> Result<String, AllocError>
    ensures { IfOk result (λ said. string_bytes said ≡ ((words.text_or_null_words None).0 ␣
        (encode_lower (words.text_or_null_words None).1 ␣ decimal left))) }
{
    let value = String::from_str(alloc, "null")?;
    let mut out = Vec::new(alloc);
    put_str_or_null(&mut out, None)?;
    value_text(alloc, value, out, left)
}

fn str_or_null_answer(alloc: Global, bytes: &[u8]) -> Result<String, AllocError>
    requires { length bytes.now < 2 ^ 31 }
    ensures { IfOk result (λ text. Tells words.text_or_null_words (string_bytes text)
        (reading.text_or_null_at bytes.now)) }
{
    match read_str_or_null(bytes, 0) {
        Ok((Some(span), next)) => {
            let text = text_at(alloc, bytes, span)?;
            read_text(alloc, &text, bytes_left(bytes, next))
        }
        Ok((None, next)) => read_null(alloc, bytes_left(bytes, next)),
        Err(fault) => String::from_str(alloc, wire_words(fault)),
    }
}

// The number and the size that were read, what is written for them, and how many bytes are left.
fn read_tag_text(alloc: Global, number: u32, size: u32, left: usize) -> Result<String, AllocError>
    ensures { IfOk result (λ said. string_bytes said ≡ ((words.tag_words (number, size)).0 ␣
        (encode_lower (words.tag_words (number, size)).1 ␣ decimal left))) }
{
    let value = format!(in alloc; "{number} {size}")?;
    let mut out = Vec::new(alloc);
    put_tag(&mut out, number, size)?;
    value_text(alloc, value, out, left)
}

fn tag_answer(alloc: Global, bytes: &[u8], last: Option<u32>) -> Result<String, AllocError>
    requires { length bytes.now < 2 ^ 31 }
    ensures { IfOk result (λ text. Tells words.tag_words (string_bytes text) (reading.tag_at last
        bytes.now)) }
{
    match read_tag(bytes, 0, last) {
        Ok((tag, next)) => {
            let size = (tag.end - next) as u32;
            read_tag_text(alloc, tag.number, size, bytes_left(bytes, next))
        }
        Err(fault) => String::from_str(alloc, wire_words(fault)),
    }
}

fn tags_answer(alloc: Global, bytes: &[u8]) -> Result<String, AllocError>
    ensures { IfOk result (λ text. TellsLeft (string_bytes text) (reading.tags_at
        reading.none_known tt bytes.now)) }
{
    match skip_tags(bytes, 0) {
        Ok(next) => {
            let left = bytes_left(bytes, next);
            format!(in alloc; "{left}")
        }
        Err(fault) => String::from_str(alloc, wire_words(fault)),
    }
}

fn sum_answer(alloc: Global, bytes: &[u8]) -> Result<String, AllocError>
    ensures { IfOk result (λ text. string_bytes text ≡ decimal (crc.crc32c bytes.now)) }
{
    let sum = crc32c(bytes);
    format!(in alloc; "{sum}")
}

/// The answer of this primitive's reader, or the checksum of the bytes.
pub fn primitive_answer(
    alloc: Global,
    primitive: Primitive,
    bytes: &[u8],
) -> Result<String, AllocError>
    requires { length bytes.now < 2 ^ 31 }
    ensures { IfOk result (λ text. TellsPrimitive primitive bytes.now (string_bytes text)) }
{
    match primitive {
        Primitive::Uvarint => uvarint_answer(alloc, bytes),
        Primitive::Varint => varint_answer(alloc, bytes),
        Primitive::Varlong => varlong_answer(alloc, bytes),
        Primitive::I8 => i8_answer(alloc, bytes),
        Primitive::I16 => i16_answer(alloc, bytes),
        Primitive::I32 => i32_answer(alloc, bytes),
        Primitive::I64 => i64_answer(alloc, bytes),
        Primitive::U16 => u16_answer(alloc, bytes),
        Primitive::U32 => u32_answer(alloc, bytes),
        Primitive::U64 => u64_answer(alloc, bytes),
        Primitive::Bool => bool_answer(alloc, bytes),
        Primitive::Id => id_answer(alloc, bytes),
        Primitive::Text => str_answer(alloc, bytes),
        Primitive::TextOrNull => str_or_null_answer(alloc, bytes),
        Primitive::Count => count_answer(alloc, bytes),
        Primitive::CountOrNull => count_or_null_answer(alloc, bytes),
        Primitive::Tag { last } => tag_answer(alloc, bytes, last),
        Primitive::Tags => tags_answer(alloc, bytes),
        Primitive::Crc32c => sum_answer(alloc, bytes),
    }
}
