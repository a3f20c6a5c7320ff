//! Rows on readers and writers of bytes, and on sessions, folds, dumps and balances.

use crate::balances::balance_answer;
use crate::batches::batch_answer;
use crate::folds::{dump_answer, fold_answer};
use crate::images::{Unanswered, image_answer};
use crate::messages::message_answer;
use crate::primitives::{Primitive, primitive_answer};
use crate::records::record_answer;
use crate::sessions::session_answer;
use std::alloc::{AllocError, Global};
use testlib_words::{Fields, RowFault};

/// A reader and bytes, for `tag` the last tag behind them, `.` for none: the value, what is written for it, and how many bytes are left.
pub fn primitive_row(alloc: Global, fields: &mut Fields) -> Result<String, RowFault> {
    let reader = fields.word()?;
    let bytes = fields.bytes(alloc)?;
    let primitive = primitive_of(reader, fields)?;
    if bytes.len() >= 1 << 31 {
        return Err(RowFault::Fields);
    }
    Ok(primitive_answer(alloc, primitive, &bytes)?)
}

fn primitive_of(reader: &str, fields: &mut Fields) -> Result<Primitive, RowFault> {
    match reader {
        "tag" => Ok(Primitive::Tag {
            last: fields.number_or_none()?,
        }),
        _ => number_of(reader)
            .or(other_of(reader))
            .ok_or(RowFault::Fields),
    }
}

fn number_of(reader: &str) -> Option<Primitive> {
    match reader {
        "uvarint" => Some(Primitive::Uvarint),
        "varint" => Some(Primitive::Varint),
        "varlong" => Some(Primitive::Varlong),
        "i8" => Some(Primitive::I8),
        "i16" => Some(Primitive::I16),
        "i32" => Some(Primitive::I32),
        "i64" => Some(Primitive::I64),
        "u16" => Some(Primitive::U16),
        "u32" => Some(Primitive::U32),
        "u64" => Some(Primitive::U64),
        _ => None,
    }
}

fn other_of(reader: &str) -> Option<Primitive> {
    match reader {
        "bool" => Some(Primitive::Bool),
        "id" => Some(Primitive::Id),
        "str" => Some(Primitive::Text),
        "str?" => Some(Primitive::TextOrNull),
        "count" => Some(Primitive::Count),
        "count?" => Some(Primitive::CountOrNull),
        "tags" => Some(Primitive::Tags),
        "crc32c" => Some(Primitive::Crc32c),
        _ => None,
    }
}

/// A record: its bytes as they are written.
pub fn record_row(alloc: Global, fields: &mut Fields) -> Result<String, RowFault> {
    let bytes = fields.bytes(alloc)?;
    Ok(record_answer(alloc, &bytes)?)
}

/// A batch: its head, and its bytes as they are written.
pub fn batch_row(alloc: Global, fields: &mut Fields) -> Result<String, RowFault> {
    let bytes = fields.bytes(alloc)?;
    Ok(batch_answer(alloc, &bytes)?)
}

/// What comes in over a session: what is written, and how it ends.
pub fn session_row(alloc: Global, fields: &mut Fields) -> Result<String, RowFault> {
    let bytes = fields.bytes(alloc)?;
    Ok(session_answer(alloc, bytes)?)
}

/// A message: the reply that refuses it.
pub fn message_row(alloc: Global, fields: &mut Fields) -> Result<String, RowFault> {
    let bytes = fields.bytes(alloc)?;
    Ok(message_answer(alloc, &bytes)?)
}

/// An image: its bytes as they are written.
pub fn image_row(alloc: Global, fields: &mut Fields) -> Result<String, RowFault> {
    let bytes = fields.bytes(alloc)?;
    match image_answer(alloc, &bytes) {
        Ok(answer) => Ok(answer),
        Err(Unanswered::Differs { most }) => Ok(differing_text(alloc, most)?),
        Err(Unanswered::NoMemory) => Err(RowFault::NoMemory),
    }
}

// This is no row's answer.
fn differing_text(alloc: Global, most: usize) -> Result<String, AllocError> {
    format!(in alloc; "another answer in pieces of {most} bytes")
}

/// A log: its image.
pub fn fold_row(alloc: Global, fields: &mut Fields) -> Result<String, RowFault> {
    let bytes = fields.bytes(alloc)?;
    Ok(fold_answer(alloc, bytes)?)
}

/// An image: its lines.
pub fn dump_row(alloc: Global, fields: &mut Fields) -> Result<String, RowFault> {
    let bytes = fields.bytes(alloc)?;
    dump_answer(alloc, bytes)
}

/// A percentage and an image: what is asked for the balance of its leaders.
pub fn balance_row(alloc: Global, fields: &mut Fields) -> Result<String, RowFault> {
    let percent = fields.number()?;
    let bytes = fields.bytes(alloc)?;
    Ok(balance_answer(alloc, percent, bytes)?)
}
