//! The primitives of Kafka's wire format, each equal to a grammar.
//!
//! Reading starts at a place of some bytes, takes no memory, and answers the value with the place
//! behind it, or the first fault. Writing appends to a vector, or leaves it as it was.
#![tactic(auto)]

mod few_bytes;
pub mod laws;
mod reading;
mod writing;

pub use few_bytes::FewBytes;
pub use reading::{
    Span, Tag, piece, read_bool, read_count, read_count_or_null, read_i8, read_i16, read_i32,
    read_i64, read_id, read_str, read_str_or_null, read_tag, read_text, read_text_or_null,
    read_u16, read_u32, read_u64, read_utf8, read_uvarint, read_varint, read_varlong, skip_tags,
};
pub use writing::{
    put_bool, put_both, put_bytes, put_count, put_i8, put_i16, put_i32, put_i64, put_id, put_null,
    put_str, put_str_or_null, put_tag, put_u16, put_u32, put_u64, put_uvarint, put_varint,
    put_varlong,
};

/// Why bytes stand for nothing: the first fault that reading meets.
#[derive(Clone, Copy, Debug, Drop, PartialEq, Eq, thiserror::Error)]
pub enum WireFault {
    /// The bytes end before the value does, or fewer are left than a length or a count says.
    #[error("the bytes end too early")]
    Short,
    /// A number in groups of seven bits has a last group of 0 that isn't its only one.
    #[error("a number is longer than it need be")]
    Overlong,
    /// A number in groups of seven bits doesn't fit its type.
    #[error("a number is too big")]
    TooBig,
    /// A tag isn't above the one before it, or the data of a known tag aren't all of its field.
    #[error("a tagged field is out of order or of the wrong size")]
    BadTag,
    /// A text isn't UTF-8.
    #[error("a text isn't UTF-8")]
    BadText,
    /// A null stands where none is allowed.
    #[error("a null stands where none is allowed")]
    BadNull,
}
