//! The greatest sizes.

/// The most bytes of a question's kind and body.
pub const MOST_QUESTION_BYTES: usize = 268_435_456;
