//! Why a message isn't shown.

ghost use Rattle.std.specs.Prelude.{◌≡◌};

use thiserror::Error;

/// Why a message isn't shown.
#[derive(Clone, Copy, Debug, Drop, PartialEq, Eq, Error)]
pub enum MessageFault {
    /// The bytes stand for no message of its kind.
    #[error("the bytes stand for no message of its kind")]
    BadMessage,
    #[error("out of memory")]
    NoMemory,
}
