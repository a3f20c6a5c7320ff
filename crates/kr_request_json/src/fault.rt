//! Why there is no message.

ghost use Rattle.std.specs.Prelude.{◌≡◌};
ghost use Rattle.kr_request_json.specs.declared.fault.PartFault.TheVariants as parts;

use std::alloc::AllocError;
use thiserror::Error;

/// Why a text gives no message of a request.
#[derive(Clone, Copy, Debug, Drop, PartialEq, Eq, Error)]
pub enum RequestFault {
    /// The text is no JSON in UTF-8.
    #[error("no JSON")]
    NotJson,
    /// No request of its key and version is known.
    #[error("no request of this key and version is known")]
    UnknownRequest,
    /// A field is absent, or its JSON stands for no value of its type.
    #[error("a field is absent or has no value of its type")]
    BadField,
    #[error("out of memory")]
    NoMemory,
}

/// Why a part of a message isn't written.
#[derive(Clone, Copy, Debug, Drop, PartialEq, Eq)]
pub(crate) enum PartFault {
    BadField,
    NoMemory,
}

impl From<AllocError> for PartFault {
    ghost from_gives = { λ _ fault. fault ≡ parts.NoMemory };

    fn from(_refused: AllocError) -> PartFault {
        PartFault::NoMemory
    }
}
