//! Why a row has no answer.

use kr_base::NoMemory;
use std::alloc::AllocError;

/// Why a row has no answer.
#[derive(Clone, Copy, Drop)]
pub enum RowFault {
    /// The row doesn't have the fields of its kind, or asks for what the call's conditions exclude.
    Fields,
    /// There was no memory.
    NoMemory,
}

impl From<AllocError> for RowFault {
    fn from(_refused: AllocError) -> RowFault {
        RowFault::NoMemory
    }
}

impl From<NoMemory> for RowFault {
    fn from(_refused: NoMemory) -> RowFault {
        RowFault::NoMemory
    }
}
