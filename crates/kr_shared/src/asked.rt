//! What clients asked and waits for its answer.

use kr_calls::Call;
use kr_defs::Basis;

/// A client's write, until it is answered.
#[derive(Drop)]
pub struct Asked {
    /// The client's number, from 1.
    pub seat: u32,
    /// The number of the call among those of the client.
    pub ticket: u64,
    /// The place in the log up to which the client had seen it.
    pub floor: i64,
    /// What is asked.
    pub call: Call,
    /// What decisions rest on besides the image, when it comes.
    pub basis: Basis,
}
