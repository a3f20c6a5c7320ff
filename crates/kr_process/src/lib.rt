//! What a program's process is given and ends with: the words of its command line, and its status.
#![tactic(auto)]

mod status;
mod words;

pub use status::Status;
pub use words::{WordsFault, words_of};
