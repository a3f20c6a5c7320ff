//! A client's connection: messages behind their sizes in, replies behind theirs out, exchanges told.
#![tactic(auto)]

mod calls;
mod describing;
mod end;
mod exchange;
pub mod laws;
mod message;
mod paging;
mod reply;
mod serving;
mod transcript;

pub use end::ServeEnd;
pub use exchange::Exchange;
pub use serving::serve_client;
pub use transcript::{MemoryTranscript, NoTranscript, Transcript};
