//! Sessions of the controller: frames in, outputs out, from any source to any sink.
#![tactic(auto)]

mod ahead;
mod outputs;
mod sessions;
mod stream_source;

pub use sessions::session;
pub use stream_source::StreamSource;
