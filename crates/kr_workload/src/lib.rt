//! A large session that is drawn from a number: the controller is led through it, and what came of it is summed up.
#![tactic(auto)]

mod chances;
mod host;
mod making;
mod opening;
mod replies;
mod requests;
mod rounds;
mod summary;
mod taking;
mod tally;

pub use chances::{drawn_below, next_drawn};
pub use host::options;
pub use making::make;
pub use requests::note;
pub use summary::{Summary, summary_text};
