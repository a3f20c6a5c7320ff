//! Questions are answered: frames from any source, the crates' own calls, frames to any sink.
#![tactic(auto)]

mod answers;
mod contents;
mod elections;
mod held;
mod images;
mod kind;
pub mod limits;
mod lines;
mod logs;
mod looping;
mod placements;
mod questions;
mod refusal;
mod replies;
mod requests;

pub use kind::QuestionKind;
use kr_defs::Bytes;
pub use looping::answer_all;
pub use refusal::DoorRefusal;

/// What is answered to a question: bytes, or why there are none.
type Answer = Result<Bytes, DoorRefusal>;

/// Marks the layouts of this crate: `Get` and `Put` are the layout crate's traits.
#[derive(Drop)]
struct Mine;
