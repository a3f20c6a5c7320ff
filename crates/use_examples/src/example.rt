//! The examples by their words.

use crate::host::print_host;
use crate::image::print_image;
use crate::moves::print_moves;
use crate::plan::print_plan;
use crate::records::print_batch;
use crate::turns::print_turns;
use std::io::Print;
use std::sync::Wait;

/// What a caller does.
#[derive(Clone, Copy, Debug, PartialEq, Eq)]
pub(crate) enum Example {
    /// A host steps the controller.
    Host,
    /// A host turns a worker.
    Turns,
    /// A planner asks the rules.
    Plan,
    /// A planner asks how much a round of the balancer would move.
    Moves,
    /// The author of a tool reads a record batch.
    Inspect,
    /// The author of a tool reads an image.
    Show,
}

impl Example {
    /// It reads bytes.
    pub(crate) fn reads(self) -> bool {
        match self {
            Example::Host | Example::Turns | Example::Plan => false,
            Example::Moves | Example::Inspect | Example::Show => true,
        }
    }
}

/// The example of this word.
pub(crate) fn example_of(word: &str) -> Option<Example> {
    match word {
        "host" => Some(Example::Host),
        "turns" => Some(Example::Turns),
        "plan" => Some(Example::Plan),
        "moves" => Some(Example::Moves),
        "inspect" => Some(Example::Inspect),
        "show" => Some(Example::Show),
        _ => None,
    }
}

/// Does the example with these bytes, and prints what comes of it. An error tells the one fault of the bytes.
pub(crate) fn print_example<R: Print + Wait + AllocGlobal>(
    rt: &R,
    example: Example,
    bytes: &[u8],
) -> anyhow::Result<()> {
    match example {
        Example::Host => print_host(rt),
        Example::Turns => print_turns(rt),
        Example::Plan => print_plan(rt),
        Example::Moves => print_moves(rt, bytes),
        Example::Inspect => print_batch(rt, bytes),
        Example::Show => print_image(rt, bytes),
    }
}
