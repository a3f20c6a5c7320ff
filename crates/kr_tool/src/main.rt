//! The tool: a session of the controller, a log folded to its image, an image's text, or an image with balanced leaders,
//! from standard input to standard output; or what comes of the session of a number.
#![tactic(auto)]

use kr_base::{ReadSource, WriteSink};
use kr_process::{WordsFault, words_of};
use kr_session_loop::StreamSource;
use kr_words::{refuse, serves_session};
pub use kr_words::{Status, run};

fn main(rt: HostRuntime) -> Status {
    let mut notes = WriteSink::new(rt.stderr());
    let words = match words_of(&rt) {
        Ok(words) => words,
        Err(fault) => return refuse(rt.alloc(), fault, &mut notes),
    };
    let frames = serves_session(&words);
    let mut input = match StreamSource::new(rt.alloc(), ReadSource::new(rt.stdin()), frames) {
        Ok(input) => input,
        Err(_) => return refuse(rt.alloc(), WordsFault::NoMemory, &mut notes),
    };
    let mut output = WriteSink::new(rt.stdout());
    run(rt.alloc(), &words, &mut input, &mut output, &mut notes)
}
