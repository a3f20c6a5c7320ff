//! Records of a metadata log as Kafka's tools show them: batches or an image from standard input, a line of JSON for each
//! record to standard output.
#![tactic(auto)]

use kr_base::{ReadSource, WriteSink};
use kr_lines::{refuse, run};
use kr_process::{Status, words_of};

fn main(rt: HostRuntime) -> Status {
    let mut notes = WriteSink::new(rt.stderr());
    let words = match words_of(&rt) {
        Ok(words) => words,
        Err(fault) => return refuse(fault, &mut notes),
    };
    let mut input = ReadSource::new(rt.stdin());
    let mut output = WriteSink::new(rt.stdout());
    run(rt.alloc(), &words, &mut input, &mut output, &mut notes)
}
