//! The crates' own calls for other languages: questions in frames from standard input, a frame with the answer of each to
//! standard output. It takes no words.
#![tactic(auto)]

use kr_base::{ReadSource, WriteSink};
use kr_door_loop::answer_all;
use kr_process::Status;

fn main(rt: HostRuntime) -> Status {
    let mut input = ReadSource::new(rt.stdin());
    let mut output = WriteSink::new(rt.stdout());
    answer_all(rt.alloc(), &mut input, &mut output)
}
