//! The session call as a pipe: frames from standard input, output frames to standard output, and the status as the number
//! with which the process ends. It takes no words and writes no notes.
#![tactic(auto)]

use kr_base::{ReadSource, WriteSink};
use kr_process::Status;
use kr_session_loop::{StreamSource, session};

fn main(rt: HostRuntime) -> Status {
    let mut input = match StreamSource::new(rt.alloc(), ReadSource::new(rt.stdin()), true) {
        Ok(input) => input,
        Err(_) => return Status::NoMemory,
    };
    let mut output = WriteSink::new(rt.stdout());
    session(rt.alloc(), &mut input, &mut output)
}
