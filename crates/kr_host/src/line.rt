//! What goes out to the quorum.

use kr_base::{NoMemory, WriteSink};
use kr_calls::Output;
use kr_defs::Bytes;
use kr_stream::{WriteFault, write_frame};
use std::alloc::Global;
use std::net::TcpStream;
use std::sync::{Arc, Mutex, Wait};

/// The bytes of a frame's body, of its own.
pub(crate) fn copy_of(alloc: Global, bytes: &[u8]) -> Result<Bytes, NoMemory> {
    Ok(Bytes::from_vec(bytes.to_vec(alloc)?))
}

/// The line to the quorum at the other end of the link, for any number of threads. Each frame goes out whole, under one lock.
#[derive(Drop)]
pub(crate) struct Line {
    alloc: Global,
    sink: Arc<Mutex<WriteSink<TcpStream>>, Global>,
}

impl Line {
    /// The line of this stream.
    pub(crate) fn new(alloc: Global, stream: TcpStream) -> Result<Line, NoMemory> {
        Ok(Line {
            alloc,
            sink: Arc::new(alloc, Mutex::new(WriteSink::new(stream)))?,
        })
    }

    /// The same line, for another thread.
    pub(crate) fn again(&self) -> Result<Line, NoMemory> {
        Ok(Line {
            alloc: self.alloc,
            sink: Arc::try_clone(&self.sink)?,
        })
    }

    /// Sends one frame.
    pub(crate) fn put<R: Wait>(&self, rt: &R, output: &Output) -> Result<(), WriteFault> {
        let mut sink = self.sink.lock(rt);
        write_frame(self.alloc, output, &mut *sink)
    }
}
