//! A client's talk over a stream, and the ends of the threads that serve it.

use kr_host::Door;
use std::alloc::Global;
use std::io;
use std::io::{Read, Write};
use std::net::{Net, SocketAddr, TcpStream};
use std::thread::{JoinHandle, Threads};

/// IncrementalAlterConfigs of the least number of replicas in sync, to this digit, behind its size.
pub(crate) fn write_to(digit: u8) -> [u8; 47] {
    let mut message =
        *b"\x00\x00\x00\x2b\x00\x2c\x00\x01\x00\x00\x00\x07\x00\x01\x61\x00\x02\x04\x01\x02\x14min.insync.replicas\x00\x02\x32\x00\x00\x00\x00";
    message[42] = digit;
    message
}

/// Its reply, behind its size.
pub(crate) const WRITTEN: [u8; 21] =
    *b"\x00\x00\x00\x11\x00\x00\x00\x07\x00\x00\x00\x00\x00\x02\x00\x00\x00\x04\x01\x00\x00";

/// A message of a key that isn't served, and its reply.
pub(crate) const UNSERVED: [u8; 15] =
    *b"\x00\x00\x00\x0b\x00\x12\x00\x03\x00\x00\x00\x01\xff\xff\x00";

pub(crate) const BARE: [u8; 11] = *b"\x00\x00\x00\x07\x00\x00\x00\x01\x00\x00\x23";

/// Whether a reply to a write says that the controller isn't the leader.
pub(crate) fn is_on_standby(reply: &[u8; 21]) -> bool {
    reply[14] == 0 && reply[15] == 41
}

/// The reply to a write.
pub(crate) fn ask_write(mut stream: &TcpStream, message: &[u8; 47]) -> io::Result<[u8; 21]> {
    let mut reply = [0; 21];
    stream.write_all(message)?;
    stream.read_exact(&mut reply)?;
    Ok(reply)
}

/// The reply to a message that isn't served.
pub(crate) fn ask_unserved(mut stream: &TcpStream) -> io::Result<[u8; 11]> {
    let mut reply = [0; 11];
    stream.write_all(&UNSERVED)?;
    stream.read_exact(&mut reply)?;
    Ok(reply)
}

/// Ends the threads that serve clients at this address: each gets one connection more, and the door is closed.
pub(crate) fn end_all<R: Net<Stream = TcpStream> + Threads>(
    rt: &R,
    address: SocketAddr,
    door: &Door,
    threads: Vec<JoinHandle<()>>,
) {
    door.close();
    for _ in 0..threads.len() {
        let _ = TcpStream::connect(rt, address);
    }
    for thread in threads {
        thread.join(rt);
    }
}
