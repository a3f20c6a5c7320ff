//! The threads of the clients' seats.

ghost use Rattle.std.specs.Prelude.{◌<◌, length};
ghost use Rattle.kr_shared.specs.declared.places.TheConstants.{MOST_PLACES};

use crate::client_stream::{ClientSink, ClientSource};
use crate::door::Door;
use crate::events::rest;
use crate::watch::{Watch, spawn_watch};
use kr_base::{NoMemory, ReadSource, WriteSink};
use kr_server::{NoTranscript, ServeEnd, serve_client};
use kr_shared::{ClientSeat, MOST_PLACES};
use std::alloc::Global;
use std::io::{BufReader, Eprint};
use std::net::TcpStream;
use std::sync::{Arc, Wait};
use std::thread::{JoinHandle, Threads};
use std::{thread, time};

// Serves a connection until it ends.
fn serve<R: Wait + Copy>(
    rt: &R,
    alloc: Global,
    seat: &mut ClientSeat,
    watch: &Watch,
    stream: TcpStream,
) -> Result<ServeEnd, NoMemory>
    requires { length seat.old.held < MOST_PLACES }
{
    // A reply is one put, so it needn't wait for more.
    let _ = stream.set_nodelay(true);
    let stream = Arc::new(alloc, stream)?;
    watch.begin(rt, Arc::try_clone(&stream)?);
    let end = serve_stream(rt, alloc, seat, watch, &stream);
    watch.end(rt);
    end
}

fn serve_stream<R: Wait + Copy>(
    rt: &R,
    alloc: Global,
    seat: &mut ClientSeat,
    watch: &Watch,
    stream: &TcpStream,
) -> Result<ServeEnd, NoMemory>
    requires { length seat.old.held < MOST_PLACES }
{
    // A message's size and body come by one read.
    let Ok(reader) = BufReader::new(alloc, stream) else {
        return Err(NoMemory);
    };
    let mut source = ClientSource::new(*rt, watch, ReadSource::new(reader));
    let mut sink = ClientSink::new(*rt, watch, WriteSink::new(stream));
    Ok(serve_client(rt, alloc, seat, &mut source, &mut sink, &mut NoTranscript))
}

/// Accepts one connection after the other and serves it at the seat, until the worker is stopped; none more where the seat holds as
/// many places as it may, so that none is left for pages.
fn accept_all<R: Wait + Eprint + time::Clock + Copy>(
    rt: &R,
    alloc: Global,
    mut seat: ClientSeat,
    watch: &Watch,
    door: &Door,
) {
    for _ in rt.forever() {
        if seat.pins() >= MOST_PLACES {
            return;
        }
        let Ok((stream, _)) = door.listener.accept() else {
            rest(rt);
            continue;
        };
        if door.is_closed() {
            return;
        }
        match serve(rt, alloc, &mut seat, watch, stream) {
            Ok(ServeEnd::Ended { .. }) => return,
            Ok(ServeEnd::NoMemory) | Err(NoMemory) => {
                let _ = eprintln!(rt; "kr_daemon: a connection ended: out of memory");
            }
            Ok(_) => {}
        }
    }
}

/// A thread for each seat, which serves one connection after the other, until the worker is stopped, and one that ends the
/// connections that are waited for too long.
pub fn spawn_clients<R: Threads + Wait + Eprint + time::Clock + Send + Copy + 'static>(
    rt: R,
    alloc: Global,
    door: &Arc<Door, Global>,
    seats: Vec<ClientSeat>,
) -> Result<Vec<JoinHandle<()>>, NoMemory> {
    let mut threads = Vec::new(alloc);
    let mut watches = Vec::new(alloc);
    for seat in seats {
        let watch = Arc::new(alloc, Watch::new())?;
        watches.push(Arc::try_clone(&watch)?)?;
        threads.push(spawn_client(rt, alloc, door, seat, watch)?)?;
    }
    threads.push(spawn_watch(rt, watches, door)?)?;
    Ok(threads)
}

// The thread of a seat.
fn spawn_client<R: Threads + Wait + Eprint + time::Clock + Send + Copy + 'static>(
    rt: R,
    alloc: Global,
    door: &Arc<Door, Global>,
    seat: ClientSeat,
    watch: Arc<Watch, Global>,
) -> Result<JoinHandle<()>, NoMemory> {
    let door = Arc::try_clone(door)?;
    match thread::spawn(&rt, move || accept_all(&rt, alloc, seat, &watch, &door)) {
        Ok(thread) => Ok(thread),
        Err(_) => Err(NoMemory),
    }
}
