//! A daemon whose quorum is of this process alone, over loopback.

use crate::talking::{BARE, WRITTEN, ask_unserved, ask_write, end_all, write_to};
use kr_base::NoMemory;
use kr_defs::Text;
use kr_host::{
    Door, Ended, EventSeat, lead_alone, open_seats, options_of, spawn_clients, turn_alone,
};
use kr_local::LocalQuorum;
use kr_shared::{ClientSeat, WorkerSeat};
use std::alloc::Global;
use std::io::Eprint;
use std::net::{Net, SocketAddr, TcpListener, TcpStream};
use std::sync::{Arc, Wait};
use std::test::Fail;
use std::thread::{JoinHandle, Threads};
use std::{io, thread, time};

fn is_served<R: Net<Stream = TcpStream>>(rt: &R, address: SocketAddr) -> io::Result<bool> {
    let stream = TcpStream::connect(rt, address)?;
    let written = ask_write(&stream, &write_to(b'2'))? == WRITTEN;
    let bare = ask_unserved(&stream)? == BARE;
    let again = ask_write(&stream, &write_to(b'3'))? == WRITTEN;
    Ok(written && bare && again)
}

// A client's part: it asks, and then stops the daemon.
fn ask_and_stop<R: Net<Stream = TcpStream> + Wait + time::Clock>(
    rt: &R,
    address: SocketAddr,
    door: &Door,
) -> bool {
    let served = is_served(rt, address).unwrap_or(false);
    door.stop(rt);
    served
}

type Doors = (Arc<Door, Global>, Arc<Door, Global>);

// The door, twice.
fn doors(alloc: Global, listener: TcpListener, seat: EventSeat) -> Result<Doors, NoMemory> {
    let door = Arc::new(alloc, Door::new(listener, seat))?;
    let theirs = Arc::try_clone(&door)?;
    Ok((door, theirs))
}

// The daemon's part, until the client has stopped it; then all threads are ended.
fn serve<R>(
    rt: R,
    alloc: Global,
    address: SocketAddr,
    door: &Arc<Door, Global>,
    worker: &mut WorkerSeat,
    seats: Vec<ClientSeat>,
    client: JoinHandle<bool>,
) -> Result<bool, NoMemory>
where
    R: Net<Stream = TcpStream> + Threads + Wait + Eprint + time::Clock + Send + Copy + 'static,
{
    let mut quorum = LocalQuorum::new(alloc, Vec::new(alloc), Vec::new(alloc))?;
    let threads = spawn_clients(rt, alloc, door, seats)?;
    let ended = turn_alone(&rt, worker, &mut quorum, door);
    let served = client.join(&rt);
    end_all(&rt, address, door, threads);
    Ok(served && ended == Ended::Done)
}

#[test]
fn a_client_is_served(rt: HostRuntime) -> Result<(), Fail> {
    let alloc = rt.alloc();
    let listener = TcpListener::bind(&rt, "127.0.0.1:0")?;
    let address = listener.local_addr()?;
    let options = options_of(1, Text::from_str(alloc, "c1")?, 7);
    let (mut worker, link, seats) = open_seats(&rt, alloc, options, 2).ok().ok_or("seats")?;
    let seat = lead_alone(&rt, alloc, link);
    let served = match doors(alloc, listener, seat) {
        Err(fault) => Err(fault),
        Ok((door, theirs)) => {
            match thread::spawn(&rt, move || ask_and_stop(&rt, address, &theirs)) {
                Err(_) => Err(NoMemory),
                Ok(client) => serve(rt, alloc, address, &door, &mut worker, seats, client),
            }
        }
    };
    worker.close(&rt);
    assert!(rt; served?);
    Ok(())
}
