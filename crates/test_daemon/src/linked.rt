//! A daemon whose quorum is a thread at the other end of the link, and three clients at once.

use crate::quorum::{CLIENTS, be_quorum};
use crate::talking::{BARE, WRITTEN, ask_unserved, ask_write, end_all, is_on_standby, write_to};
use kr_base::NoMemory;
use kr_defs::Text;
use kr_host::{
    Door, Ended, EventSeat, LinkImages, LinkQuorum, open_seats, options_of, spawn_clients,
    spawn_images, spawn_link, spawn_ticks, turn_linked,
};
use kr_shared::{ClientSeat, LinkSeat, WorkerSeat};
use std::alloc::Global;
use std::io::Eprint;
use std::net::{Net, SocketAddr, TcpListener, TcpStream};
use std::sync::{Arc, Wait};
use std::test::Fail;
use std::thread::{JoinHandle, Threads};
use std::{io, thread, time};

// Writes until the controller leads.
fn write_once(stream: &TcpStream, digit: u8) -> io::Result<[u8; 21]> {
    let message = write_to(digit);
    for _ in 0..100_000u64 {
        let reply = ask_write(stream, &message)?;
        if !is_on_standby(&reply) {
            return Ok(reply);
        }
        thread::yield_now();
    }
    Ok([0; 21])
}

fn is_served<R: Net<Stream = TcpStream>>(
    rt: &R,
    address: SocketAddr,
    digit: u8,
) -> io::Result<bool> {
    let stream = TcpStream::connect(rt, address)?;
    let written = write_once(&stream, digit)? == WRITTEN;
    let bare = ask_unserved(&stream)? == BARE;
    Ok(written && bare)
}

// The threads beside the worker and the clients'.
#[derive(Drop)]
struct Beside {
    reading: JoinHandle<()>,
    imaging: JoinHandle<()>,
    ticking: JoinHandle<()>,
}

fn spawn_beside<R: Threads + Wait + Eprint + time::Clock + Send + Copy + 'static>(
    rt: R,
    alloc: Global,
    back: TcpStream,
    door: &Arc<Door, Global>,
    images: LinkImages,
) -> Result<Beside, NoMemory> {
    let reading = spawn_link(rt, alloc, back, door, &images)?;
    let imaging = spawn_images(rt, images)?;
    let ticking = spawn_ticks(rt, door)?;
    Ok(Beside {
        reading,
        imaging,
        ticking,
    })
}

// All threads are ended. True where each client was served.
fn end<R: Net<Stream = TcpStream> + Threads>(
    rt: &R,
    address: SocketAddr,
    door: &Door,
    clients: Vec<JoinHandle<()>>,
    beside: Beside,
    askers: Vec<JoinHandle<bool>>,
) -> bool {
    let Beside {
        reading,
        imaging,
        ticking,
    } = beside;
    reading.join(rt);
    imaging.join(rt);
    let mut served = true;
    for asker in askers {
        served = asker.join(rt) && served;
    }
    end_all(rt, address, door, clients);
    ticking.join(rt);
    served
}

// The daemon's part, until the link ends; then all threads are ended.
fn serve<R>(
    rt: R,
    alloc: Global,
    address: SocketAddr,
    door: &Arc<Door, Global>,
    quorum: &mut LinkQuorum<R>,
    back: TcpStream,
    worker: &mut WorkerSeat,
    mut seats: Vec<ClientSeat>,
    askers: Vec<JoinHandle<bool>>,
) -> Result<bool, NoMemory>
where
    R: Net<Stream = TcpStream> + Threads + Wait + Eprint + time::Clock + Send + Copy + 'static,
{
    let Some(seat) = seats.pop() else {
        return Ok(false);
    };
    let images = quorum.images(seat)?;
    let clients = spawn_clients(rt, alloc, door, seats)?;
    let beside = spawn_beside(rt, alloc, back, door, images)?;
    let ended = turn_linked(&rt, worker, quorum, door);
    let served = end(&rt, address, door, clients, beside, askers);
    Ok(served && ended == Ended::Done)
}

// A daemon at these halves of the link's end, with a door for clients at this address.
fn open_door<R>(
    rt: R,
    alloc: Global,
    listener: TcpListener,
    address: SocketAddr,
    halves: (TcpStream, TcpStream),
    opened: (&mut WorkerSeat, LinkSeat, Vec<ClientSeat>),
    askers: Vec<JoinHandle<bool>>,
) -> Result<bool, NoMemory>
where
    R: Net<Stream = TcpStream> + Threads + Wait + Eprint + time::Clock + Send + Copy + 'static,
{
    let (worker, link, seats) = opened;
    let (there, back) = halves;
    let door = Arc::new(alloc, Door::new(listener, EventSeat::new(alloc, link)))?;
    let mut quorum = LinkQuorum::new(rt, alloc, there)?;
    serve(
        rt,
        alloc,
        address,
        &door,
        &mut quorum,
        back,
        worker,
        seats,
        askers,
    )
}

// The askers are served by a daemon over the link.
fn are_served<R>(
    rt: R,
    alloc: Global,
    listener: TcpListener,
    address: SocketAddr,
    halves: (TcpStream, TcpStream),
    askers: Vec<JoinHandle<bool>>,
) -> Result<bool, NoMemory>
where
    R: Net<Stream = TcpStream> + Threads + Wait + Eprint + time::Clock + Send + Copy + 'static,
{
    let options = options_of(1, Text::from_str(alloc, "c1")?, 7);
    let Ok((mut worker, link, seats)) = open_seats(&rt, alloc, options, 4) else {
        return Ok(false);
    };
    let opened = (&mut worker, link, seats);
    let served = open_door(rt, alloc, listener, address, halves, opened, askers);
    worker.close(&rt);
    served
}

// Both halves of the daemon's end of the link.
fn halves<R: Net<Stream = TcpStream>>(
    rt: &R,
    quorum: &TcpListener,
) -> io::Result<(TcpStream, TcpStream)> {
    let there = TcpStream::connect(rt, quorum.local_addr()?)?;
    let back = there.try_clone()?;
    Ok((there, back))
}

#[test]
fn three_clients_are_served_over_a_link(rt: HostRuntime) -> Result<(), Fail> {
    let alloc = rt.alloc();
    let quorum = TcpListener::bind(&rt, "127.0.0.1:0")?;
    let halves = halves(&rt, &quorum)?;
    let listener = TcpListener::bind(&rt, "127.0.0.1:0")?;
    let address = listener.local_addr()?;
    let leading = thread::spawn(&rt, move || be_quorum(alloc, &quorum))
        .ok()
        .ok_or("a thread")?;
    let mut askers = Vec::new(alloc);
    for number in 0..CLIENTS {
        let digit = b'2'.saturating_add(number);
        let asker = thread::spawn(&rt, move || is_served(&rt, address, digit).unwrap_or(false))
            .ok()
            .ok_or("a thread")?;
        askers.push(asker)?;
    }
    assert!(rt; are_served(rt, alloc, listener, address, halves, askers)?);
    assert!(rt; leading.join(&rt));
    Ok(())
}
