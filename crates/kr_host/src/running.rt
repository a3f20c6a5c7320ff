//! The daemon as a whole.

ghost use Rattle.kr_flags.specs.Words.{AreInRange};

use crate::clients::spawn_clients;
use crate::door::Door;
use crate::ended::{Ended, tell_no_memory};
use crate::event_seat::EventSeat;
use crate::link::spawn_link;
use crate::link_images::spawn_images;
use crate::link_quorum::LinkQuorum;
use crate::linked::turn_linked;
use crate::local::{lead_alone, turn_alone};
use crate::opening::{Opened, open_seats};
use crate::startup::{Startup, startup_of};
use crate::ticks::spawn_ticks;
use kr_base::NoMemory;
use kr_flags::Settings;
use kr_local::LocalQuorum;
use kr_shared::{ClientSeat, LinkSeat, WorkerSeat};
use std::io::{Eprint, Print};
use std::net::{Net, TcpListener, TcpStream};
use std::sync::{Arc, Wait};
use std::thread::Threads;
use std::{io, time};

/// Serves clients until the worker is stopped. An address that can't be used is told on standard error.
pub fn run<R>(rt: R, settings: Settings) -> Ended
where
    R: Net<Listener = TcpListener, Stream = TcpStream>
        + Threads
        + Wait
        + Print
        + Eprint
        + AllocGlobal
        + time::Clock
        + Send
        + Copy
        + 'static,
    requires { AreInRange settings }
{
    let Startup {
        listen,
        link,
        options,
        seats,
    } = startup_of(settings);
    let Some(listener) = listen_on(&rt, listen.as_str()) else {
        return Ended::BadAddress;
    };
    let stream = match link {
        None => None,
        Some(link) => match connect_to(&rt, link.as_str()) {
            Some(stream) => Some(stream),
            None => return Ended::BadAddress,
        },
    };
    let opened = match open_seats(&rt, rt.alloc(), options, seats) {
        Ok(opened) => opened,
        Err(ended) => return ended,
    };
    serve(rt, listener, stream, opened)
}

fn listen_on<R: Net<Listener = TcpListener, Stream = TcpStream> + Eprint>(
    rt: &R,
    address: &str,
) -> Option<TcpListener> {
    match TcpListener::bind(rt, address) {
        Ok(listener) => Some(listener),
        Err(error) => {
            let _ = eprintln!(rt; "kr_daemon: can't listen on {address}: {error}");
            None
        }
    }
}

// The two halves of the link.
fn connect_to<R: Net<Stream = TcpStream> + Eprint>(
    rt: &R,
    address: &str,
) -> Option<(TcpStream, TcpStream)> {
    match halves(rt, address) {
        Ok(halves) => Some(halves),
        Err(error) => {
            let _ = eprintln!(rt; "kr_daemon: can't connect to {address}: {error}");
            None
        }
    }
}

fn halves<R: Net<Stream = TcpStream>>(rt: &R, address: &str) -> io::Result<(TcpStream, TcpStream)> {
    let stream = TcpStream::connect(rt, address)?;
    stream.set_nodelay(true)?;
    let other = stream.try_clone()?;
    Ok((stream, other))
}

// Serves clients at the opened seats.
fn serve<R>(
    rt: R,
    listener: TcpListener,
    stream: Option<(TcpStream, TcpStream)>,
    opened: Opened,
) -> Ended
where
    R: Threads + Wait + Print + Eprint + AllocGlobal + time::Clock + Send + Copy + 'static,
{
    let (mut worker, link, seats) = opened;
    let ended = match stream {
        None => serve_alone(rt, listener, &mut worker, link, seats),
        Some(halves) => serve_linked(rt, listener, halves, &mut worker, link, seats),
    };
    worker.close(&rt);
    match ended {
        Ok(ended) => ended,
        Err(NoMemory) => tell_no_memory(&rt),
    }
}

// Serves clients of a controller whose quorum commits at once.
fn serve_alone<R>(
    rt: R,
    listener: TcpListener,
    worker: &mut WorkerSeat,
    link: LinkSeat,
    seats: Vec<ClientSeat>,
) -> Result<Ended, NoMemory>
where
    R: Threads + Wait + Print + Eprint + AllocGlobal + time::Clock + Send + Copy + 'static,
{
    let alloc = rt.alloc();
    let mut quorum = LocalQuorum::new(alloc, Vec::new(alloc), Vec::new(alloc))?;
    let seat = lead_alone(&rt, alloc, link);
    let door = Arc::new(alloc, Door::new(listener, seat))?;
    let _threads = spawn_clients(rt, alloc, &door, seats)?;
    let _ticks = spawn_ticks(rt, &door)?;
    let _ = println!(&rt; "listening");
    Ok(turn_alone(&rt, worker, &mut quorum, &door))
}

// Serves clients of a controller whose quorum is at the other end of the link.
fn serve_linked<R>(
    rt: R,
    listener: TcpListener,
    halves: (TcpStream, TcpStream),
    worker: &mut WorkerSeat,
    link: LinkSeat,
    seats: Vec<ClientSeat>,
) -> Result<Ended, NoMemory>
where
    R: Threads + Wait + Print + Eprint + AllocGlobal + time::Clock + Send + Copy + 'static,
{
    let alloc = rt.alloc();
    let (there, back) = halves;
    let mut seats = seats;
    let Some(seat) = seats.pop() else {
        return Err(NoMemory);
    };
    let door = Arc::new(alloc, Door::new(listener, EventSeat::new(alloc, link)))?;
    let mut quorum = LinkQuorum::new(rt, alloc, there)?;
    let images = quorum.images(seat)?;
    let _threads = spawn_clients(rt, alloc, &door, seats)?;
    let _thread = spawn_link(rt, alloc, back, &door, &images)?;
    let _images = spawn_images(rt, images)?;
    let _ticks = spawn_ticks(rt, &door)?;
    let _ = println!(&rt; "listening");
    Ok(turn_linked(&rt, worker, &mut quorum, &door))
}
