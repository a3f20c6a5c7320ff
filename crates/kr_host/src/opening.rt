//! The seats of a daemon.

ghost use Rattle.std.specs.Prelude.{◌≡◌, ◌<◌, ◌≤◌, ◌≤ℤ◌, ◌⊎◌, pos, length, IsTrue, IfOk, IfErr};
ghost use Rattle.kr_defs.specs.OpenOptions.{are_options};
ghost use Rattle.kr_shared.specs.Opened.{AreSeated};
ghost use Rattle.kr_host.specs.Starts as starts;

use crate::ended::{Ended, tell_no_memory, tell_no_place};
use kr_defs::{Options, Text};
use kr_shared::{ClientSeat, LinkSeat, WorkerSeat, open};
use kr_view::{Opening, ViewFault};
use std::alloc::Global;
use std::io::Eprint;
use std::sync::Wait;

// The length of a broker's session, in milliseconds: Kafka's default.
const SESSION_MS: u32 = 9_000;

/// What a controller with these settings is started with: sessions of nine seconds, one partition, one replica, one of them
/// in sync.
pub fn options_of(node: i32, cluster: Text, salt: u64) -> Options
    requires node { pos 0 ≤ℤ node }
    requires cluster { length cluster ≤ 255 }
    ensures exact { result ≡ starts.options_of node cluster salt }
    ensures fit { IsTrue (are_options result) }
{
    Options {
        node,
        salt,
        session_ms: SESSION_MS,
        partitions: 1,
        factor: 1,
        minimum: 1,
        cluster,
    }
}

/// The seats of the worker, the link and the clients. The worker's is not `Drop`: end it by `close`.
pub type Opened = (WorkerSeat, LinkSeat, Vec<ClientSeat>);

/// Opens the seats, or tells on standard error why there are none.
pub fn open_seats<R: Wait + Eprint>(
    rt: &R,
    alloc: Global,
    options: Options,
    clients: u32,
) -> Result<Opened, Ended>
    requires options { IsTrue (are_options options) }
    requires clients { (0 < clients) × (clients ≤ 64) }
    ensures ok { IfOk result (λ r. AreSeated options clients r.0 r.1 r.2.items) }
    ensures err { IfErr result (λ end. (end ≡ Ended.NoMemory) ⊎ (end ≡ Ended.NoPlace)) }
{
    match open(rt, alloc, &mut Opening::new(), options, clients) {
        Ok((worker, link, seats)) => Ok((worker, link, seats.into_vec())),
        Err(ViewFault::NoMemory) => Err(tell_no_memory(rt)),
        Err(ViewFault::NoPlace) => Err(tell_no_place(rt)),
    }
}
