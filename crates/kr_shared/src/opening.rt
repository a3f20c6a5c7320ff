//! How the seats are made.

ghost use Rattle.std.specs.Prelude.{◌≡◌, ◌<◌, ◌≤◌, ◌+◌, [], IfOk, IfErr, IfSome, IfNone, OnOk, IsTrue, length, MatchResult};
ghost use Rattle.std.specs.Arc.{arc_value};
ghost use Rattle.kr_defs.specs.OpenOptions.{are_options};
ghost use Rattle.kr_queue.specs.declared.passes.Role.TheVariants as roles;
ghost use Rattle.kr_queue.specs.Passes.{view, IsPassOf, AreClients as ArePasses};
ghost use Rattle.kr_queue.specs.QueueRule.{a_pass};
ghost use Rattle.kr_view.specs.declared.opening.ViewFault.TheVariants as view_faults;
ghost use Rattle.kr_view.specs.Opened.{AreSeats};
ghost use Rattle.kr_model.specs.Engine.{IsEngine, outputs_left};
ghost use Rattle.kr_model.specs.World.{start};
ghost use Rattle.kr_shared.specs.Clients.{AreClientSeats, a_client};
ghost use Rattle.kr_shared.specs.Opened.{IsOpenCause, AreSeated};
ghost use Rattle.kr_shared.specs.Works.{resting};

use crate::clients::{Bells, ClientSeat, ClientSeats};
use crate::desk::Desk;
use crate::links::LinkSeat;
use crate::places::Places;
use crate::worker::WorkerSeat;
use kr_base::NoMemory;
use kr_defs::{Copied, Options};
use kr_engine::Engine;
use kr_queue::{ClientPasses, Pass, Passes, Queue};
use kr_view::{Opening, Publisher, ReaderSeat, ReaderSeats, ViewFault};
use std::alloc::Global;
use std::collections::VecDeque;
use std::sync::{Arc, Wait};

// The same options once more.
fn options_again(options: &Options, alloc: Global) -> Result<Options, NoMemory>
    ensures { IfOk result (λ copy. copy ≡ options.now) }
{
    let cluster = options.cluster.copied(alloc)?;
    Ok(Options {
        node: options.node,
        salt: options.salt,
        session_ms: options.session_ms,
        partitions: options.partitions,
        factor: options.factor,
        minimum: options.minimum,
        cluster,
    })
}

// The seat of the last pass and the last reader.
#[tactic(auto, using(kr_queue::proofs::Clients::one_less, crate::proofs::LastSeats::last_seat))]
fn last_seat(
    alloc: Global,
    queue: &Arc<Queue, Global>,
    bells: &Bells,
    passes: &mut Vec<Pass>,
    readers: &mut Vec<ReaderSeat>,
    options: &Options,
) -> Result<Option<ClientSeat>, NoMemory>
    requires passes { ArePasses (arc_value queue.now) passes.old.items }
    requires readers { AreSeats options.now readers.old.items }
    requires alike { length readers.old.items ≡ length passes.old.items }
    ensures passes { OnOk result (ArePasses (arc_value queue.now) passes.new.items) }
    ensures readers { OnOk result (AreSeats options.now readers.new.items) }
    ensures alike { OnOk result (length readers.new.items ≡ length passes.new.items) }
    ensures some { IfOk result (λ seat. IfSome seat (λ s. (length readers.new.items + 1
        ≡ length readers.old.items) × (s ≡ a_client options.now (length readers.new.items + 1)))) }
    ensures none { IfOk result (λ seat. IfNone seat (length readers.old.items ≡ 0)) }
{
    let Some(reader) = readers.pop() else {
        return Ok(None);
    };
    let Some(pass) = passes.pop() else {
        return Ok(None);
    };
    let queue = Arc::try_clone(queue)?;
    let bells = bells.again()?;
    let held = Places::with_room(alloc)?;
    Ok(Some(ClientSeat::new(alloc, queue, pass, reader, bells, held)))
}

// A seat for each pass and reader, from the last to the first.
fn seats_down(
    alloc: Global,
    queue: &Arc<Queue, Global>,
    bells: &Bells,
    passes: &mut Vec<Pass>,
    readers: &mut Vec<ReaderSeat>,
    options: &Options,
) -> Result<VecDeque<ClientSeat>, NoMemory>
    requires passes { ArePasses (arc_value queue.now) passes.old.items }
    requires readers { AreSeats options.now readers.old.items }
    requires alike { length readers.old.items ≡ length passes.old.items }
    ensures { IfOk result (λ made. (length made.items ≡ length readers.old.items)
        × AreClientSeats options.now made.items) }
{
    let mut made = VecDeque::new(alloc);
    while let Some(seat) = last_seat(alloc, queue, bells, passes, readers, options)? {
        made.push_front(seat)?;
    }
    Ok(made)
}

fn in_rows(alloc: Global, seats: VecDeque<ClientSeat>) -> Result<ClientSeats, NoMemory>
    ensures { IfOk result (λ rows. rows ≡ seats.items) }
{
    let mut seats = seats;
    let mut rows = ClientSeats::new(alloc);
    while let Some(seat) = seats.pop_front() {
        rows.push(seat)?;
    }
    Ok(rows)
}

// What is made before the copies: the queue with its passes, the bells and the engine.
#[derive(Drop)]
struct Parts {
    queue: Arc<Queue, Global>,
    worker: Pass,
    link: LinkSeat,
    clients: ClientPasses,
    bells: Bells,
    engine: Engine,
}

fn parts_of(alloc: Global, options: Options, clients: u32) -> Result<Parts, NoMemory>
    requires { IsTrue (are_options options) }
    ensures worker { IfOk result (λ g. IsPassOf (arc_value g.queue) g.worker × (view g.worker
        ≡ a_pass roles.Worker (clients + 2))) }
    ensures link { IfOk result (λ g. g.link ≡ []) }
    ensures clients { IfOk result (λ g. (length g.clients ≡ clients)
        × ArePasses (arc_value g.queue) g.clients) }
    ensures engine { IfOk result (λ g. IsEngine g.engine start [] × (outputs_left g.engine ≡ [])
        × (g.engine.options ≡ options)) }
{
    let engine = Engine::new(alloc, options)?;
    let bells = Bells::new(alloc, clients)?;
    let (queue, passes) = kr_queue::open(alloc, clients)?;
    let Passes {
        worker,
        link,
        clients,
    } = passes;
    let theirs = Arc::try_clone(&queue)?;
    let rung = bells.again()?;
    Ok(Parts {
        queue,
        worker,
        link: LinkSeat::new(theirs, link, rung.jobs),
        clients,
        bells,
        engine,
    })
}

// The seats over what was made. The publisher is closed where they aren't.
fn seat_all<R: Wait>(
    rt: &R,
    alloc: Global,
    options: &Options,
    parts: Parts,
    publisher: Publisher,
    readers: ReaderSeats,
) -> Result<(WorkerSeat, LinkSeat, ClientSeats), ViewFault>
    requires pass { IsPassOf (arc_value parts.queue) parts.worker × (view parts.worker
        ≡ a_pass roles.Worker (length readers + 2)) }
    requires link { parts.link ≡ [] }
    requires clients { (length parts.clients ≡ length readers)
        × ArePasses (arc_value parts.queue) parts.clients }
    requires engine { IsEngine parts.engine start [] × (outputs_left parts.engine ≡ [])
        × (parts.engine.options ≡ options.now) }
    requires publisher { publisher ≡ resting options.now [] }
    requires readers { AreSeats options.now readers }
    ensures ok { IfOk result (λ r. AreSeated options.now (length readers) r.0 r.1 r.2) }
    ensures err { IfErr result (λ fault. fault ≡ view_faults.NoMemory) }
{
    let Parts {
        queue,
        worker,
        link,
        clients,
        bells,
        engine,
    } = parts;
    match clients_over(alloc, &queue, &bells, clients, readers, options) {
        Ok(seats) => {
            let desk = Desk::new(alloc, publisher, engine);
            Ok((WorkerSeat::new(queue, worker, bells, desk), link, seats))
        }
        Err(_) => {
            publisher.close(rt);
            Err(ViewFault::NoMemory)
        }
    }
}

fn clients_over(
    alloc: Global,
    queue: &Arc<Queue, Global>,
    bells: &Bells,
    passes: ClientPasses,
    readers: ReaderSeats,
    options: &Options,
) -> Result<ClientSeats, NoMemory>
    requires passes { ArePasses (arc_value queue.now) passes }
    requires readers { AreSeats options.now readers }
    requires alike { length passes ≡ length readers }
    ensures { IfOk result (λ seats. (length seats ≡ length readers)
        × AreClientSeats options.now seats) }
{
    let mut passes = passes.into_vec();
    let mut readers = readers.into_vec();
    let made = seats_down(alloc, queue, bells, &mut passes, &mut readers, options)?;
    in_rows(alloc, made)
}

/// A seat for the worker, one for the link, and one for each client, from 1 to 64, with the numbers 1, 2 and so on. NoPlace
/// only where the reader crate had no place for a seat.
pub fn open<R: Wait>(
    rt: &R,
    alloc: Global,
    opening: &mut Opening,
    options: Options,
    clients: u32,
) -> Result<(WorkerSeat, LinkSeat, ClientSeats), ViewFault>
    requires clients { (0 < clients) × (clients ≤ 64) }
    requires options { IsTrue (are_options options) }
    ensures { MatchResult result (λ r. AreSeated options clients r.0 r.1 r.2)
        (IsOpenCause opening.old.refused opening.new.refused) }
{
    let Ok(own) = options_again(&options, alloc) else {
        return Err(ViewFault::NoMemory);
    };
    let Ok(shown) = options_again(&options, alloc) else {
        return Err(ViewFault::NoMemory);
    };
    let Ok(parts) = parts_of(alloc, own, clients) else {
        return Err(ViewFault::NoMemory);
    };
    let (publisher, readers) = kr_view::open(rt, alloc, opening, shown, clients)?;
    seat_all(rt, alloc, &options, parts, publisher, readers)
}
