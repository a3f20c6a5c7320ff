//! What the host is told: by the quorum, and by a broker.

ghost use Rattle.std.specs.Prelude.{IfOk, IsTrue};
ghost use Rattle.kr_defs.specs.OpenOptions.{are_options};

use kr_calls::{Ask, BrokerRegistration, Call, Event, Request};
use kr_defs::{Endpoint, Options, Rows, Text};
use kr_engine::Engine;
use std::alloc::{AllocError, Global};

/// Sessions of nine seconds, and Kafka's defaults for new topics.
pub(crate) fn options(alloc: Global) -> Result<Options, AllocError>
    ensures { IfOk result (λ options. IsTrue (are_options options)) }
{
    Ok(Options {
        node: 0,
        salt: 7,
        session_ms: 9000,
        partitions: 1,
        factor: 1,
        minimum: 1,
        cluster: Text::from_str(alloc, "host")?,
    })
}

/// The quorum elected this node in epoch 1, with an empty log.
pub(crate) fn lead() -> Event {
    Event::Lead {
        epoch: 1,
        next: 0,
        now: 0,
    }
}

fn listener(alloc: Global) -> Result<Endpoint, AllocError> {
    Ok(Endpoint {
        name: Text::from_str(alloc, "PLAINTEXT")?,
        host: Text::from_str(alloc, "localhost")?,
        port: 9092,
        protocol: 0,
    })
}

fn broker(alloc: Global) -> Result<BrokerRegistration, AllocError> {
    let mut listeners = Rows::new(alloc);
    listeners.push(listener(alloc)?)?;
    Ok(BrokerRegistration {
        broker: 1,
        cluster: Text::from_str(alloc, "host")?,
        incarnation: 1,
        listeners,
        features: Rows::new(alloc),
        rack: None,
        migrating: false,
        previous_epoch: -1,
    })
}

/// A broker registers.
pub(crate) fn registration(alloc: Global) -> Result<Event, AllocError> {
    let request = Request::BrokerRegistration(broker(alloc)?);
    Ok(Event::Request {
        client: 3,
        now: 10,
        ask: Ask::Call(Call {
            correlation: 1,
            request,
        }),
    })
}

/// The quorum committed all that was appended.
pub(crate) fn commit_all(engine: &Engine) -> Event {
    Event::Commit {
        epoch: 1,
        end: engine.tip(),
    }
}
