//! What the clients ask.

ghost use Rattle.std.specs.Prelude.{IfOk, IsTrue, not};
ghost use Rattle.kr_calls.specs.Decide.{is_read};

use kr_base::NoMemory;
use kr_calls::{
    Answered, BrokerHeartbeat, BrokerRegistration, Call, ConfigOperation, ConfigResource,
    CreatableTopic, CreatableTopics, CreateTopics, IncrementalAlterConfigs, Metadata, Reply,
    Request,
};
use kr_defs::{Endpoint, Endpoints, Ranges, Rows, Text};
use kr_shared::{ClientSeat, SubmitFault};
use std::alloc::Global;
use std::sync::Wait;

/// What a client writes.
#[derive(Clone, Copy)]
pub(crate) enum Write<'a> {
    /// This broker registers.
    Register(i32),
    /// This broker, of this epoch, has read the log up to the offset.
    Heartbeat(i32, i64, i64),
    /// A topic of one partition.
    Topic(&'a str),
    /// A topic of so many partitions.
    Partitions(&'a str, i32),
    /// The minimum of replicas in sync, for all topics.
    Setting(u64),
}

fn registration(alloc: Global, broker: i32) -> Result<BrokerRegistration, NoMemory> {
    Ok(BrokerRegistration {
        broker,
        cluster: Text::from_str(alloc, "c1")?,
        incarnation: 9,
        listeners: listeners(alloc)?,
        features: Ranges::new(alloc),
        rack: None,
        migrating: false,
        previous_epoch: -1,
    })
}

fn listeners(alloc: Global) -> Result<Endpoints, NoMemory> {
    let mut listeners = Endpoints::new(alloc);
    listeners.push(Endpoint {
        name: Text::from_str(alloc, "PLAINTEXT")?,
        host: Text::from_str(alloc, "host1")?,
        port: 9092,
        protocol: 0,
    })?;
    Ok(listeners)
}

fn heartbeat(broker: i32, epoch: i64, offset: i64) -> BrokerHeartbeat {
    BrokerHeartbeat {
        broker,
        epoch,
        offset,
        want_fence: false,
        want_shutdown: false,
    }
}

fn topic(alloc: Global, name: &str, partitions: i32) -> Result<CreateTopics, NoMemory> {
    let mut topics = CreatableTopics::new(alloc);
    topics.push(CreatableTopic {
        name: Text::from_str(alloc, name)?,
        partitions,
        factor: 1,
        assignments: Rows::new(alloc),
        configs: Rows::new(alloc),
    })?;
    Ok(CreateTopics {
        topics,
        validate_only: false,
    })
}

fn operation(alloc: Global, value: u64) -> Result<ConfigOperation, NoMemory> {
    let value = format!(in alloc; "{value}")?;
    Ok(ConfigOperation {
        name: Text::from_str(alloc, "min.insync.replicas")?,
        operation: 0,
        value: Some(Text::from_string(value)),
    })
}

fn resource(alloc: Global, value: u64) -> Result<ConfigResource, NoMemory> {
    let mut configs = Rows::new(alloc);
    configs.push(operation(alloc, value)?)?;
    Ok(ConfigResource {
        kind: 4,
        name: Text::new(alloc),
        configs,
    })
}

fn setting(alloc: Global, value: u64) -> Result<IncrementalAlterConfigs, NoMemory> {
    let mut resources = Rows::new(alloc);
    resources.push(resource(alloc, value)?)?;
    Ok(IncrementalAlterConfigs {
        resources,
        validate_only: false,
    })
}

fn request(alloc: Global, write: Write) -> Result<Request, NoMemory>
    ensures { IfOk result (λ request. IsTrue (not (is_read request))) }
{
    match write {
        Write::Register(broker) => { Ok(Request::BrokerRegistration(registration(alloc, broker)?)) }
        Write::Heartbeat(broker, epoch, offset) => {
            Ok(Request::BrokerHeartbeat(heartbeat(broker, epoch, offset)))
        }
        Write::Topic(name) => Ok(Request::CreateTopics(topic(alloc, name, 1)?)),
        Write::Partitions(name, count) => Ok(Request::CreateTopics(topic(alloc, name, count)?)),
        Write::Setting(value) => { Ok(Request::IncrementalAlterConfigs(setting(alloc, value)?)) }
    }
}

pub(crate) fn all_topics() -> Call
    ensures { IsTrue (is_read result.request) }
{
    Call {
        correlation: 5,
        request: Request::Metadata(Metadata { topics: None }),
    }
}

// How many topics the seat sees.
pub(crate) fn topics_seen(seat: &mut ClientSeat) -> Option<usize> {
    match &seat.read(&all_topics()) {
        Ok(Reply::Metadata(reply)) => Some(reply.topics.len()),
        _ => None,
    }
}

// The error of the reply to a write, of the one topic or resource where it names some.
fn error_of(answered: &Answered) -> Option<i16> {
    match &answered.reply {
        Reply::BrokerRegistration(reply) => Some(reply.error),
        Reply::BrokerHeartbeat(reply) => Some(reply.error),
        Reply::CreateTopics(reply) => match reply.topics.as_slice() {
            [one] => Some(one.error),
            _ => None,
        },
        Reply::IncrementalAlterConfigs(reply) => match reply.responses.as_slice() {
            [one] => Some(one.error),
            _ => None,
        },
        _ => None,
    }
}

/// What a client is told of its write.
#[derive(Clone, Copy)]
pub(crate) enum Told {
    /// The place at which it was decided, and the error of its reply.
    Answer(i64, i16),
    /// The number of the stop that ended it.
    Stop(u64),
    Nothing,
}

fn submit<R: Wait>(rt: &R, seat: &mut ClientSeat, call: &Call) -> Told
    requires { IsTrue (not (is_read call.now.request)) }
{
    match seat.submit(rt, call) {
        Ok(answered) => told_by(answered.get()),
        Err(SubmitFault::Ended { number }) => Told::Stop(number),
        Err(_) => Told::Nothing,
    }
}

fn told_by(answered: &Answered) -> Told {
    match error_of(answered) {
        Some(error) => Told::Answer(answered.place, error),
        None => Told::Nothing,
    }
}

/// What the client of a seat is told of its write.
pub(crate) fn answer_to<R: Wait>(
    rt: &R,
    alloc: Global,
    seat: &mut ClientSeat,
    write: Write,
) -> Told {
    match request(alloc, write) {
        Ok(request) => {
            let call = Call {
                correlation: 1,
                request,
            };
            submit(rt, seat, &call)
        }
        Err(_) => Told::Nothing,
    }
}

/// The write stands at the place.
pub(crate) fn is_at<R: Wait>(
    rt: &R,
    alloc: Global,
    seat: &mut ClientSeat,
    write: Write,
    place: i64,
) -> bool {
    match answer_to(rt, alloc, seat, write) {
        Told::Answer(at, 0) => at == place,
        _ => false,
    }
}
