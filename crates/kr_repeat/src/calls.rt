//! Whole calls.

ghost use Rattle.std.specs.Prelude.{◌≡◌, ◌↔◌, IfOk, IsTrue, false};
ghost use Rattle.kr_calls.specs.Decide.{is_read};

use crate::Repeat;
use kr_base::NoMemory;
use kr_calls::{Call, Request};
use std::alloc::Global;

fn request_again(request: &Request, alloc: Global) -> Result<Request, NoMemory>
    requires { is_read request.now ≡ false }
    ensures { IfOk result (λ copy. copy ≡ request.now) }
{
    match request {
        Request::BrokerRegistration(q) => Ok(Request::BrokerRegistration(q.again(alloc)?)),
        Request::BrokerHeartbeat(q) => Ok(Request::BrokerHeartbeat(q.again(alloc)?)),
        Request::UnregisterBroker(q) => Ok(Request::UnregisterBroker(q.again(alloc)?)),
        Request::CreateTopics(q) => Ok(Request::CreateTopics(q.again(alloc)?)),
        Request::DeleteTopics(q) => Ok(Request::DeleteTopics(q.again(alloc)?)),
        Request::CreatePartitions(q) => Ok(Request::CreatePartitions(q.again(alloc)?)),
        Request::AlterPartition(q) => Ok(Request::AlterPartition(q.again(alloc)?)),
        Request::ElectLeaders(q) => Ok(Request::ElectLeaders(q.again(alloc)?)),
        Request::AlterPartitionReassignments(q) => Ok(Request::AlterPartitionReassignments(q.again(
            alloc,
        )?)),
        Request::IncrementalAlterConfigs(q) => Ok(Request::IncrementalAlterConfigs(q.again(
            alloc,
        )?)),
        Request::ListPartitionReassignments(_) => unreachable!(),
        Request::Metadata(_) => unreachable!(),
    }
}

// The requests are the same write.
fn same_request(request: &Request, other: &Request) -> bool
    ensures { IsTrue result ↔ ((is_read request.now ≡ false) × (request.now ≡ other.now)) }
{
    match (request, other) {
        (Request::BrokerRegistration(p), Request::BrokerRegistration(q)) => p.is(q),
        (Request::BrokerHeartbeat(p), Request::BrokerHeartbeat(q)) => p.is(q),
        (Request::UnregisterBroker(p), Request::UnregisterBroker(q)) => p.is(q),
        (Request::CreateTopics(p), Request::CreateTopics(q)) => p.is(q),
        (Request::DeleteTopics(p), Request::DeleteTopics(q)) => p.is(q),
        (Request::CreatePartitions(p), Request::CreatePartitions(q)) => p.is(q),
        (Request::AlterPartition(p), Request::AlterPartition(q)) => p.is(q),
        (Request::ElectLeaders(p), Request::ElectLeaders(q)) => p.is(q),
        (Request::AlterPartitionReassignments(p), Request::AlterPartitionReassignments(q)) => p.is(
            q,
        ),
        (Request::IncrementalAlterConfigs(p), Request::IncrementalAlterConfigs(q)) => p.is(q),
        _ => false,
    }
}

/// The same call once more. It is no read.
pub fn write_again(call: &Call, alloc: Global) -> Result<Call, NoMemory>
    requires { is_read call.now.request ≡ false }
    ensures { IfOk result (λ copy. copy ≡ call.now) }
{
    let request = request_again(&call.request, alloc)?;
    Ok(Call {
        correlation: call.correlation,
        request,
    })
}

/// The calls are the same write.
pub fn same_call(call: &Call, other: &Call) -> bool
    ensures { IsTrue result ↔ ((is_read call.now.request ≡ false) × (call.now ≡ other.now)) }
{
    call.correlation == other.correlation && same_request(&call.request, &other.request)
}
