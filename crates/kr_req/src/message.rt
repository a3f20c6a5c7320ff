//! Request messages: what their bytes ask.

ghost use Rattle.std.specs.Prelude.{◌≡◌, ◌≤◌, length, drop, IfOk};
ghost use Rattle.kr_calls.specs.declared.calls.Ask.{Ask as AnyAsk};
ghost use Rattle.kr_layout.specs.Answers.{IsAnswer};
ghost use Rattle.kr_req.specs.Messages.{IsAsk};
ghost use Rattle.kr_req.specs.Reading.{ask_of, begun_ask, called_ask, request_of};

use crate::ApiKey;
use crate::body::read_body;
use crate::header::{Start, read_client, read_start};
use kr_base::NoMemory;
use kr_calls::{Ask, AskFault, Call, Request};
use kr_layout::BodyFault;
use std::alloc::Global;

// The request that all of the bytes behind the correlation id stand for, or the first fault.
#[tactic(auto, unfolding(crate::specs::Reading::request_of))]
fn read_request(alloc: Global, api: ApiKey, message: &[u8], at: usize) -> Result<Request, BodyFault>
    requires { at ≤ length message.now }
    ensures { IsAnswer result (request_of api (drop at message.now)) }
{
    match read_client(message, at) {
        Ok(next) => read_body(alloc, api, message, next),
        Err(fault) => Err(BodyFault::Wire(fault)),
    }
}

// A message of a key that is served.
fn read_call(
    alloc: Global,
    api: ApiKey,
    correlation: &i32,
    message: &[u8],
    at: usize,
) -> Result<Ask, NoMemory>
    requires { at ≤ length message.now }
    ensures { IfOk result (λ ask. ask ≡ called_ask correlation.now (request_of api (drop at message.now))) }
{
    let correlation = *correlation;
    match read_request(alloc, api, message, at) {
        Ok(request) => Ok(Ask::Call(Call {
            correlation,
            request,
        })),
        Err(BodyFault::Wire(_)) => Ok(Ask::Bare {
            correlation,
            fault: AskFault::Wire,
        }),
        Err(BodyFault::Trailing) => Ok(Ask::Bare {
            correlation,
            fault: AskFault::Trailing,
        }),
        Err(BodyFault::NoMemory) => Err(NoMemory),
    }
}

// A message whose key, version and correlation id are read.
fn read_begun(alloc: Global, start: &Start, message: &[u8], at: usize) -> Result<Ask, NoMemory>
    requires { at ≤ length message.now }
    ensures { IfOk result (λ ask. ask ≡ begun_ask (start.now.key, start.now.version, start.now.correlation) (drop at message.now)) }
{
    match ApiKey::served_by(&start.key, &start.version) {
        Some(api) => read_call(alloc, api, &start.correlation, message, at),
        None => Ok(Ask::Bare {
            correlation: start.correlation,
            fault: AskFault::Unsupported {
                key: start.key,
                version: start.version,
            },
        }),
    }
}

#[tactic(auto, unfolding(crate::specs::Reading::ask_of))]
fn read_ask(alloc: Global, message: &[u8]) -> Result<Ask, NoMemory>
    ensures { IfOk result (λ ask. ask ≡ ask_of message.now) }
{
    match read_start(message, 0) {
        Ok((start, at)) => read_begun(alloc, &start, message, at),
        Err(_) => Ok(Ask::Bare {
            correlation: 0,
            fault: AskFault::Wire,
        }),
    }
}

/// What a message asks: each message asks one thing.
pub fn decode(alloc: Global, message: &[u8]) -> Result<Ask, NoMemory>
    // It is what the bytes stand for, and they stand for nothing else.
    ensures found { IfOk result (λ ask. IsAsk ask message.now) }
    ensures only { (any : AnyAsk) → IsAsk any message.now → IfOk result (λ ask. ask ≡ any) }
{
    read_ask(alloc, message)
}
