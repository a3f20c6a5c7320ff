//! What a request message asks, in words, with the message that refuses it.

ghost use Rattle.std.specs.Prelude.{◌≡◌, IfOk, string_bytes};
ghost use Rattle.kr_calls.specs.declared.calls.Ask.TheVariants as asks;
ghost use Rattle.kr_req.specs.WrittenReplies as written;
ghost use Rattle.testlib_codec_answers.specs.MessageWords as words;
ghost use Rattle.testlib_codec_answers.specs.MessageWords.{TellsMessage};

use kr_base::NoMemory;
use kr_calls::errors::{INVALID_REQUEST, NOT_CONTROLLER, UNSUPPORTED_VERSION};
use kr_calls::{Ask, AskFault, Call, Reply, Request};
use kr_req::{decode, encode_reply};
use kr_rules::refuse;
use std::alloc::{AllocError, Global};

// The message of a reply.
fn reply_bytes(alloc: Global, correlation: i32, reply: &Reply) -> Result<Vec<u8>, NoMemory>
    ensures { IfOk result (λ bytes. bytes.items ≡ written.reply_bytes correlation reply.now) }
{
    let mut out = Vec::new(alloc);
    encode_reply(correlation, reply, &mut out)?;
    Ok(out)
}

fn request_word(request: &Request) -> &'static str
    ensures { result.now ≡ words.request_words request.now }
{
    match request {
        Request::BrokerRegistration(_) => "BrokerRegistration",
        Request::BrokerHeartbeat(_) => "BrokerHeartbeat",
        Request::UnregisterBroker(_) => "UnregisterBroker",
        Request::CreateTopics(_) => "CreateTopics",
        Request::DeleteTopics(_) => "DeleteTopics",
        Request::CreatePartitions(_) => "CreatePartitions",
        Request::AlterPartition(_) => "AlterPartition",
        Request::ElectLeaders(_) => "ElectLeaders",
        Request::AlterPartitionReassignments(_) => "AlterPartitionReassignments",
        Request::ListPartitionReassignments(_) => "ListPartitionReassignments",
        Request::IncrementalAlterConfigs(_) => "IncrementalAlterConfigs",
        Request::Metadata(_) => "Metadata",
    }
}

fn named_text(alloc: Global, name: &str, message: &[u8]) -> Result<String, AllocError>
    ensures { IfOk result (λ text. string_bytes text ≡ words.named_words name.now message.now) }
{
    let digits = hex::encode(alloc, message)?;
    format!(in alloc; "call {name} {digits}")
}

fn call_text(alloc: Global, call: &Call) -> Result<String, NoMemory>
    ensures { IfOk result (λ text. string_bytes text ≡ words.told_words (asks.Call call.now)) }
{
    let reply = refuse(alloc, &call.request, NOT_CONTROLLER)?;
    let message = reply_bytes(alloc, call.correlation, &reply)?;
    Ok(named_text(alloc, request_word(&call.request), message.as_slice())?)
}

fn error_of(fault: AskFault) -> i16
    ensures { result ≡ words.error_of fault }
{
    match fault {
        AskFault::Unsupported { .. } => UNSUPPORTED_VERSION,
        AskFault::Wire | AskFault::Trailing => INVALID_REQUEST,
    }
}

fn error_text(alloc: Global, message: &[u8]) -> Result<String, AllocError>
    ensures { IfOk result (λ text. string_bytes text ≡ words.bare_words message.now) }
{
    let digits = hex::encode(alloc, message)?;
    format!(in alloc; "bare {digits}")
}

fn bare_text(alloc: Global, correlation: i32, fault: AskFault) -> Result<String, NoMemory>
    ensures { IfOk result (λ text. string_bytes text ≡ words.told_words (asks.Bare correlation
        fault)) }
{
    let reply = Reply::Bare {
        error: error_of(fault),
    };
    let message = reply_bytes(alloc, correlation, &reply)?;
    Ok(error_text(alloc, message.as_slice())?)
}

fn ask_text(alloc: Global, ask: &Ask) -> Result<String, NoMemory>
    ensures { IfOk result (λ text. string_bytes text ≡ words.told_words ask.now) }
{
    match ask {
        Ask::Call(call) => call_text(alloc, call),
        Ask::Bare { correlation, fault } => bare_text(alloc, *correlation, *fault),
    }
}

/// What the message asks, and the message that refuses it.
pub fn message_answer(alloc: Global, message: &[u8]) -> Result<String, NoMemory>
    ensures { IfOk result (λ text. TellsMessage message.now (string_bytes text)) }
{
    let ask = decode(alloc, message)?;
    ask_text(alloc, &ask)
}
