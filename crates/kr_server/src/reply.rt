//! The reply of an exchange, as bytes.

ghost use Rattle.std.specs.Prelude.{◌≡◌, ◌++◌, ◌<◌, ◌^◌, FitsSigned, length, IfOk, OnOk};
ghost use Rattle.std.specs.Int.{w32};
ghost use Rattle.kr_wire.specs.Spelling.{number};
ghost use Rattle.kr_pages.specs.Written.{DescribedFits, described_bytes};
ghost use Rattle.kr_req.specs.WrittenReplies.{ReplyFits, reply_bytes};
ghost use Rattle.kr_server.specs.Exchanges.{SizedReplyFits, sized_reply};

use crate::exchange::Exchange;
use kr_base::NoMemory;
use kr_calls::Reply;
use kr_pages::Described;
use kr_req::encode_reply;
use kr_wire::put_u32;
use std::alloc::Global;

// The longest reply: its size is a number of 32 bits with a sign.
const LONGEST_REPLY: usize = 2147483647;

/// The exchange's reply behind its size, where it fits its field.
pub(crate) fn sized_reply(alloc: Global, exchange: &Exchange) -> Result<Vec<u8>, NoMemory>
    ensures bytes { IfOk result (λ bytes. bytes.items ≡ sized_reply exchange.now) }
    ensures fits { OnOk result (SizedReplyFits exchange.now) }
{
    match exchange {
        Exchange::Write(answered) => {
            let answered = answered.get();
            encode_sized(alloc, &answered.call.correlation, &answered.reply)
        }
        Exchange::Read { call, reply } => encode_sized(alloc, &call.correlation, reply),
        Exchange::Page {
            correlation,
            described,
            ..
        } => page_sized(alloc, correlation, described),
        Exchange::Bare { correlation, error } => {
            encode_sized(alloc, correlation, &Reply::Bare { error: *error })
        }
    }
}

// The reply's message, behind its size.
fn encode_sized(alloc: Global, correlation: &i32, reply: &Reply) -> Result<Vec<u8>, NoMemory>
    ensures bytes { let message = reply_bytes correlation.now reply.now in
        IfOk result (λ bytes. bytes.items ≡ number w32 (length message) ++ message) }
    ensures values { OnOk result (ReplyFits correlation.now reply.now) }
    ensures size { OnOk result (length (reply_bytes correlation.now reply.now) < 2 ^ 31) }
{
    let mut message = Vec::new(alloc);
    encode_reply(int32(correlation), reply, &mut message)?;
    behind_size(alloc, message.as_slice())
}

// The message of a reply with a page, behind its size.
fn page_sized(alloc: Global, correlation: &i32, described: &Described) -> Result<Vec<u8>, NoMemory>
    ensures bytes { let message = described_bytes correlation.now described.now in
        IfOk result (λ bytes. bytes.items ≡ number w32 (length message) ++ message) }
    ensures values { OnOk result (DescribedFits correlation.now described.now) }
    ensures size { OnOk result (length (described_bytes correlation.now described.now) < 2 ^ 31) }
{
    let mut message = Vec::new(alloc);
    kr_pages::encode(int32(correlation), described, &mut message)?;
    behind_size(alloc, message.as_slice())
}

// A number behind a reference.
fn int32(number: &i32) -> i32
    ensures same { result ≡ number.now }
    ensures fits { FitsSigned w32 result }
{
    *number
}

fn behind_size(alloc: Global, message: &[u8]) -> Result<Vec<u8>, NoMemory>
    ensures bytes { IfOk result
        (λ bytes. bytes.items ≡ number w32 (length message.now) ++ message.now) }
    ensures size { OnOk result (length message.now < 2 ^ 31) }
{
    if message.len() > LONGEST_REPLY {
        return Err(NoMemory);
    }
    let mut bytes = Vec::new(alloc);
    put_u32(&mut bytes, message.len() as u32)?;
    bytes.extend_from_slice(message)?;
    Ok(bytes)
}
