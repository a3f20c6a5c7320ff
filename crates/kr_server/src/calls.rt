//! What a message asks, and what the seat answers to it.

ghost use Rattle.std.specs.Prelude.{◌≡◌, ℕ, List, Option, not, IfOk, IfErr, IsTrue};
ghost use Rattle.kr_calls.specs.Decide.{is_read};
ghost use Rattle.kr_calls.specs.declared.calls.Ask.TheVariants as asks;
ghost use Rattle.kr_calls.specs.declared.pins.Pin.{Pin};
ghost use Rattle.kr_pages.specs.declared.describe.DescribeAsk.TheVariants as describes;
ghost use Rattle.kr_pages.specs.Messages.{IsDescribeAsk, IsDescribeKey};
ghost use Rattle.kr_req.specs.Messages.{IsAsk};
ghost use Rattle.kr_view.specs.Seats.{Onward};
ghost use Rattle.kr_model.specs.Outputs as outputs;
ghost use Rattle.kr_server.specs.Exchanges.{IsAskedFor};
ghost use Rattle.kr_server.specs.SeatCalls.{IsExchanged, holder};
ghost use Rattle.kr_server.specs.inner.Paging.{HasPlaceLeft, IsPinPlace, KeepsPlaces};
ghost use Rattle.kr_server.specs.inner.Serving.{CameOf, IsNotExchanged};

use crate::describing::describe_page;
use crate::end::{ServeEnd, copy_end, refusal_end};
use crate::exchange::Exchange;
use crate::paging::Paging;
use kr_calls::errors::{INVALID_REQUEST, UNSUPPORTED_VERSION};
use kr_calls::{Ask, AskFault, Call};
use kr_pages::{Describe, DescribeAsk};
use kr_req::decode;
use kr_shared::ClientSeat;
use std::alloc::Global;
use std::sync::Wait;

/// What the seat answers to the message, or how the connection ends.
#[tactic(auto, using(crate::proofs::HeldPlaces::places, crate::proofs::Exchanged::came_same))]
pub(crate) fn exchange<R: Wait>(
    rt: &R,
    alloc: Global,
    seat: &mut ClientSeat,
    paging: &mut Paging,
    message: &[u8],
) -> Result<Exchange, ServeEnd>
    requires { HasPlaceLeft seat.old.held paging.old.held }
    ensures asked { IfOk result (λ x. IsAskedFor x message.now) }
    ensures came { IfOk result (λ x. (pin : Option Pin)
        → IsPinPlace paging.old.held (holder seat.old pin)
        → CameOf (holder seat.old pin) seat.new paging.new.held x) }
    ensures err { IfErr result (λ end. IsNotExchanged message.now seat.old seat.new end) }
    ensures places { KeepsPlaces seat.old paging.old.held seat.new paging.new.held }
{
    let page = match kr_pages::decode(alloc, message) {
        Err(_) => return Err(ServeEnd::NoMemory),
        Ok(page) => page,
    };
    match page {
        None => exchange_call(rt, alloc, seat, message),
        Some(DescribeAsk::Bare { correlation }) => Ok(Exchange::Bare {
            correlation,
            error: INVALID_REQUEST,
        }),
        Some(
            DescribeAsk::Ask {
                correlation,
                describe,
            },
        ) => exchange_page(rt, alloc, seat, paging, correlation, describe),
    }
}

// A page, of the place that the connection holds.
fn exchange_page<R: Wait>(
    rt: &R,
    alloc: Global,
    seat: &mut ClientSeat,
    paging: &mut Paging,
    correlation: i32,
    describe: Describe,
) -> Result<Exchange, ServeEnd>
    requires { HasPlaceLeft seat.old.held paging.old.held }
    ensures asked { (message : List ℕ) → IsDescribeAsk (describes.Ask correlation describe) message
        → IfOk result (λ x. IsAskedFor x message) }
    ensures came { IfOk result (λ x. (pin : Option Pin)
        → IsPinPlace paging.old.held (holder seat.old pin)
        → CameOf (holder seat.old pin) seat.new paging.new.held x) }
    ensures err { (message : List ℕ) → IsDescribeAsk (describes.Ask correlation describe) message
        → IfErr result (λ end. IsNotExchanged message seat.old seat.new end) }
    ensures places { KeepsPlaces seat.old paging.old.held seat.new paging.new.held }
{
    match describe_page(rt, alloc, seat, paging, &describe) {
        Err(end) => Err(end),
        Ok((place, described)) => Ok(Exchange::Page {
            correlation,
            place,
            describe,
            described,
        }),
    }
}

// What is no page.
fn exchange_call<R: Wait>(
    rt: &R,
    alloc: Global,
    seat: &mut ClientSeat,
    message: &[u8],
) -> Result<Exchange, ServeEnd>
    requires { IsDescribeKey message.now → ⊥ }
    ensures asked { IfOk result (λ x. IsAskedFor x message.now) }
    ensures exchanged { IfOk result (λ x. (pin : Option Pin) → IsExchanged (holder seat.old pin)
        (holder seat.new pin) x) }
    ensures err { IfErr result (λ end. IsNotExchanged message.now seat.old seat.new end) }
    ensures onward { Onward seat.old.seen seat.new.seen }
    ensures held { seat.new.held ≡ seat.old.held }
{
    let ask = match decode(alloc, message) {
        Err(_) => return Err(ServeEnd::NoMemory),
        Ok(ask) => ask,
    };
    match ask {
        Ask::Bare { correlation, fault } => Ok(Exchange::Bare {
            correlation,
            error: error_of(&fault),
        }),
        Ask::Call(call) if call.request.is_read() => query(seat, call),
        Ask::Call(call) => submit(rt, seat, call),
    }
}

fn error_of(fault: &AskFault) -> i16
    ensures { result ≡ outputs.error_of fault.now }
{
    match fault {
        AskFault::Unsupported { .. } => UNSUPPORTED_VERSION,
        AskFault::Wire | AskFault::Trailing => INVALID_REQUEST,
    }
}

// A read, by its seat.
fn query(seat: &mut ClientSeat, call: Call) -> Result<Exchange, ServeEnd>
    requires { IsTrue (is_read call.request) }
    ensures asked { (message : List ℕ) → IsAsk (asks.Call call) message
        → IfOk result (λ x. IsAskedFor x message) }
    ensures exchanged { IfOk result (λ x. (pin : Option Pin) → IsExchanged (holder seat.old pin)
        (holder seat.new pin) x) }
    ensures err { (message : List ℕ) → IsAsk (asks.Call call) message
        → IfErr result (λ end. IsNotExchanged message seat.old seat.new end) }
    ensures onward { Onward seat.old.seen seat.new.seen }
    ensures held { seat.new.held ≡ seat.old.held }
{
    match seat.read(&call) {
        Err(fault) => Err(copy_end(fault)),
        Ok(reply) => Ok(Exchange::Read { call, reply }),
    }
}

// A write, by its seat.
fn submit<R: Wait>(rt: &R, seat: &mut ClientSeat, call: Call) -> Result<Exchange, ServeEnd>
    requires { IsTrue (not (is_read call.request)) }
    ensures asked { (message : List ℕ) → IsAsk (asks.Call call) message
        → IfOk result (λ x. IsAskedFor x message) }
    ensures exchanged { IfOk result (λ x. (pin : Option Pin) → IsExchanged (holder seat.old pin)
        (holder seat.new pin) x) }
    ensures err { (message : List ℕ) → IsAsk (asks.Call call) message
        → IfErr result (λ end. IsNotExchanged message seat.old seat.new end) }
    ensures onward { Onward seat.old.seen seat.new.seen }
    ensures held { seat.new.held ≡ seat.old.held }
{
    match seat.submit(rt, &call) {
        Err(fault) => Err(refusal_end(fault)),
        Ok(answered) => Ok(Exchange::Write(answered)),
    }
}
