//! Serving one connection.

ghost use Rattle.std.specs.Prelude.{◌≡◌, ◌<◌, ◌≤◌, IfOk, IsErrOf, None, length};
ghost use Rattle.kr_base.specs.Causes.{Rose};
ghost use Rattle.kr_defs.specs.declared.limits.TheConstants.{MOST_SESSION_BYTES};
ghost use Rattle.kr_shared.specs.Clients.{MayRise};
ghost use Rattle.kr_view.specs.Seats.{Onward};
ghost use Rattle.kr_shared.specs.declared.places.TheConstants.{MOST_PLACES};
ghost use Rattle.kr_server.specs.Served.{LeavesNone, ServesClient, ServesMessages, ServesToEnd, ServesUpToBreak, WhereNoneRose};
ghost use Rattle.kr_server.specs.inner.Paging.{HasPlaceLeft, KeepsPlaces};
ghost use Rattle.kr_server.specs.inner.Serving.{AnswersOne, ServesNext};

use crate::calls::exchange;
use crate::end::ServeEnd;
use crate::message::read_message;
use crate::paging::Paging;
use crate::reply::sized_reply;
use crate::transcript::Transcript;
use kr_base::{Sink, Source};
use kr_shared::ClientSeat;
use std::alloc::Global;
use std::sync::Wait;

// Answers one message: it is asked of the seat, its exchange is told, and its reply is written by one put.
fn answer_message<R: Wait, K: Sink, T: Transcript>(
    rt: &R,
    alloc: Global,
    seat: &mut ClientSeat,
    paging: &mut Paging,
    message: &[u8],
    sink: &mut K,
    transcript: &mut T,
) -> Result<(), ServeEnd>
    requires { HasPlaceLeft seat.old.held paging.old.held }
    ensures answered { AnswersOne K.written T.list message.now sink.old sink.new transcript.old
        transcript.new seat.old seat.new paging.old.held paging.new.held result }
    ensures places { KeepsPlaces seat.old paging.old.held seat.new paging.new.held }
    ensures unread { IsErrOf result ServeEnd.ReadFault → ⊥ }
    ensures write { IsErrOf result ServeEnd.WriteFault →
        Rose (K.faults sink.old) (K.faults sink.new) }
    ensures later { K.faults sink.old ≤ K.faults sink.new }
{
    let exchange = match exchange(rt, alloc, seat, paging, message) {
        Err(end) => return Err(end),
        Ok(exchange) => exchange,
    };
    let reply = match sized_reply(alloc, &exchange) {
        Err(_) => return Err(ServeEnd::NoMemory),
        Ok(reply) => reply,
    };
    if transcript.add(exchange).is_err() {
        return Err(ServeEnd::NoMemory);
    }
    match sink.put(reply.as_slice()) {
        Err(_) => Err(ServeEnd::WriteFault),
        Ok(()) => Ok(()),
    }
}

// Takes the message that begins at `at` and answers it, or tells how the connection ends. It answers the place behind the
// message.
fn serve_message<R: Wait, S: Source, K: Sink, T: Transcript>(
    rt: &R,
    alloc: Global,
    seat: &mut ClientSeat,
    paging: &mut Paging,
    source: &mut S,
    sink: &mut K,
    transcript: &mut T,
    at: u64,
) -> Result<u64, ServeEnd>
    requires within { at ≤ MOST_SESSION_BYTES }
    requires room { HasPlaceLeft seat.old.held paging.old.held }
    ensures goes { ServesNext S.left K.written T.list source.old source.new
        sink.old sink.new transcript.old transcript.new seat.old seat.new
        paging.old.held paging.new.held at result }
    ensures places { KeepsPlaces seat.old paging.old.held seat.new paging.new.held }
    ensures further { IfOk result (λ next. (at < next) × (next ≤ MOST_SESSION_BYTES)) }
    ensures read { IsErrOf result ServeEnd.ReadFault →
        Rose (S.faults source.old) (S.faults source.new) }
    ensures write { IsErrOf result ServeEnd.WriteFault →
        Rose (K.faults sink.old) (K.faults sink.new) }
    ensures source_later { S.faults source.old ≤ S.faults source.new }
    ensures sink_later { K.faults sink.old ≤ K.faults sink.new }
{
    match read_message(alloc, source, at) {
        Err(end) => Err(end),
        Ok((message, next)) => {
            match answer_message(
                rt,
                alloc,
                seat,
                paging,
                message.as_slice(),
                sink,
                transcript,
            ) {
                Err(end) => Err(end),
                Ok(()) => Ok(next),
            }
        }
    }
}

// Serves one message after the other.
#[tactic(auto, using(crate::proofs::HeldPlaces::places))]
fn serve_messages<R: Wait, S: Source, K: Sink, T: Transcript>(
    rt: &R,
    alloc: Global,
    seat: &mut ClientSeat,
    paging: &mut Paging,
    source: &mut S,
    sink: &mut K,
    transcript: &mut T,
) -> ServeEnd
    requires none { paging.old.held ≡ None }
    requires room { HasPlaceLeft seat.old.held paging.old.held }
    ensures served { ServesToEnd S.left K.written T.list source.old source.new
        sink.old sink.new transcript.old transcript.new seat.old seat.new result }
    ensures places { KeepsPlaces seat.old paging.old.held seat.new paging.new.held }
    ensures read { result ≡ ServeEnd.ReadFault → Rose (S.faults source.old) (S.faults source.new) }
    ensures write { result ≡ ServeEnd.WriteFault → Rose (K.faults sink.old) (K.faults sink.new) }
    ensures source_later { S.faults source.old ≤ S.faults source.new }
    ensures sink_later { K.faults sink.old ≤ K.faults sink.new }
{
    let mut at = 0;
    loop {
        match serve_message(rt, alloc, seat, paging, source, sink, transcript, at) {
            Err(end) => return end,
            Ok(next) => at = next,
        }
    }
}

/// Serves one client's connection until it ends. Each message is answered before the next one is taken: a write by `submit`, a
/// read by `read`, a page of the description of topics by reads at one place, and what is none of these by its error; then the
/// exchange is told, and the reply is written behind its size, by one put. The pages of a walk are of one place, which the seat
/// holds from the first of them to the last, unless its pin is lost; at the end it is given back. So the seat may hold one place more
/// meanwhile.
pub fn serve_client<R: Wait, S: Source, K: Sink, T: Transcript>(
    rt: &R,
    alloc: Global,
    seat: &mut ClientSeat,
    source: &mut S,
    sink: &mut K,
    transcript: &mut T,
) -> ServeEnd
    requires { length seat.old.held < MOST_PLACES }
    // What was taken, written, told and asked of the seat, at each end.
    ensures served { ServesClient S.left K.written T.list source.old source.new
        sink.old sink.new transcript.old transcript.new seat.old seat.new result }
    // The seat's list goes on.
    ensures onward { Onward seat.old.seen seat.new.seen }
    // No place is held any more for pages, unless the seat refused to give it back.
    ensures none { LeavesNone seat.old seat.new }

    // A fault is told only where that object's count rose in this call, and no copy only where the seat's did.
    ensures read { result ≡ ServeEnd.ReadFault → Rose (S.faults source.old) (S.faults source.new) }
    ensures write { result ≡ ServeEnd.WriteFault → Rose (K.faults sink.old) (K.faults sink.new) }
    ensures copy { result ≡ ServeEnd.NoCopy → Rose seat.old.misses seat.new.misses }
    // None of these counts falls.
    ensures source_later { S.faults source.old ≤ S.faults source.new }
    ensures sink_later { K.faults sink.old ≤ K.faults sink.new }
    ensures misses { MayRise seat.old.misses seat.new.misses }

    // Where no count rose: whole messages are served out, and others up to where they break.
    ensures complete { WhereNoneRose S.faults K.faults source.old source.new sink.old sink.new
        seat.old seat.new (ServesMessages (S.left source.old) result) }
    ensures broken { WhereNoneRose S.faults K.faults source.old source.new sink.old sink.new
        seat.old seat.new (ServesUpToBreak (S.left source.old) result) }
{
    let mut paging = Paging::none();
    let end = serve_messages(rt, alloc, seat, &mut paging, source, sink, transcript);
    // Where the seat refuses it, as a worker that stops does, the place stays.
    let _ = paging.let_go(rt, seat);
    end
}
