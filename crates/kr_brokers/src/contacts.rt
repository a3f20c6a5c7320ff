//! Whom a leading controller hears of after a write was decided.

ghost use Rattle.std.specs.Prelude.{◌≡◌, ℤ, IsTrue};
ghost use Rattle.kr_defs.specs.Heartbeats.{stopping_brokers, is_not_before};
ghost use Rattle.kr_defs.specs.Ids.{has};
ghost use Rattle.kr_calls.specs.NextBasis as following;
ghost use Rattle.kr_calls.specs.declared.calls.Request.TheVariants as requests;

use kr_calls::{BrokerHeartbeat, BrokerHeartbeatReply, Reply, Request};
use kr_sessions::Sessions;
use kr_store::{Seen, Store};

fn is_stopping<S: Store>(seen: &Seen<S>, id: &i32) -> bool
    ensures { result ≡ following.broker_is_stopping seen.now id.now }
{
    match seen.broker(id) {
        Some(state) => state.stopping,
        None => false,
    }
}

// An unfenced broker is the last contact; it began to stop where this request set the flag.
#[tactic(auto, using(crate::proofs::StoppingBeats::contacts))]
fn hear_contact<S: Store>(
    sessions: &mut Sessions,
    before: &Seen<S>,
    after: &Seen<S>,
    now: i64,
    place: i64,
    request: &BrokerHeartbeat,
)
    requires time { IsTrue (is_not_before sessions.old.heartbeats now) }
    requires contact_room { IsTrue sessions.old.contact_room }
    requires stopping_room { IsTrue sessions.old.stopping_room }
    requires among { (id : ℤ) → IsTrue (has (stopping_brokers sessions.old.heartbeats) id) → IsTrue (following.broker_is_stopping before.now id) }
    ensures { sessions.new.heartbeats ≡ following.after_contact sessions.old.heartbeats before.now after.now now place request.now }
{
    sessions.beat(request.broker, now, request.offset);
    if is_stopping(after, &request.broker) && !is_stopping(before, &request.broker) {
        sessions.stop(request.broker, place);
    }
}

fn hear_heartbeat<S: Store>(
    sessions: &mut Sessions,
    before: &Seen<S>,
    after: &Seen<S>,
    now: i64,
    place: i64,
    request: &BrokerHeartbeat,
    reply: &BrokerHeartbeatReply,
)
    requires time { IsTrue (is_not_before sessions.old.heartbeats now) }
    requires contact_room { IsTrue sessions.old.contact_room }
    requires stopping_room { IsTrue sessions.old.stopping_room }
    requires among { (id : ℤ) → IsTrue (has (stopping_brokers sessions.old.heartbeats) id) → IsTrue (following.broker_is_stopping before.now id) }
    ensures { sessions.new.heartbeats ≡ following.after_heartbeat sessions.old.heartbeats before.now after.now now place request.now reply.now }
{
    if reply.error != 0 {
        return;
    }
    if reply.fenced {
        sessions.leave(request.broker);
        return;
    }
    hear_contact(sessions, before, after, now, place, request);
}

// With an error number nothing changes, else the broker leaves.
fn hear_leaving(sessions: &mut Sessions, error: &i16, broker: &i32)
    ensures { sessions.new.heartbeats ≡ following.after_leaving sessions.old.heartbeats error.now broker.now }
{
    if *error == 0 {
        sessions.leave(*broker);
    }
}

/// Takes note of whom is heard of after a request that was decided at the place: `before` is the image that it was decided
/// on, and `after` has its records too. It takes no memory.
#[tactic(auto, unfolding(kr_calls::specs::NextBasis::heartbeats_after))]
pub fn hear<S: Store>(
    sessions: &mut Sessions,
    before: &Seen<S>,
    after: &Seen<S>,
    now: i64,
    place: i64,
    request: &Request,
    reply: &Reply,
)
    requires time { IsTrue (is_not_before sessions.old.heartbeats now) }
    requires contact_room { IsTrue sessions.old.contact_room }
    requires stopping_room { IsTrue sessions.old.stopping_room }
    requires among { (id : ℤ) → IsTrue (has (stopping_brokers sessions.old.heartbeats) id) → IsTrue (following.broker_is_stopping before.now id) }
    ensures { sessions.new.heartbeats ≡ following.heartbeats_after sessions.old.heartbeats before.now after.now now place request.now reply.now }
{
    match request {
        Request::BrokerRegistration(asked) => {
            if let Reply::BrokerRegistration(told) = reply {
                hear_leaving(sessions, &told.error, &asked.broker);
            }
        }
        Request::UnregisterBroker(asked) => {
            if let Reply::UnregisterBroker(told) = reply {
                hear_leaving(sessions, &told.error, &asked.broker);
            }
        }
        Request::BrokerHeartbeat(asked) => {
            if let Reply::BrokerHeartbeat(told) = reply {
                hear_heartbeat(sessions, before, after, now, place, asked, told);
            }
        }
        _ => {}
    }
}
