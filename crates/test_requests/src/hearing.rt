//! Whom the controller hears of after a request.

ghost use Rattle.std.specs.Prelude.{◌≡◌, ◌∷◌, [], IfOk, OnOk};
ghost use Rattle.kr_defs.specs.Heartbeats as heartbeats;
ghost use Rattle.kr_calls.specs.NextBasis as following;
ghost use Rattle.testlib_rule_answers.specs.Histories.{AreEpochs};
ghost use Rattle.kr_rules.specs.Progress.{base_of};
ghost use Rattle.test_requests.specs.StoppingBrokers as led;

use kr_base::NoMemory;
use kr_calls::{Reply, Request};
use kr_defs::Stopping;
use kr_image::ImageStore;
use kr_sessions::Sessions;
use kr_store::Seen;
use testlib_rule_answers::is_not_before;
use testlib_words::RowFault;

/// Takes note of whom is heard of after the request, which was decided on the image that is kept under the place.
#[tactic(auto, using(crate::proofs::NextPlaces::hearing))]
pub(crate) fn hear(
    sessions: &mut Sessions,
    store: &ImageStore,
    now: i64,
    place: i64,
    request: &Request,
    reply: &Reply,
) -> Result<(), RowFault>
    requires { AreEpochs store.now.kept (place ∷ []) }
    ensures { OnOk result (sessions.new.heartbeats ≡ following.heartbeats_after
        sessions.old.heartbeats (base_of store.now) store.now.tip now place request.now reply.now) }
{
    sessions.reserve()?;
    if !is_no_earlier(sessions, &now)? {
        return Err(RowFault::Fields);
    }
    let before = seen_before(store, &place);
    if !are_all_stopping(sessions, &before)? {
        return Err(RowFault::Fields);
    }
    let after = Seen::tip(store);
    kr_brokers::hear(sessions, &before, &after, now, place, request, reply);
    Ok(())
}

// The time isn't before that of the last contact.
fn is_no_earlier(sessions: &Sessions, now: &i64) -> Result<bool, NoMemory>
    ensures { IfOk result (λ is. is ≡ heartbeats.is_not_before sessions.now.heartbeats now.now) }
{
    let contacts = sessions.contacts()?;
    Ok(is_not_before(contacts.as_slice(), now))
}

// The image that is kept under the place.
#[tactic(auto, using(crate::proofs::NextPlaces::hearing))]
fn seen_before<'a>(store: &'a ImageStore, place: &i64) -> Seen<'a, ImageStore>
    requires { AreEpochs store.now.kept (place.now ∷ []) }
    ensures { result ≡ base_of store.now }
{
    Seen::last(store, place)
}

// Those that are stopping are so in the image.
fn are_all_stopping(sessions: &Sessions, seen: &Seen<ImageStore>) -> Result<bool, NoMemory>
    ensures { IfOk result (λ are. are ≡ led.are_stopping seen.now
        sessions.now.heartbeats.stopping) }
{
    let stops = sessions.stops()?;
    Ok(are_stopping(seen, stops.as_slice()))
}

fn are_stopping(seen: &Seen<ImageStore>, stops: &[Stopping]) -> bool
    ensures { result ≡ led.are_stopping seen.now stops.now }
{
    match stops.split_first() {
        None => true,
        Some((first, others)) => { is_stopping(seen, &first.broker) && are_stopping(seen, others) }
    }
}

fn is_stopping(seen: &Seen<ImageStore>, id: &i32) -> bool
    ensures { result ≡ following.broker_is_stopping seen.now id.now }
{
    match seen.broker(id) {
        Some(state) => state.stopping,
        None => false,
    }
}
