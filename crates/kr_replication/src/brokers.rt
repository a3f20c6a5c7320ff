//! The brokers of an image by what they may do.

ghost use Rattle.std.specs.Prelude.{◌≡◌, ◌++◌, ◌&&◌, not, [], ◌∷◌, ℤ, Bool, IfOk, OnOk};
ghost use Rattle.kr_defs.specs.declared.broker.Broker.{Broker as AnyBroker};
ghost use Rattle.kr_defs.specs.Brokers as brokers;
ghost use Rattle.kr_defs.specs.Ids.{has};
ghost use Rattle.kr_replication.specs.BrokerIds.{ids_where};

use kr_base::NoMemory;
use kr_defs::{Broker, Ids};
use kr_store::{Seen, Store};
use std::alloc::Global;

/// The broker is neither fenced nor stopping.
pub fn is_active(state: &Broker) -> bool
    ensures { result ≡ brokers.is_active state.now }
{
    !state.fenced && !state.stopping
}

/// Which brokers are looked for.
pub trait BrokerTest {
    ghost accepts: { Self → ℤ × AnyBroker → Bool };

    /// Whether the registered broker of this id is looked for.
    fn accepts(&self, id: &i32, state: &Broker) -> bool
        ensures { result ≡ accepts self.now (id.now, state.now) };
}

fn add_if<T: BrokerTest>(ids: &mut Ids, test: &T, id: &i32, state: &Broker) -> Result<(), NoMemory>
    ensures { OnOk result (ids.new ≡ ids.old ++ ids_where (T.accepts test.now) ((id.now, state.now) ∷ [])) }
{
    if test.accepts(id, state) {
        ids.push(*id)?;
    }
    Ok(())
}

/// The brokers that the test accepts, by id.
pub fn brokers_where<T: BrokerTest, S: Store>(
    alloc: Global,
    seen: &Seen<S>,
    test: &T,
) -> Result<Ids, NoMemory>
    ensures { IfOk result (λ ids. ids ≡ ids_where (T.accepts test.now) seen.now.brokers) }
{
    seen.is_valid();
    let mut ids = Ids::new(alloc);
    let mut after = None;
    while let Some((id, state)) = seen.next_broker(after) {
        add_if(&mut ids, test, id, state)?;
        after = Some(id);
    }
    Ok(ids)
}

/// The active brokers.
#[derive(Clone, Copy, Drop)]
pub struct ActiveOnes;

impl BrokerTest for ActiveOnes {
    ghost accepts = { λ t e. brokers.is_active e.1 };

    fn accepts(&self, _id: &i32, state: &Broker) -> bool {
        is_active(state)
    }
}

/// The active brokers but for one.
#[derive(Clone, Copy, Drop)]
pub(crate) struct ActiveOthers {
    broker: i32,
}

/// All active brokers but this one.
pub(crate) fn others_than(broker: &i32) -> ActiveOthers
    ensures { result ≡ record { broker = broker.now } }
{
    ActiveOthers { broker: *broker }
}

impl BrokerTest for ActiveOthers {
    ghost accepts = { λ t e. brokers.is_active e.1 && not (has (t.broker ∷ []) e.0) };

    fn accepts(&self, id: &i32, state: &Broker) -> bool {
        is_active(state) && self.broker != *id
    }
}
