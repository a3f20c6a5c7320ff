//! Brokers: registered, changed and unregistered.

ghost use Rattle.std.specs.Prelude.{◌≡◌, ◌≤◌, ◌+◌, OnOk, IfOk, pos, int_lt, false, if◌then◌else◌};
ghost use Rattle.std.specs.Option.{option_map_or};
ghost use Rattle.std.specs.Ordering.{int_cmp, int_eq};
ghost use Rattle.kr_defs.specs.Apply as apply;
ghost use Rattle.kr_defs.specs.Image as images;
ghost use Rattle.kr_defs.specs.Image.{IsValid};
ghost use Rattle.kr_defs.specs.Map as map;
ghost use Rattle.kr_image.specs.inner.RecordAnswers.{Changes};
ghost use Rattle.kr_image.specs.Timelines.{Agrees, keeps_of, made_of, present_image};

use crate::entries::{contains, is_full, set_counted, unset_counted};
use crate::registrations::is_small_registration;
use crate::timelines::{ChangeFault, Timelines};
use kr_base::NoMemory;
use kr_defs::limits::MOST_BROKERS;
use kr_defs::{Broker, Copied, Ill};
use std::alloc::Global;

fn has_numbers(id: &i32, state: &Broker) -> bool
    ensures { result ≡ images.has_numbers id.now state.now }
{
    *id >= 0 && state.epoch >= 0
}

fn is_fencing(fenced: &i8) -> bool
    ensures { result ≡ apply.is_fencing fenced.now }
{
    *fenced == -1 || *fenced == 0 || *fenced == 1
}

fn is_flag(stopping: &i8) -> bool
    ensures { result ≡ apply.is_flag stopping.now }
{
    *stopping == 0 || *stopping == 1
}

fn is_fenced_after(was: bool, fenced: &i8) -> bool
    ensures { result ≡ (if int_eq fenced.now (pos 0) then was else int_eq fenced.now (pos 1)) }
{
    if *fenced == 0 { was } else { *fenced == 1 }
}

// The registration after a change of its two flags.
fn with_flags(alloc: Global, old: &Broker, fenced: &i8, stopping: &i8) -> Result<Broker, NoMemory>
    ensures { IfOk result (λ state. state ≡ apply.changed old.now fenced.now stopping.now) }
{
    let mut state = old.copied(alloc)?;
    state.fenced = is_fenced_after(old.fenced, fenced);
    state.stopping = old.stopping || *stopping == 1;
    Ok(state)
}

impl Timelines {
    fn set_broker(&mut self, id: &i32, state: Broker) -> Result<(), NoMemory>
        requires valid { IsValid (present_image self.old) }
        requires agrees { Agrees self.old }
        ensures tip { OnOk result (present_image self.new ≡ record (present_image self.old) { brokers = map.insert int_cmp (present_image self.old).brokers id.now state }) }
        ensures agrees { OnOk result (Agrees self.new) }
        ensures kept { keeps_of self.new ≡ keeps_of self.old }
        ensures made { OnOk result (made_of self.new ≤ made_of self.old + 1) }
    {
        set_counted(&mut self.brokers, &mut self.counts.brokers, *id, state)?;
        Ok(())
    }

    fn unset_broker(&mut self, id: &i32) -> Result<(), NoMemory>
        requires agrees { Agrees self.old }
        ensures tip { OnOk result (present_image self.new ≡ record (present_image self.old) { brokers = map.remove int_cmp (present_image self.old).brokers id.now }) }
        ensures agrees { OnOk result (Agrees self.new) }
        ensures kept { keeps_of self.new ≡ keeps_of self.old }
        ensures made { OnOk result (made_of self.new ≤ made_of self.old + 1) }
    {
        unset_counted(self.alloc, &mut self.brokers, &mut self.counts.brokers, id)?;
        Ok(())
    }

    // A registration with a greater epoch stands.
    fn is_stale(&self, id: &i32, epoch: &i64) -> bool
        ensures { result ≡ option_map_or (λ old. int_lt epoch.now old.epoch) (map.get int_cmp (present_image self.now).brokers id.now) false }
    {
        match self.brokers.get(id) {
            Some(old) => *epoch < old.epoch,
            None => false,
        }
    }

    fn is_full_of_brokers(&self, id: &i32) -> bool
        requires { Agrees self.now }
        ensures { result ≡ map.is_full int_cmp MOST_BROKERS (present_image self.now).brokers id.now }
    {
        !contains(&self.brokers, id) && is_full(self.counts.brokers, MOST_BROKERS)
    }

    /// What RegisterBroker makes of the present image: the broker of this id is registered so, in place of an earlier
    /// registration.
    pub fn register_broker(&mut self, id: &i32, state: &Broker) -> Result<(), ChangeFault>
        requires valid { IsValid (present_image self.old) }
        requires agrees { Agrees self.old }
        ensures changes { Changes self.old self.new result (apply.register_broker (present_image self.old) id.now state.now) }
        ensures agrees { OnOk result (Agrees self.new) }
        ensures kept { keeps_of self.new ≡ keeps_of self.old }
        ensures made { OnOk result (made_of self.new ≤ made_of self.old + 1) }
    {
        if !has_numbers(id, state) {
            return Err(ChangeFault::IllFormed(Ill::BadNumber));
        }
        if self.is_stale(id, &state.epoch) {
            return Err(ChangeFault::IllFormed(Ill::StaleEpoch));
        }
        if self.is_full_of_brokers(id) || !is_small_registration(state) {
            return Err(ChangeFault::IllFormed(Ill::Limit));
        }
        self.set_broker(id, state.copied(self.alloc)?)?;
        Ok(())
    }

    /// What UnregisterBroker makes of it: the broker, registered in this epoch, is gone.
    pub fn unregister_broker(&mut self, id: &i32, epoch: &i64) -> Result<(), ChangeFault>
        requires valid { IsValid (present_image self.old) }
        requires agrees { Agrees self.old }
        ensures changes { Changes self.old self.new result (apply.unregister_broker (present_image self.old) id.now epoch.now) }
        ensures agrees { OnOk result (Agrees self.new) }
        ensures kept { keeps_of self.new ≡ keeps_of self.old }
        ensures made { OnOk result (made_of self.new ≤ made_of self.old + 1) }
    {
        let Some(old) = self.brokers.get(id) else {
            return Err(ChangeFault::IllFormed(Ill::NoBroker));
        };
        if *epoch != old.epoch {
            return Err(ChangeFault::IllFormed(Ill::StaleEpoch));
        }
        self.unset_broker(id)?;
        Ok(())
    }

    /// What BrokerRegistrationChange makes of it, of a broker registered in this epoch: fenced by 1, unfenced by -1, as
    /// before by 0; stopping by 1, as before by 0.
    pub fn change_broker_registration(
        &mut self,
        id: &i32,
        epoch: &i64,
        fenced: &i8,
        stopping: &i8,
    ) -> Result<(), ChangeFault>
        requires valid { IsValid (present_image self.old) }
        requires agrees { Agrees self.old }
        ensures changes { Changes self.old self.new result (apply.change_broker_registration (present_image self.old) id.now epoch.now fenced.now stopping.now) }
        ensures agrees { OnOk result (Agrees self.new) }
        ensures kept { keeps_of self.new ≡ keeps_of self.old }
        ensures made { OnOk result (made_of self.new ≤ made_of self.old + 1) }
    {
        let Some(old) = self.brokers.get(id) else {
            return Err(ChangeFault::IllFormed(Ill::NoBroker));
        };
        if *epoch != old.epoch {
            return Err(ChangeFault::IllFormed(Ill::StaleEpoch));
        }
        if !is_fencing(fenced) || !is_flag(stopping) {
            return Err(ChangeFault::IllFormed(Ill::BadNumber));
        }
        let state = with_flags(self.alloc, old, fenced, stopping)?;
        self.set_broker(id, state)?;
        Ok(())
    }
}
