//! A broker that isn't heard of is fenced.

ghost use Rattle.std.specs.Prelude.{◌≡◌, ◌≤◌, ◌+◌, Ok, Some, IsOk, IsSome, OnOk, OnErr, length};
ghost use Rattle.std.specs.Ordering.{int_cmp};
ghost use Rattle.kr_defs.specs.Map as entries;
ghost use Rattle.kr_calls.specs.Deciding.{apply_records, weights};
ghost use Rattle.kr_rules.specs.Handlers.{IsAtPlace};
ghost use Rattle.kr_store.specs.Images.{IsSettled, last_kept};
ghost use Rattle.kr_brokers.specs.Expiry.{FencesExpired};

use kr_base::{NoMemory, Steps};
use kr_calls::Effect;
use kr_calls::laws::taking_out_is_never_refused;
use kr_defs::Record;
use kr_replication::fencing_records;
use kr_sessions::Context;
use kr_store::{ApplyFault, Seen, Store};
use std::alloc::Global;
use std::sync::ledger::Ledger;

// Applies records, each of which has a meaning after the ones before it. Each takes a step.
#[tactic(auto, unfolding(kr_defs::specs::Apply::apply))]
fn apply_all<S: Store, L: Ledger>(
    store: &mut S,
    place: &i64,
    records: &[Record],
    steps: &mut Steps<L>,
) -> Result<(), NoMemory>
    requires kept { IsSome (last_kept (S.images store.old)) }
    requires meanings { IsOk (apply_records (S.images store.old).tip records.now) }
    ensures image { OnOk result (apply_records (S.images store.old).tip records.now ≡
        Ok (S.images store.new).tip) }
    ensures kept { (S.images store.new).kept ≡ (S.images store.old).kept }
    ensures calls { (S.images store.new).kept_made ≡ (S.images store.old).kept_made }
    ensures begins { (S.images store.new).kept_begun ≡ (S.images store.old).kept_begun }
    ensures settled { IsSettled (S.images store.old) → IsSettled (S.images store.new) }
    ensures made { OnOk result ((S.images store.new).made ≤
        (S.images store.old).made + weights (S.images store.old).tip records.now) }
    ensures counted { OnOk result (steps.new ≡ steps.old + length records.now) }
    ensures later { steps.old ≤ steps.new }
{
    for record in records {
        match store.apply_record(*place, record, steps) {
            Ok(()) => {}
            Err(ApplyFault::IllFormed { .. }) => return Ok(()),
            Err(ApplyFault::NoMemory) => return Err(NoMemory),
        }
    }
    Ok(())
}

/// A broker of the contacts is fenced, as its session has expired. The reply stays as it was. Each record is a step.
pub fn fence<S: Store, L: Ledger>(
    alloc: Global,
    store: &mut S,
    context: &Context,
    broker: &i32,
    out: &mut Effect,
    steps: &mut Steps<L>,
) -> Result<(), NoMemory>
    requires here { IsAtPlace (S.images store.old) context.now.place }
    requires registered { IsSome (entries.get int_cmp (S.images store.old).tip.brokers broker.now) }
    ensures records { FencesExpired result context.entry.now.options.now.minimum
        (S.images store.old).tip broker.now out.new.records }
    ensures image { OnOk result (apply_records (S.images store.old).tip out.new.records ≡
        Ok (S.images store.new).tip) }
    ensures reply { out.new.reply ≡ out.old.reply }
    ensures same { OnErr result (out.new ≡ out.old) }
    ensures kept { (S.images store.new).kept ≡ (S.images store.old).kept }
    ensures calls { (S.images store.new).kept_made ≡ (S.images store.old).kept_made }
    ensures begins { (S.images store.new).kept_begun ≡ (S.images store.old).kept_begun }
    ensures settled { IsSettled (S.images store.old) → IsSettled (S.images store.new) }
    ensures made { OnOk result ((S.images store.new).made ≤
        (S.images store.old).made + weights (S.images store.old).tip out.new.records) }
    ensures counted { OnOk result (steps.new ≡ steps.old + length out.new.records) }
    ensures later { steps.old ≤ steps.new }
{
    taking_out_is_never_refused();
    let seen = Seen::tip(store);
    seen.is_valid();
    let Some(state) = seen.broker(broker) else {
        return Ok(());
    };
    let minimum = &context.options.minimum;
    let records = fencing_records(alloc, &seen, minimum, broker, &state.epoch)?;
    apply_all(store, &context.place, records.as_slice(), steps)?;
    out.records = records;
    Ok(())
}
