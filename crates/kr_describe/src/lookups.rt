//! What a page asks of the image, one record at a time.

ghost use Rattle.std.specs.Prelude.{◌≡◌, ℕ, ℤ, [], ◌∷◌, ◌++◌, List, FitsSigned, IfOk, IfSome, OnOk, Some, filter, slice_get};
ghost use Rattle.std.specs.Int.{w32};
ghost use Rattle.std.specs.Option.{option_map};
ghost use Rattle.kr_calls.specs.Metadata.{is_offline};
ghost use Rattle.kr_defs.specs.declared.partition.Partition.{Partition as AnyPartition};
ghost use Rattle.kr_defs.specs.Map.{above, get, text_order};
ghost use Rattle.kr_defs.specs.Walk.{rest_of_topic};
ghost use Rattle.kr_describe.specs.SteadyReads.{GoesSteadily, IsSteady, steady_image};

use crate::record_fields::{id_in, is_offline_in, name_in, partition_in};
use crate::steady::{PageFault, Steady};
use kr_defs::limits::LAST_INDEX;
use kr_defs::{Copied, Ids, Partition, Text};
use kr_view::{RecordKey, RecordReader};
use std::alloc::Global;

/// The id of the topic of a name.
#[tactic(auto, using(crate::proofs::Going::goings, crate::proofs::LookedUp::topic_found))]
pub(crate) fn topic_id<R: RecordReader>(
    alloc: Global,
    steady: &Steady,
    reader: &mut R,
    name: &Text,
) -> Result<Option<u128>, PageFault>
    requires { IsSteady steady.now (R.reading reader.old) }
    ensures went { GoesSteadily R.reading R.with_reading steady.now reader.old reader.new result }
    ensures id { IfOk result (λ id. id ≡ get text_order
        (steady_image steady.now (R.reading reader.old)).topics name.now) }
{
    let key = RecordKey::Topic {
        name: name.copied(alloc)?,
    };
    let found = steady.one(reader, &key)?;
    Ok(id_in(&found))
}

/// The name of the topic behind a name.
#[tactic(auto, using(crate::proofs::Going::goings, crate::proofs::LookedUp::topic_next))]
pub(crate) fn next_name<R: RecordReader>(
    alloc: Global,
    steady: &Steady,
    reader: &mut R,
    name: &Text,
) -> Result<Option<Text>, PageFault>
    requires { IsSteady steady.now (R.reading reader.old) }
    ensures went { GoesSteadily R.reading R.with_reading steady.now reader.old reader.new result }
    ensures name { IfOk result (λ next. next ≡ option_map (λ (e : List ℕ × ℕ). e.0)
        (slice_get (above text_order (steady_image steady.now (R.reading reader.old)).topics
        (Some name.now)) 0)) }
{
    let last = RecordKey::Partition {
        topic: name.copied(alloc)?,
        index: LAST_INDEX,
    };
    let found = steady.next(reader, &last)?;
    Ok(name_in(alloc, &found)?)
}

/// The partition of a topic behind an index, with its own.
#[tactic(auto, using(crate::proofs::Going::goings, crate::proofs::LookedUp::partition_next))]
pub(crate) fn next_partition<R: RecordReader>(
    alloc: Global,
    steady: &Steady,
    reader: &mut R,
    name: &Text,
    id: &u128,
    index: i32,
) -> Result<Option<(i32, Partition)>, PageFault>
    requires steady { IsSteady steady.now (R.reading reader.old) }
    requires named { get text_order (steady_image steady.now (R.reading reader.old)).topics name.now
        ≡ Some id.now }
    ensures went { GoesSteadily R.reading R.with_reading steady.now reader.old reader.new result }
    ensures fits { IfOk result (λ next. IfSome next (λ p. FitsSigned w32 p.0)) }
    ensures partition { IfOk result (λ next. next ≡ option_map
        (λ (e : (ℕ × ℤ) × AnyPartition). (e.0.1, e.1)) (slice_get (rest_of_topic (id.now, index)
        (steady_image steady.now (R.reading reader.old)).partitions) 0)) }
{
    let last = RecordKey::Partition {
        topic: name.copied(alloc)?,
        index,
    };
    let found = steady.next(reader, &last)?;
    Ok(partition_in(alloc, &found)?)
}

#[tactic(auto, using(crate::proofs::Going::goings, crate::proofs::LookedUp::broker_found))]
fn is_broker_offline<R: RecordReader>(
    steady: &Steady,
    reader: &mut R,
    id: i32,
) -> Result<bool, PageFault>
    requires { IsSteady steady.now (R.reading reader.old) }
    ensures went { GoesSteadily R.reading R.with_reading steady.now reader.old reader.new result }
    ensures offline { IfOk result (λ b. b ≡ is_offline
        (steady_image steady.now (R.reading reader.old)) id) }
{
    let key = RecordKey::Broker { id };
    let found = steady.one(reader, &key)?;
    Ok(is_offline_in(&found))
}

// The broker, where it is fenced or not registered.
#[tactic(auto, using(crate::proofs::Going::goings))]
fn add_offline<R: RecordReader>(
    steady: &Steady,
    reader: &mut R,
    id: &i32,
    offline: &mut Ids,
) -> Result<(), PageFault>
    requires { IsSteady steady.now (R.reading reader.old) }
    ensures went { GoesSteadily R.reading R.with_reading steady.now reader.old reader.new result }
    ensures offline { OnOk result (offline.new ≡ offline.old ++ filter
        (is_offline (steady_image steady.now (R.reading reader.old))) (id.now ∷ [])) }
{
    if is_broker_offline(steady, reader, *id)? {
        offline.push(*id)?;
    }
    Ok(())
}

/// The replicas whose brokers are fenced or not registered.
#[tactic(auto, using(crate::proofs::SoFar::ends))]
pub(crate) fn offline_among<R: RecordReader>(
    alloc: Global,
    steady: &Steady,
    reader: &mut R,
    replicas: &[i32],
) -> Result<Ids, PageFault>
    requires { IsSteady steady.now (R.reading reader.old) }
    ensures went { GoesSteadily R.reading R.with_reading steady.now reader.old reader.new result }
    ensures offline { IfOk result (λ ids. ids ≡ filter
        (is_offline (steady_image steady.now (R.reading reader.old))) replicas.now) }
{
    let mut offline = Ids::new(alloc);
    for id in replicas {
        add_offline(steady, reader, id, &mut offline)?;
    }
    Ok(offline)
}
