//! Where the replicas of a partition are placed.

ghost use Rattle.std.specs.Prelude.{◌≡◌, ◌++◌, ◌∷◌, [], ◌≤ℤ◌, pos, true, false, refl, drop, length, IfOk, IfErr, OnOk, OnErr, Some, None};
ghost use Rattle.std.specs.List.{list_any};
ghost use Rattle.std.specs.Ordering.{int_eq};
ghost use Rattle.kr_wire.specs.Schema as schemas;
ghost use Rattle.kr_wire.specs.Schema.{Is};
ghost use Rattle.kr_door_loop.specs.Answers.{AnswersValue, GivesBy};
ghost use Rattle.kr_door_loop.specs.Placements as placing;
ghost use Rattle.kr_door_loop.specs.Placements.{place_broker, place_question, places};

use crate::{Answer, DoorRefusal, Mine};
use kr_base::NoMemory;
use kr_defs::{Bytes, Copied, Ids, Rows, Text};
use kr_layout::{BodyFault, Get, Put, ReadFault, Reader, read_body};
use kr_place::{PlaceFault, Racked, place};
use std::alloc::Global;

/// A broker that may get a replica.
#[derive(Debug, Drop)]
pub(crate) struct PlaceBroker {
    pub(crate) id: i32,
    /// The name of its rack, if it has one.
    pub(crate) rack: Option<Text>,
}

/// Where the replicas of a partition are placed.
#[derive(Debug, Drop)]
pub(crate) struct PlaceQuestion {
    /// Where the topic's placement begins, at least 0.
    pub(crate) start: i64,
    /// The number of the partition, at least 0.
    pub(crate) index: i32,
    /// How many replicas, at least 1.
    pub(crate) factor: i16,
    /// The brokers, each once.
    pub(crate) brokers: Rows<PlaceBroker>,
}

impl Get<Mine> for PlaceBroker {
    ghost schema = { place_broker };

    ghost is_whole = { refl };

    fn least() -> usize {
        6
    }

    fn get(from: &mut Reader<'_, Mine>) -> Result<PlaceBroker, ReadFault> {
        let broker = PlaceBroker {
            id: from.get()?,
            rack: from.get()?,
        };
        from.end()?;
        Ok(broker)
    }
}

impl Get<Mine> for PlaceQuestion {
    ghost schema = { place_question };

    ghost is_whole = { refl };

    fn least() -> usize {
        16
    }

    fn get(from: &mut Reader<'_, Mine>) -> Result<PlaceQuestion, ReadFault> {
        let question = PlaceQuestion {
            start: from.get()?,
            index: from.get()?,
            factor: from.get()?,
            brokers: from.get()?,
        };
        from.end()?;
        Ok(question)
    }
}

fn has_bad_number(question: &PlaceQuestion) -> bool
    ensures value { result ≡ placing.has_bad_number question.now }
    ensures start { result ≡ false → pos 0 ≤ℤ question.now.start }
    ensures index { result ≡ false → pos 0 ≤ℤ question.now.index }
    ensures factor { result ≡ false → pos 1 ≤ℤ question.now.factor }
{
    question.start < 0 || question.index < 0 || question.factor < 1
}

// Names a broker that isn't named yet.
fn push_broker(alloc: Global, brokers: &mut Racked, broker: &PlaceBroker) -> Result<(), NoMemory>
    requires { list_any (λ other. int_eq broker.now.id other.0) brokers.old ≡ false }
    ensures { OnOk result (brokers.new ≡ brokers.old ++ (broker.now.id, broker.now.rack) ∷ []) }
{
    let rack = Copied::copied(&broker.rack, alloc)?;
    brokers.push(broker.id, rack)
}

// The brokers with their racks, unless one of them stands twice.
fn racked_brokers(alloc: Global, rows: &[PlaceBroker]) -> Result<Option<Racked>, NoMemory>
    ensures { IfOk result (λ brokers. brokers ≡ placing.racked_brokers [] rows.now) }
{
    let mut brokers = Racked::new(alloc);
    for broker in rows {
        if brokers.contains(&broker.id) {
            return Ok(None);
        }
        push_broker(alloc, &mut brokers, broker)?;
    }
    Ok(Some(brokers))
}

fn id_bytes(alloc: Global, ids: &Ids) -> Result<Bytes, NoMemory>
    ensures { IfOk result (λ bytes. bytes ≡ schemas.written (schemas.Array schemas.Int32) ids.now) }
{
    let mut out = Vec::new(alloc);
    ids.put(&Mine, &mut out)?;
    Ok(Bytes::from_vec(out))
}

// The placement on brokers that each stand once.
fn place_on(alloc: Global, question: &PlaceQuestion, brokers: &Racked) -> Answer
    requires start { pos 0 ≤ℤ question.now.start }
    requires index { pos 0 ≤ℤ question.now.index }
    requires factor { pos 1 ≤ℤ question.now.factor }
    ensures { GivesBy (placing.placed_on question.now (Some brokers.now)) result }
{
    match place(
        alloc,
        brokers,
        question.start,
        question.index,
        question.factor,
    ) {
        Ok(ids) => Ok(id_bytes(alloc, &ids)?),
        Err(PlaceFault::TooFew { .. }) => Err(DoorRefusal::TooFew),
        Err(PlaceFault::NoMemory) => Err(DoorRefusal::NoMemory),
    }
}

// The answer to a question that was read.
#[tactic(auto, unfolding(crate::specs::Placements::places))]
fn place_for(alloc: Global, question: &PlaceQuestion) -> Answer
    ensures { GivesBy (places question.now) result }
{
    if has_bad_number(question) {
        return Err(DoorRefusal::BadNumber);
    }
    match racked_brokers(alloc, question.brokers.as_slice())? {
        Some(brokers) => place_on(alloc, question, &brokers),
        None => Err(DoorRefusal::Repeated),
    }
}

/// Where the replicas of a partition are placed.
#[tactic(auto, using(crate::proofs::Calls::value_answered, crate::proofs::Calls::value_forgotten, crate::proofs::Calls::unread_wire, crate::proofs::Calls::unread_rest))]
pub(crate) fn place_replicas(alloc: Global, body: &[u8]) -> Answer
    ensures { AnswersValue (Is place_question) places body.now result }
{
    match read_body::<Mine, PlaceQuestion>(alloc, body, 0) {
        Ok(question) => place_for(alloc, &question),
        Err(BodyFault::Wire(_)) => Err(DoorRefusal::BadBody),
        Err(BodyFault::Trailing) => Err(DoorRefusal::BadBody),
        Err(BodyFault::NoMemory) => Err(DoorRefusal::NoMemory),
    }
}
