//! Who leads a partition.

ghost use Rattle.std.specs.Prelude.{◌≡◌, ◌++◌, ◌∷◌, [], refl, drop, length, IfOk, OnOk, OnErr};
ghost use Rattle.std.specs.Int.{w32};
ghost use Rattle.kr_wire.specs.Schema.{Is};
ghost use Rattle.kr_wire.specs.Spelling.{signed};
ghost use Rattle.kr_door_loop.specs.Answers.{AnswersValue, GivesBy};
ghost use Rattle.kr_door_loop.specs.Elections as votes;
ghost use Rattle.kr_door_loop.specs.Elections.{elect_question, elects};

use crate::{Answer, DoorRefusal, Mine};
use kr_base::NoMemory;
use kr_change::elect;
use kr_defs::{Bytes, Choice, Facts, Ids, Mode, Partition};
use kr_layout::{BodyFault, Get, ReadFault, Reader, read_body};
use kr_wire::put_i32;
use std::alloc::Global;

/// Who leads a partition, by its lists and its leader, and by which brokers are active.
#[derive(Debug, Drop)]
pub(crate) struct ElectQuestion {
    /// The brokers that keep a copy; the first is the preferred leader.
    pub(crate) replicas: Ids,
    /// The replicas in sync with the leader.
    pub(crate) in_sync: Ids,
    /// Out of sync, but they have all below the high watermark (KIP-966).
    pub(crate) eligible: Ids,
    /// The leader's id, -1 where there is none.
    pub(crate) leader: i32,
    /// The brokers that are neither fenced nor shutting down.
    pub(crate) active: Ids,
    /// The first replica is to lead where it can.
    pub(crate) preferred: bool,
    /// Whether unclean election is on.
    pub(crate) unclean: bool,
    /// The broker that has restarted uncleanly, below 0 where none has.
    pub(crate) restarted: i32,
}

impl Get<Mine> for ElectQuestion {
    ghost schema = { elect_question };

    ghost is_whole = { refl };

    fn least() -> usize {
        15
    }

    fn get(from: &mut Reader<'_, Mine>) -> Result<ElectQuestion, ReadFault> {
        let question = ElectQuestion {
            replicas: from.get()?,
            in_sync: from.get()?,
            eligible: from.get()?,
            leader: from.get()?,
            active: from.get()?,
            preferred: from.get()?,
            unclean: from.get()?,
            restarted: from.get()?,
        };
        from.end()?;
        Ok(question)
    }
}

fn mode_of(question: &ElectQuestion) -> Mode
    ensures { result ≡ votes.mode_of question.now }
{
    if question.preferred {
        Mode::Preferred
    } else {
        Mode::Plain
    }
}

fn restarted_of(question: &ElectQuestion) -> Option<i32>
    ensures { result ≡ votes.restarted_of question.now }
{
    if question.restarted < 0 {
        None
    } else {
        Some(question.restarted)
    }
}

// The partition, and what is known besides it.
fn parts_of(alloc: Global, question: ElectQuestion) -> (Partition, Facts)
    ensures { result ≡ (votes.partition_of question, votes.facts_for question) }
{
    let ElectQuestion {
        replicas,
        in_sync,
        eligible,
        leader,
        active,
        unclean,
        ..
    } = question;
    let partition = Partition {
        replicas,
        in_sync,
        eligible,
        last_known: Ids::new(alloc),
        adding: Ids::new(alloc),
        removing: Ids::new(alloc),
        leader,
        recovery: 0,
        leader_epoch: 0,
        partition_epoch: 0,
    };
    let facts = Facts {
        active,
        unclean,
        minimum: 1,
    };
    (partition, facts)
}

fn choice_number(choice: Choice) -> u8
    ensures { result ≡ votes.choice_number choice }
{
    match choice {
        Choice::InSync => 0,
        Choice::Eligible => 1,
        Choice::Unclean => 2,
        Choice::Nobody => 3,
    }
}

fn ballot(alloc: Global, elected: &(i32, Choice)) -> Result<Bytes, NoMemory>
    ensures { IfOk result (λ bytes. bytes ≡ votes.ballot elected.now) }
{
    let mut out = Vec::new(alloc);
    put_i32(&mut out, elected.0)?;
    out.push(choice_number(elected.1))?;
    Ok(Bytes::from_vec(out))
}

// The answer to a question that was read.
#[tactic(auto, unfolding(crate::specs::Elections::elects))]
fn elect_for(alloc: Global, question: ElectQuestion) -> Answer
    ensures { GivesBy (elects question) result }
{
    let mode = mode_of(&question);
    let restarted = restarted_of(&question);
    let (partition, facts) = parts_of(alloc, question);
    let elected = elect(
        &partition,
        &partition.replicas,
        &partition.in_sync,
        mode,
        restarted,
        &facts,
    );
    Ok(ballot(alloc, &elected)?)
}

/// Who leads a partition.
#[tactic(auto, using(crate::proofs::Calls::value_answered, crate::proofs::Calls::value_forgotten, crate::proofs::Calls::unread_wire, crate::proofs::Calls::unread_rest))]
pub(crate) fn elect_leader(alloc: Global, body: &[u8]) -> Answer
    ensures { AnswersValue (Is elect_question) elects body.now result }
{
    match read_body::<Mine, ElectQuestion>(alloc, body, 0) {
        Ok(question) => elect_for(alloc, question),
        Err(BodyFault::Wire(_)) => Err(DoorRefusal::BadBody),
        Err(BodyFault::Trailing) => Err(DoorRefusal::BadBody),
        Err(BodyFault::NoMemory) => Err(DoorRefusal::NoMemory),
    }
}
