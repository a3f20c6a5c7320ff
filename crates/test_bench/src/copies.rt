//! Copies of an image: one change is published again and again, or one topic is read, by one thread or by each of two.

ghost use Rattle.std.specs.Prelude.{◌≡◌, false, true, IfOk, IsTrue, OnOk};
ghost use Rattle.kr_calls.specs.Decide.{is_read};
ghost use Rattle.kr_view.specs.Staged.{is_begin, is_logged};
ghost use Rattle.kr_view.specs.StagedLaws.{HasNothing, IsLogged};

use crate::entries::add_topic;
use anyhow::{Result, bail};
use kr_calls::{
    Call, Entry, Metadata, MetadataRequestTopic, MetadataRequestTopics, Reply, Request,
};
use kr_defs::{Item, Options, PartitionChange, Record, Records, Text};
use kr_view::laws::logged_entries_are_right;
use kr_view::{Opening, Publisher, ReaderSeat, ReaderSeats, open};
use std::alloc::{AllocError, Global};
use std::sync::Wait;
use std::thread;
use std::thread::Threads;

/// The id of the one topic with many partitions, and that of the topic that is read, which has one.
const MANY: u128 = 1;

const ONE: u128 = 2;

/// The place of the image.
const OFFSET: i64 = 1;

/// What is done with copies.
#[derive(Clone, Copy)]
pub(crate) enum Work {
    /// A change is published.
    Publish,
    /// The one topic is read so often by each of so many threads, two at most.
    Look(usize),
}

/// Copies of so many partitions.
#[derive(Clone, Copy)]
pub(crate) struct Copies {
    pub work: Work,
    pub partitions: i32,
}

impl Copies {
    /// Does it so often. Whether what came was the right one.
    pub(crate) fn are_done<R: Wait + Threads + Sync>(
        self,
        rt: &R,
        alloc: Global,
        rounds: u32,
    ) -> Result<bool> {
        let mut opening = Opening::new();
        let Ok((mut publisher, seats)) = open(rt, alloc, &mut opening, options(alloc), 2) else {
            bail!("no copies are opened");
        };
        let are_done = self.show_and_do(rt, alloc, &mut publisher, seats, rounds);
        publisher.close(rt);
        are_done
    }

    fn show_and_do<R: Wait + Threads + Sync>(
        self,
        rt: &R,
        alloc: Global,
        publisher: &mut Publisher,
        seats: ReaderSeats,
        rounds: u32,
    ) -> Result<bool>
        requires { HasNothing publisher.old }
    {
        show(rt, publisher, image(alloc, self.partitions)?, OFFSET)?;
        match self.work {
            Work::Publish => publish_changes(rt, publisher, rounds),
            Work::Look(threads) => look(
                rt,
                seats.into_vec(),
                threads,
                &Question::new(alloc)?,
                rounds,
            ),
        }
    }
}

fn options(alloc: Global) -> Options {
    Options {
        node: 1,
        salt: 1,
        session_ms: 9_000,
        partitions: 1,
        factor: 1,
        minimum: 1,
        cluster: Text::new(alloc),
    }
}

// The two topics with so many partitions together, as an image.
fn image(alloc: Global, partitions: i32) -> Result<Entry>
    ensures { IfOk result (λ e. (is_logged e ≡ true) × (is_begin e ≡ false)) }
{
    let mut records = Records::new(alloc);
    add_topic(alloc, 0, partitions.wrapping_sub(1), &mut records)?;
    add_topic(alloc, 1, 1, &mut records)?;
    Ok(Entry::Load {
        offset: OFFSET,
        records,
    })
}

// The first partition has another leader.
fn change(round: u32) -> Entry
    ensures logged { is_logged result ≡ true }
    ensures begins { is_begin result ≡ false }
{
    Entry::Item {
        place: i64::from(round) + 1,
        item: Item::Record(Record::PartitionChange {
            index: 0,
            topic: MANY,
            change: PartitionChange {
                in_sync: None,
                replicas: None,
                removing: None,
                adding: None,
                eligible: None,
                last_known: None,
                leader: Some((round % 3) as i32),
                recovery: None,
            },
        }),
    }
}

// Stages an entry and publishes it.
fn show<R: Wait>(rt: &R, publisher: &mut Publisher, entry: Entry, end: i64) -> Result<()>
    requires nothing { HasNothing publisher.old }
    requires logged { is_logged entry ≡ true }
    requires begins { is_begin entry ≡ false }
    ensures { OnOk result (HasNothing publisher.new) }
{
    if publisher.stage(entry).is_err() {
        bail!("an entry isn't staged");
    }
    logged_entries_are_right();
    if publisher.publish(rt, end).is_err() {
        bail!("an entry isn't published");
    }
    publisher.drop_staged();
    Ok(())
}

fn publish_changes<R: Wait>(rt: &R, publisher: &mut Publisher, rounds: u32) -> Result<bool>
    requires { HasNothing publisher.old }
{
    for round in 0..rounds {
        show(rt, publisher, change(round), i64::from(round) + 2)?;
    }
    Ok(true)
}

/// A read of the one topic.
#[derive(Drop)]
struct Question {
    call: Call,
    ghost read: { IsTrue (is_read call.request) },
}

impl Question {
    fn new(alloc: Global) -> Result<Question, AllocError> {
        let mut topics = MetadataRequestTopics::new(alloc);
        topics.push(MetadataRequestTopic {
            topic: ONE,
            name: None,
        })?;
        let request = Request::Metadata(Metadata {
            topics: Some(topics),
        });
        Ok(Question {
            call: Call {
                correlation: 1,
                request,
            },
        })
    }

    // Asks so often. False where the one topic wasn't there.
    fn is_answered(&self, mut seat: ReaderSeat, rounds: u32) -> bool {
        for _ in 0..rounds {
            let reply = seat.read(&self.call);
            match &reply {
                Ok(Reply::Metadata(reply)) if reply.topics.len() == 1 => {}
                _ => return false,
            }
        }
        true
    }
}

// Each of so many seats asks in a thread of its own.
fn look<R: Threads + Sync>(
    rt: &R,
    seats: Vec<ReaderSeat>,
    threads: usize,
    question: &Question,
    rounds: u32,
) -> Result<bool> {
    let mut seats = seats;
    seats.truncate(threads);
    let answered = thread::map_vec(
        rt,
        seats,
        &|seat: ReaderSeat| question.is_answered(seat, rounds),
    )?;
    Ok(answered.len() == threads && !answered.contains(&false))
}
