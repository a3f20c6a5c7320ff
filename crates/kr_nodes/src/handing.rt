//! What a controller hands out is kept, and told to clients.

ghost use Rattle.std.specs.Prelude.{◌≡◌, ◌++◌, ◌∷◌, [], IfOk, IsTrue, OnOk};
ghost use Rattle.kr_calls.specs.declared.events.Event.TheVariants as events;
ghost use Rattle.kr_model.specs.Engine.{writes_in_order};
ghost use Rattle.kr_nodes.specs.inner.Handing as handing;
ghost use Rattle.kr_nodes.specs.inner.Handing.{HandsOut, handed_over};

use crate::ToldReply;
use crate::shared::ListBatch;
use kr_base::NoMemory;
use kr_batch::head;
use kr_calls::{AnswerKind, Event, Output, Reply};
use kr_defs::{Bytes, Items};
use kr_engine::Engine;
use kr_model::{Ended, Told as Output_};
use std::alloc::Global;
use std::collections::VecDeque;

/// What a node appended that isn't in the list, and the items of the writes that wait, both in order.
#[derive(Drop)]
pub(crate) struct Pending {
    pub(crate) alloc: Global,
    pub(crate) unsettled: VecDeque<ListBatch>,
    pub(crate) waiting: VecDeque<Items>,
}

// A client of a node, and the number of its request.
#[derive(Clone, Copy, Drop)]
struct Asker {
    node: u32,
    client: u32,
    correlation: i32,
}

// How many items the batch has, 0 where the bytes are none.
fn count_in(bytes: &Bytes) -> u32
    ensures { result ≡ handing.count_in bytes.now }
{
    match head(bytes.as_slice()) {
        Some(heading) => heading.count as u32,
        None => 0,
    }
}

fn batch_of(bytes: Bytes) -> ListBatch
    ensures { result ≡ handing.list_batch_in bytes }
{
    let count = count_in(&bytes);
    ListBatch {
        event: Event::Batch { bytes },
        count,
    }
}

fn told_unplaced(alloc: Global, asker: Asker, reply: Reply) -> ToldReply
    ensures { result ≡ handing.told_unplaced asker.node asker.client asker.correlation reply }
{
    ToldReply {
        node: asker.node,
        client: asker.client,
        correlation: asker.correlation,
        place: -1,
        items: Items::new(alloc),
        reply,
    }
}

fn told_at(asker: Asker, place: i64, items: Items, reply: Reply) -> ToldReply
    ensures { result ≡ handing.told_at asker.node asker.client asker.correlation place items reply }
{
    ToldReply {
        node: asker.node,
        client: asker.client,
        correlation: asker.correlation,
        place,
        items,
        reply,
    }
}

impl Pending {
    // The items of the write that waits longest.
    fn next_items(&mut self) -> Items
        ensures items { result ≡ handing.first_items self.old.waiting.items }
        ensures rest { self.new.waiting.items ≡ handing.other_items self.old.waiting.items }
        ensures same { self.new.unsettled ≡ self.old.unsettled }
    {
        match self.waiting.pop_front() {
            Some(items) => items,
            None => Items::new(self.alloc),
        }
    }

    // The reply of a write that waited.
    fn reply_ended(&mut self, asker: Asker, reply: Reply, ended: Ended) -> ToldReply
        ensures told { result ≡ handing.told_end asker.node asker.client asker.correlation reply
            ended (handing.first_items self.old.waiting.items) }
        ensures rest { self.new.waiting.items ≡ handing.other_items self.old.waiting.items }
        ensures same { self.new.unsettled ≡ self.old.unsettled }
    {
        let items = self.next_items();
        match ended.kind {
            AnswerKind::Stands => told_at(asker, ended.decided.place, items, reply),
            _ => told_unplaced(self.alloc, asker, reply),
        }
    }

    fn reply(&mut self, asker: Asker, reply: Reply, ended: Option<Ended>) -> ToldReply
        ensures told { result ≡ handing.told_with asker.node asker.client asker.correlation reply
            (handing.first_items self.old.waiting.items) ended }
        ensures rest { self.new.waiting.items ≡ handing.waiting_by ended self.old.waiting.items }
        ensures same { self.new.unsettled ≡ self.old.unsettled }
    {
        match ended {
            Some(ended) => self.reply_ended(asker, reply, ended),
            None => told_unplaced(self.alloc, asker, reply),
        }
    }

    fn keep(&mut self, bytes: Bytes) -> Result<(), NoMemory>
        ensures unsettled { OnOk result (self.new.unsettled.items
            ≡ self.old.unsettled.items ++ handing.list_batch_in bytes ∷ []) }
        ensures waiting { self.new.waiting ≡ self.old.waiting }
    {
        self.unsettled.push_back(batch_of(bytes))?;
        Ok(())
    }

    fn tell(
        &mut self,
        asker: Asker,
        reply: Reply,
        ended: Option<Ended>,
        told: &mut Vec<ToldReply>,
    ) -> Result<(), NoMemory>
        ensures { OnOk result (handed_over self.new told.new.items
            ≡ handing.after_reply asker.node asker.client asker.correlation reply ended
            (handed_over self.old told.old.items)) }
    {
        let reply = self.reply(asker, reply, ended);
        told.push(reply)?;
        Ok(())
    }

    // One output of a node is kept, or told.
    fn take(
        &mut self,
        node: u32,
        output: Output,
        ended: Option<Ended>,
        told: &mut Vec<ToldReply>,
    ) -> Result<(), NoMemory>
        ensures { OnOk result (handed_over self.new told.new.items ≡
            handing.after_given node (handed_over self.old told.old.items) ended output) }
    {
        match output {
            Output::Append { bytes } => self.keep(bytes),
            Output::Reply {
                client,
                correlation,
                reply,
            } => {
                let asker = Asker {
                    node,
                    client,
                    correlation,
                };
                self.tell(asker, reply, ended, told)
            }
            Output::Refused { .. } | Output::Image { .. } => Ok(()),
        }
    }
}

/// All outputs of the last event are handed out.
pub(crate) fn hand_out(
    engine: &mut Engine,
    node: u32,
    pending: &mut Pending,
    told: &mut Vec<ToldReply>,
) -> Result<(), NoMemory>
    requires { IsTrue (writes_in_order engine.old.held) }
    ensures { OnOk result (HandsOut node engine.old engine.new
        (handed_over pending.old told.old.items) (handed_over pending.new told.new.items)) }
{
    while let Some(output) = engine.next_told() {
        let Output_ { output, ended } = output;
        pending.take(node, output, ended, told)?;
    }
    Ok(())
}
