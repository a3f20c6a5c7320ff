//! A node: a controller, and how much of the list it has.

ghost use Rattle.std.specs.Prelude.{◌≡◌, ◌++◌, ◌∷◌, [], All, FitsSigned, IfOk, IfSome, IsTrue, OnOk, Some, ℤ, if◌then◌else◌};
ghost use Rattle.std.specs.Int.{w32, w64};
ghost use Rattle.kr_defs.specs.OpenOptions.{are_options};
ghost use Rattle.kr_model.specs.Engine.{IsSound, outputs_left};
ghost use Rattle.law_nodes.specs.ReadingBack.{IsHeldEntry};
ghost use Rattle.kr_nodes.specs.inner.Taking as taking;
ghost use Rattle.kr_nodes.specs.inner.Taking.{IsFirstNode, NodeTakes, NotesAdded, ReturnsToEnd};

use crate::ToldReply;
use crate::handing::{Pending, hand_out};
use kr_base::{NoMemory, Steps};
use kr_calls::{Entry, Event};
use kr_defs::{Copied, Item, Items, Options};
use kr_engine::Engine;
use kr_record::record_is_held;
use std::alloc::Global;
use std::collections::VecDeque;
use std::sync::ledger::Ledger;

/// A controller, and how much of the list it has.
pub(crate) struct Node {
    /// The controller.
    pub(crate) engine: Engine,
    /// What waits.
    pub(crate) pending: Pending,
    /// The end of what it had of the list as its leadership began, and of what it settled since.
    pub(crate) settled: i64,
    /// How many batches of the list are below its committed end.
    pub(crate) fed: usize,
    /// How many are below the end of what it settled.
    pub(crate) sent: usize,
}

// By hand, as that of the engine.
impl Drop for Node {
    fn drop(self) {
        let Node {
            engine,
            pending,
            settled,
            fed,
            sent,
        } = self;
    }
}

// What is added to a log can stand in bytes.
fn hold(entries: &[Entry])
    ensures { All IsHeldEntry entries.now }
{
    for entry in entries {
        hold_entry(entry);
    }
}

fn hold_entry(entry: &Entry)
    ensures { IsHeldEntry entry.now }
{
    match entry {
        Entry::Item {
            item: Item::Record(record),
            ..
        } => record_is_held(record),
        _ => {}
    }
}

fn push_item(alloc: Global, items: &mut Vec<Item>, entry: &Entry) -> Result<(), NoMemory>
    ensures { OnOk result (items.new.items ≡ items.old.items ++ taking.entry_items entry.now) }
{
    if let Entry::Item { item, .. } = entry {
        items.push(item.copied(alloc)?)?;
    }
    Ok(())
}

// The items among entries.
fn items_of(alloc: Global, entries: &[Entry]) -> Result<Items, NoMemory>
    ensures { IfOk result (λ items. items ≡ taking.all_items entries.now) }
{
    let mut items = Vec::new(alloc);
    for entry in entries {
        push_item(alloc, &mut items, entry)?;
    }
    Ok(Items::from_vec(items))
}

fn look_at_places(engine: &Engine)
    ensures tip { FitsSigned w64 engine.now.tip }
    ensures epoch { IfSome engine.now.leading (λ epoch. FitsSigned w32 epoch) }
{
    let _tip = engine.tip();
    let _leading = engine.leading();
}

impl Node {
    /// A node to which nothing has happened.
    pub(crate) fn new(alloc: Global, options: Options) -> Result<Node, NoMemory>
        requires { IsTrue (are_options options) }
        ensures { IfOk result (λ node. IsFirstNode options node) }
    {
        Ok(Node {
            engine: Engine::new(alloc, options)?,
            pending: Pending {
                alloc,
                unsettled: VecDeque::new(alloc),
                waiting: VecDeque::new(alloc),
            },
            settled: 0,
            fed: 0,
            sent: 0,
        })
    }

    // What the event added is taken; where it is a write that waits, it waits with these items.
    fn note(&mut self, is_write: bool) -> Result<(), NoMemory>
        ensures { OnOk result (NotesAdded is_write self.old self.new) }
    {
        look_at_places(&self.engine);
        let fresh = self.engine.take_fresh();
        hold(&fresh);
        if is_write {
            let items = items_of(self.pending.alloc, &fresh)?;
            self.pending.waiting.push_back(items)?;
        }
        Ok(())
    }

    /// An event happens, and all outputs are handed out. Of one that is a write that is decided the items wait.
    pub(crate) fn take<L: Ledger>(
        &mut self,
        number: u32,
        event: &Event,
        is_write: bool,
        told: &mut Vec<ToldReply>,
        steps: &mut Steps<L>,
    ) -> Result<(), NoMemory>
        requires sound { IsSound self.old.engine }
        requires drained { outputs_left self.old.engine ≡ [] }
        ensures { OnOk result
            (NodeTakes number self.old self.new is_write told.old.items told.new.items event.now) }
    {
        look_at_places(&self.engine);
        self.engine.step(event, steps)?;
        self.note(is_write)?;
        hand_out(&mut self.engine, number, &mut self.pending, told)
    }

    /// All that it has of the list is below its committed end, and nothing waits to be settled.
    pub(crate) fn return_to_end(&mut self)
        ensures { ReturnsToEnd self.old self.new }
    {
        self.settled = self.engine.committed();
        self.sent = self.fed;
        self.pending.unsettled.clear();
    }
}
