//! What the nodes of a cluster share.

ghost use Rattle.std.specs.Prelude.{◌≡◌, ◌++◌, ◌∷◌, [], OnOk};
ghost use Rattle.kr_nodes.specs.inner.Settling.{Joins};

use crate::ToldReply;
use kr_base::NoMemory;
use kr_calls::Event;
use std::alloc::Global;

/// A batch, as a node is fed it.
#[derive(Drop)]
pub(crate) struct ListBatch {
    /// The event that brings it.
    pub(crate) event: Event,
    /// How many items it has.
    pub(crate) count: u32,
}

/// The one list, who was elected, and what was told.
#[derive(Drop)]
pub(crate) struct Shared {
    /// Where memory comes from.
    pub(crate) alloc: Global,
    /// The batches of the list.
    pub(crate) list: Vec<ListBatch>,
    /// How many items they have together.
    pub(crate) length: i64,
    /// The greatest epoch in which a node was elected, at first -1.
    pub(crate) elected: i32,
    /// What clients were told, in order.
    pub(crate) told: Vec<ToldReply>,
}

impl Shared {
    /// The batch is the last of the list.
    pub(crate) fn join(&mut self, batch: ListBatch) -> Result<(), NoMemory>
        ensures { OnOk result (Joins self.old self.new batch) }
    {
        self.length = self.length.saturating_add(i64::from(batch.count));
        self.list.push(batch)?;
        Ok(())
    }
}
