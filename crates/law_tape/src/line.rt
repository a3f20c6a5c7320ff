//! The lines of a tape.

ghost use Rattle.std.specs.Prelude.{◌≡◌};
ghost use Rattle.law_tape.specs.Rules.{node_told, node_of_change};

use crate::batch::{AppendCall, HeldLeadership, Image, Keep, TapeBatch};
use kr_defs::Rows;

/// What the store showed behind a change.
#[derive(Drop)]
pub struct SeenKeys {
    /// The number of the change's revision.
    pub revision: u64,
    /// The least place under which a batch stands; the log's end where none does.
    pub first: u64,
    /// The place behind the log's last batch.
    pub end: u64,
}

/// A change that the store made. A node is told by its number.
#[derive(Drop)]
pub enum StoreChange {
    /// An append took effect.
    Append { node: usize, call: AppendCall },
    /// An image took the place of batches.
    Drop { node: usize, keep: Keep },
    /// A node took the leadership, with the epoch. A token tells the call.
    Campaign { node: usize, token: u64, epoch: u64 },
    /// A lease ended, and with it the leader key.
    Expire,
    /// Another key was written.
    Other,
}

/// What a node's link or its daemon did.
#[derive(Drop)]
pub enum LinkAct {
    /// The link was told that its campaign took effect.
    Win(HeldLeadership),
    /// It handed its daemon a batch that it read.
    Read(TapeBatch),
    /// It handed its daemon an image.
    Take(Image),
    /// It made its daemon lead.
    Begin(HeldLeadership),
    /// The daemon wrote a batch.
    Write(TapeBatch),
    /// The daemon wrote a batch while a Lost was under way to it.
    Stray(TapeBatch),
    /// The link took a batch from the daemon.
    Hear(TapeBatch),
    /// It passed over a batch of the daemon.
    Pass(TapeBatch),
    /// It called for an append of batches.
    Ask {
        held: HeldLeadership,
        group: Rows<TapeBatch>,
    },
    /// It committed them, up to the place.
    Settle {
        held: HeldLeadership,
        end: u64,
    },
    /// The daemon gave an image, and the link called for it to be kept.
    Give(Keep),
    /// It gave up a leadership of which its daemon was told.
    GiveUp {
        epoch: u64,
    },
    /// It gave up one of which its daemon wasn't told.
    LetGo,
    /// Another daemon took the place of the node's.
    Renew,
}

/// A line of a tape.
#[derive(Drop)]
pub enum Line {
    /// The store made a change.
    Store { seen: SeenKeys, change: StoreChange },
    /// A node's link or daemon did something.
    Link { node: usize, act: LinkAct },
}

impl StoreChange {
    /// The node whose link called for it, 0 where none did.
    pub fn node(&self) -> usize
        ensures { result ≡ node_of_change self.now }
    {
        match self {
            StoreChange::Append { node, .. } => *node,
            StoreChange::Drop { node, .. } => *node,
            _ => 0,
        }
    }
}

impl Line {
    /// The node of which it tells, as `StoreChange::node` does of a change.
    pub fn node(&self) -> usize
        ensures { result ≡ node_told self.now }
    {
        match self {
            Line::Store { change, .. } => change.node(),
            Line::Link { node, .. } => *node,
        }
    }
}
