//! What a link sends its daemon, and what it calls for.

ghost use Rattle.std.specs.Prelude.{◌≡◌, ◌++◌, ℕ, [], OnOk, if◌then◌else◌, option_to_list};
ghost use Rattle.kr_base.specs.Causes.{raised};
ghost use Rattle.kr_link.specs.Outgoing.{events_behind, put_one};

use crate::{LogBatch, StoredImage};
use kr_base::NoMemory;
use kr_defs::Rows;
use std::alloc::Global;
use std::collections::VecDeque;
use std::marker::Model;

/// A frame for the daemon, which counts each as an event.
#[derive(Drop)]
pub enum DaemonFrame {
    /// The next batch of the log.
    Feed(LogBatch),
    /// An image that stands for the log up to its offset.
    Load(StoredImage),
    /// It leads in this epoch, from the end of the log on.
    Lead { epoch: u32, end: u64 },
    /// What it wrote in this epoch up to the end is committed.
    Commit { epoch: u32, end: u64 },
    /// It leads no more in this epoch.
    Lost { epoch: u32 },
    /// Lost of an epoch that nobody ever leads: its refusal tells which one the daemon leads.
    Ping,
    /// The time goes on.
    Tick,
}

/// What a transaction compares that appends batches.
#[derive(Clone, Copy, Debug, Drop, PartialEq, Eq)]
pub struct Guard {
    /// The number of the revision at which the leader key was made.
    pub made: u64,
    /// The log ends at this place.
    pub end: u64,
}

/// What is to be done for a link, in order.
#[derive(Drop)]
pub enum Action {
    /// A frame goes to the daemon.
    Send(DaemonFrame),
    /// The daemon is asked for an image; it counts that as no event.
    AskImage,
    /// The daemon's connection is closed.
    Close,
    /// The end of the log, whether somebody leads, and the image's place are read.
    Look,
    /// The batches between two places are read.
    Read {
        from: u64,
        to: u64,
    },
    /// The image is read.
    ReadImage,
    /// The leadership is taken under a new lease, where nobody has it; the leader key names the token, which no other call has.
    Campaign {
        token: u64,
    },
    /// These batches are appended, where the guard holds.
    Append {
        guard: Guard,
        batches: Rows<LogBatch>,
    },
    /// The batches below a place are dropped, and the image that stands for them takes their place, where the one that stands is of
    /// the place `before`.
    DropBatches {
        before: u64,
        below: u64,
        image: StoredImage,
    },
    /// The lease of the leadership is renewed whose key was made at this revision.
    Renew {
        made: u64,
    },
    /// That lease is given back.
    Resign {
        made: u64,
    },
}

/// What wasn't taken yet of that, the first first.
#[derive(Drop)]
pub struct Outbox {
    actions: VecDeque<Action>,
    events: u64,
}

impl Model for Outbox {
    ghost use Rattle.kr_link.specs.Outgoing.{Outgoing};

    ghost Value = { Outgoing };

    ghost view = { λ s. record { actions = s.actions.items; events = s.events } };
}

fn is_event(action: &Action) -> bool
    ensures { (events : ℕ) → events_behind events action.now
        ≡ (if result then raised events else events) }
{
    matches!(action, Action::Send(_))
}

impl Outbox {
    /// Nothing, for a daemon that was sent nothing.
    pub fn new(alloc: Global) -> Outbox
        ensures { result ≡ record { actions = []; events = 0 } }
    {
        Outbox {
            actions: VecDeque::new(alloc),
            events: 0,
        }
    }

    /// One more, behind all others.
    pub fn put(&mut self, action: Action) -> Result<(), NoMemory>
        ensures { OnOk result (self.new ≡ put_one self.old action) }
    {
        let is_event = is_event(&action);
        self.actions.push_back(action)?;
        if is_event {
            self.events = self.events.saturating_add(1);
        }
        Ok(())
    }

    /// The first of them, which is done next.
    pub fn take(&mut self) -> Option<Action>
        ensures { self.old
            ≡ record self.new { actions = option_to_list result ++ self.new.actions } }
    {
        self.actions.pop_front()
    }

    /// The number of the last event that was put.
    pub fn events(&self) -> u64
        ensures { result ≡ self.now.events }
    {
        self.events
    }

    /// Another daemon connected, to which nothing was sent.
    pub(crate) fn begin(&mut self)
        ensures { self.new ≡ record self.old { events = 0 } }
    {
        self.events = 0;
    }
}
