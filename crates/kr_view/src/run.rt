//! What a copy takes in at once.

ghost use Rattle.std.specs.Prelude.{◌≡◌, ◌==◌, [], ◌∷◌, ◌++◌, true, false, length, MatchResult};
ghost use Rattle.kr_view.specs.Runs.{is_single, AreNoSingles};

use kr_calls::Entry;
use std::alloc::Global;
use std::marker::Model;

/// Items, answers and stops. A copy keeps the image behind the last of them alone.
#[derive(Drop)]
pub(crate) struct Run {
    entries: Vec<Entry>,
}

impl Model for Run {
    ghost use Rattle.std.specs.Prelude.{List};
    ghost use Rattle.kr_calls.specs.declared.events.Entry.{Entry as AnyEntry};
    ghost use Rattle.kr_view.specs.Runs.{AreNoSingles};

    ghost Value = { List AnyEntry };

    ghost view = { λ s. s.entries.items };

    ghost invariant = { λ s. AreNoSingles s.entries.items };
}

/// What a copy takes in at once.
#[derive(Drop)]
pub(crate) enum Step {
    /// Entries one after the other.
    Run { run: Run },
    /// An entry by itself.
    Single { single: Single },
}

/// An image in place of all, a pin or an unpin.
#[derive(Drop)]
pub(crate) struct Single {
    entry: Entry,
}

impl Model for Single {
    ghost use Rattle.std.specs.Prelude.{◌≡◌, true};
    ghost use Rattle.kr_calls.specs.declared.events.Entry.{Entry as AnyEntry};
    ghost use Rattle.kr_view.specs.Runs.{is_single};

    ghost Value = { AnyEntry };

    ghost view = { λ s. s.entry };

    ghost invariant = { λ s. is_single s.entry ≡ true };
}

/// It is an image in place of all, a pin or an unpin, which a copy takes in by itself.
pub(crate) fn is_single(entry: &Entry) -> bool
    ensures { result ≡ is_single entry.now }
{
    match entry {
        Entry::Load { .. } | Entry::Pin { .. } | Entry::Unpin { .. } => true,
        Entry::Item { .. } | Entry::Answer { .. } | Entry::Stop { .. } => false,
    }
}

impl Single {
    pub(crate) fn new(entry: Entry) -> Single
        requires { is_single entry ≡ true }
        ensures { result ≡ entry }
    {
        Single { entry }
    }

    pub(crate) fn entry(&self) -> &Entry
        ensures entry { result.now ≡ self.now }
        ensures single { is_single result.now ≡ true }
    {
        &self.entry
    }

    pub(crate) fn into_entry(self) -> Entry
        ensures { result ≡ self }
    {
        self.entry
    }
}

impl Run {
    pub(crate) fn new(alloc: Global) -> Run
        ensures { result ≡ [] }
    {
        Run {
            entries: Vec::new(alloc),
        }
    }

    /// Adds an entry at the end. It comes back where there is no memory for it.
    pub(crate) fn push(&mut self, entry: Entry) -> Result<(), Entry>
        requires { is_single entry ≡ false }
        ensures { MatchResult result (λ _. self.new ≡ self.old ++ entry ∷ []) (λ refused. (refused ≡ entry) × (self.new ≡ self.old)) }
    {
        match self.entries.push(entry) {
            Ok(()) => Ok(()),
            Err(failed) => Err(failed.value),
        }
    }

    pub(crate) fn is_empty(&self) -> bool
        ensures { result ≡ (length self.now == 0) }
    {
        self.entries.is_empty()
    }

    /// The entries, in order.
    pub(crate) fn entries(&self) -> &[Entry]
        ensures entries { result.now ≡ self.now }
        ensures no_singles { AreNoSingles result.now }
    {
        self.entries.as_slice()
    }
}
