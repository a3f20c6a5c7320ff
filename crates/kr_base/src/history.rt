//! A list that exists in proofs alone.

ghost use Rattle.std.specs.Prelude.{◌≡◌, [], ◌∷◌, ◌++◌};

use std::marker::Model;
use std::snapshot::Snapshot;

// What a history is: nothing, or an earlier history and one value more.
#[derive(Drop)]
pub(crate) enum Past<A> {
    Nothing,
    More {
        before: Snapshot<Snapshot<Past<A>>>,
        value: Snapshot<A>,
    },
}

/// The values that something has come through, in order. A clause sees the list; a program has no bytes of it.
#[derive(Drop)]
pub struct History<A> {
    // The values, which clauses alone see.
    past: Snapshot<Past<A>>,
}

impl<A> Model for History<A> {
    ghost use Rattle.std.specs.Prelude.{List};
    ghost use Rattle.kr_base.specs.Histories.{values};

    ghost Value = { List A };

    ghost view = { λ s. values s.past.value };
}

impl<A> History<A> {
    /// The history of nothing.
    pub fn new() -> History<A>
        ensures { result ≡ [] }
    {
        let nothing: Past<A> = Past::Nothing;
        History {
            past: Snapshot::of(&nothing),
        }
    }

    /// The history with one value more.
    pub fn and(&self, value: &A) -> History<A>
        ensures { result ≡ self.now ++ value.now ∷ [] }
    {
        let more: Past<A> = Past::More {
            before: Snapshot::of(&self.past),
            value: Snapshot::of(value),
        };
        History {
            past: Snapshot::of(&more),
        }
    }
}
