//! The copies rule, and what its steps tell. These types are for the proofs alone.

use crate::shown::Shown;
use atomic_table::{Join, Split};
use crossbeam_utils::rule::{Outcome, Protocol};
use kr_calls::Entry;
use kr_defs::Options;
use std::collections::LinkedList;

/// What a thread has seen of the copies. It stands in clauses alone: no value of it is made.
pub struct ThreadView {
    /// It is the worker, or has a seat.
    pub seated: bool,
    /// The options of the opening.
    pub options: Options,
    /// The entries, in order.
    pub list: LinkedList<Entry>,
}

// What each thread has seen is a beginning of what is shown.
pub(crate) struct CopiesRule;

impl Protocol<Shown, ThreadView> for CopiesRule {
    ghost use Rattle.kr_view.specs.CopiesRule.{CopiesRuleHolds, unseen};

    ghost holds = { CopiesRuleHolds };

    ghost first = { unseen };
}

pub(crate) struct Sees;

impl Outcome<Shown, ThreadView> for Sees {
    ghost use Rattle.kr_view.specs.CopiesRule.{Saw};

    ghost then = { Saw };
}

// What the worker has seen, for a new seat.
pub(crate) struct Note;

impl Split<ThreadView> for Note {
    ghost left = { λ v. v };

    ghost right = { λ v. v };
}

impl Join<ThreadView> for Note {
    ghost use Rattle.kr_view.specs.CopiesRule.{unseen};

    ghost both = { λ v w. w };

    ghost spent = { unseen };
}
