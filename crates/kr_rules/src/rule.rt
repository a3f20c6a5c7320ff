//! What a request's rule says of one entry.

ghost use Rattle.std.specs.Prelude.{◌≡◌, ℤ, List, map, Result, IfOk};
ghost use Rattle.kr_defs.specs.Image.{Image};
ghost use Rattle.kr_calls.specs.declared.deciding.Draft.{Draft as AnyDraft};
ghost use Rattle.kr_rules.specs.Progress.{place_of};
ghost use Rattle.kr_rules.specs.Refusals.{Judges};

use crate::{Refusal, Work};
use kr_base::NoMemory;
use kr_calls::Draft;
use kr_defs::Rows;
use kr_store::{Seen, Store};
use std::alloc::Global;

/// What is decided of one entry of a request.
pub trait Rule<E, A>: Sized {
    /// The answer to an entry with this error number.
    ghost refusal: { Self → ℤ → E → A };

    /// The records and the answer, or an error number, by the image and the place.
    ghost rule: { Self → Image → ℤ → E → Result (AnyDraft A) ℤ };

    /// The answer to the entry with this error number.
    fn refusal(&self, alloc: Global, error: &i16, entry: &E) -> Result<A, NoMemory>
        ensures { IfOk result (λ answer. answer ≡ refusal self.now error.now entry.now) };

    /// The records and the answer that the rule gives the entry, or Kafka's error number, by the image and the place of
    /// the work.
    fn judge<S: Store>(
        &self,
        alloc: Global,
        seen: &Seen<S>,
        work: &Work,
        entry: &E,
    ) -> Result<Draft<A>, Refusal>
        ensures { Judges result (rule self.now seen.now (place_of work.now) entry.now) };
}

/// What is decided of one item of a group, as of a partition of a topic. The key is the group's.
pub trait ItemRule<K, I, A>: Sized {
    /// The answer to an item with this error number.
    ghost refusal: { Self → ℤ → K × I → A };

    /// The records and the answer, or an error number, by the image and the place.
    ghost rule: { Self → Image → ℤ → K × I → Result (AnyDraft A) ℤ };

    /// The answer to the item with this error number.
    fn refusal(&self, alloc: Global, error: &i16, key: &K, item: &I) -> Result<A, NoMemory>
        ensures { IfOk result (λ answer. answer ≡ refusal self.now error.now (key.now, item.now)) };

    /// The records and the answer that the rule gives the item, or Kafka's error number, by the image and the place of
    /// the work.
    fn judge<S: Store>(
        &self,
        alloc: Global,
        seen: &Seen<S>,
        work: &Work,
        key: &K,
        item: &I,
    ) -> Result<Draft<A>, Refusal>
        ensures { Judges result (rule self.now seen.now (place_of work.now) (key.now, item.now)) };
}

/// How the entries of a request stand in groups.
pub trait Groups<G, K, I, A, B>: Sized {
    ghost entries_of: { G → List (K × I) };

    /// The answer to a group, of the answers to its entries.
    ghost answer_of: { G → List A → B };

    /// The key of a group, and its items.
    fn members<'a>(&self, group: &'a G) -> (&'a K, &'a [I])
        ensures { entries_of group.now ≡ map (λ item. (result.0.now, item)) result.1.now };

    /// The answer to the group, of the answers to its entries in order.
    fn answer(&self, alloc: Global, group: &G, answers: Rows<A>) -> Result<B, NoMemory>
        ensures { IfOk result (λ answer. answer ≡ answer_of group.now answers) };
}
