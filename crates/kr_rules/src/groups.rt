//! A request's entries in groups, as the partitions of topics.

ghost use Rattle.std.specs.Prelude.{◌≡◌, ◌≤◌, ◌+◌, ◌≤ℤ◌, Ok, Some, IfOk, OnOk, IsSome};
ghost use Rattle.kr_defs.specs.declared.limits.TheConstants.{PLACES_END as places_end};
ghost use Rattle.kr_calls.specs.Deciding.{weights};
ghost use Rattle.kr_store.specs.Images.{IsSettled, last_kept, last_image};
ghost use Rattle.kr_rules.specs.Costs.{cost, group_cost};
ghost use Rattle.kr_rules.specs.Progress.{work_at, Leads};
ghost use Rattle.kr_rules.specs.Decisions.{AnswersGroup, AnswersGroups, AnswersNextGroups, CostsAtMost, DecidesGroups, GoesThrough, GoesThroughGroups, CallsStayWithin, begun};

use crate::entries::over_entries;
use crate::{Groups, ItemRule, Refusal, Rule, Work};
use kr_base::{NoMemory, Steps};
use kr_calls::Draft;
use kr_defs::{Records, Rows};
use kr_store::{Seen, Store};
use std::alloc::Global;
use std::sync::ledger::Ledger;

// The rule for the items under a key.
#[derive(Drop)]
struct Within<'a, K, R> {
    key: &'a K,
    rule: &'a R,
}

impl<'a, K, I, A, R: ItemRule<K, I, A>> Rule<I, A> for Within<'a, K, R> {
    ghost refusal = { λ w error item. R.refusal w.rule.now error (w.key.now, item) };

    ghost rule = { λ w image place item. R.rule w.rule.now image place (w.key.now, item) };

    fn refusal(&self, alloc: Global, error: &i16, entry: &I) -> Result<A, NoMemory> {
        self.rule.refusal(alloc, error, self.key, entry)
    }

    fn judge<S: Store>(
        &self,
        alloc: Global,
        seen: &Seen<S>,
        work: &Work,
        entry: &I,
    ) -> Result<Draft<A>, Refusal> {
        self.rule.judge(alloc, seen, work, self.key, entry)
    }
}

// The answer to a group, whose entries are decided in order.
fn over_group<
    G,
    K,
    I,
    A: Drop,
    B: Drop,
    R: ItemRule<K, I, A> + Groups<G, K, I, A, B>,
    S: Store,
    L: Ledger,
>(
    alloc: Global,
    store: &mut S,
    work: &mut Work,
    rule: &R,
    group: &G,
    steps: &mut Steps<L>,
) -> Result<B, NoMemory>
    requires some { IsSome (last_kept (S.images store.old)) }
    requires leads { Leads (S.images store.old) work.old.records }
    ensures answer { IfOk result (λ answer. AnswersGroup (R.refusal rule.now) (R.rule rule.now)
        R.entries_of R.answer_of group.now work.old (S.images store.old) answer) }
    ensures after { OnOk result (GoesThrough (R.refusal rule.now) (R.rule rule.now)
        (R.entries_of group.now) work.old work.new (S.images store.old) (S.images store.new)) }
    ensures leads { OnOk result (Leads (S.images store.new) work.new.records) }
    ensures kept { (S.images store.new).kept ≡ (S.images store.old).kept }
    ensures calls { (S.images store.new).kept_made ≡ (S.images store.old).kept_made }
    ensures begins { (S.images store.new).kept_begun ≡ (S.images store.old).kept_begun }
    ensures settled { IsSettled (S.images store.old) → IsSettled (S.images store.new) }
    ensures start { OnOk result (work.new.start ≡ work.old.start) }
    ensures made { CallsStayWithin result (S.images store.old)
        (S.images store.new) work.old.records work.new.records }
    ensures own { CostsAtMost result (cost (R.refusal rule.now) (R.rule rule.now)
        (work_at work.old (S.images store.old).tip) (R.entries_of group.now)) steps.old steps.new }
    ensures later { steps.old ≤ steps.new }
{
    let (key, items) = rule.members(group);
    let answers = over_entries(alloc, store, work, &Within { key, rule }, items, steps)?;
    rule.answer(alloc, group, answers)
}

/// The answers to all groups, in order.
pub fn over_groups<
    G,
    K,
    I,
    A: Drop,
    B: Drop,
    R: ItemRule<K, I, A> + Groups<G, K, I, A, B>,
    S: Store,
    L: Ledger,
>(
    alloc: Global,
    store: &mut S,
    work: &mut Work,
    rule: &R,
    groups: &[G],
    steps: &mut Steps<L>,
) -> Result<Rows<B>, NoMemory>
    requires some { IsSome (last_kept (S.images store.old)) }
    requires leads { Leads (S.images store.old) work.old.records }
    ensures answers { IfOk result (λ answers. AnswersNextGroups (R.refusal rule.now)
        (R.rule rule.now) R.entries_of R.answer_of groups.now work.old
        (S.images store.old) answers) }
    ensures after { OnOk result (GoesThroughGroups (R.refusal rule.now) (R.rule rule.now)
        R.entries_of R.answer_of groups.now work.old work.new
        (S.images store.old) (S.images store.new)) }
    ensures leads { OnOk result (Leads (S.images store.new) work.new.records) }
    ensures kept { (S.images store.new).kept ≡ (S.images store.old).kept }
    ensures calls { (S.images store.new).kept_made ≡ (S.images store.old).kept_made }
    ensures begins { (S.images store.new).kept_begun ≡ (S.images store.old).kept_begun }
    ensures settled { IsSettled (S.images store.old) → IsSettled (S.images store.new) }
    ensures start { OnOk result (work.new.start ≡ work.old.start) }
    ensures made { CallsStayWithin result (S.images store.old)
        (S.images store.new) work.old.records work.new.records }
    ensures own { CostsAtMost result
        (group_cost (R.refusal rule.now) (R.rule rule.now) R.entries_of
        (work_at work.old (S.images store.old).tip) groups.now) steps.old steps.new }
    ensures later { steps.old ≤ steps.new }
{
    let mut answers = Rows::new(alloc);
    for group in groups {
        answers.push(over_group(alloc, store, work, rule, group, steps)?)?;
    }
    Ok(answers)
}

/// A request of entries in groups is decided: its records, and the answer to each group.
#[tactic(auto, using(crate::proofs::RecordLists::bases))]
pub fn decide_groups<
    G,
    K,
    I,
    A: Drop,
    B: Drop,
    R: ItemRule<K, I, A> + Groups<G, K, I, A, B>,
    S: Store,
    L: Ledger,
>(
    alloc: Global,
    store: &mut S,
    place: i64,
    rule: &R,
    groups: &[G],
    steps: &mut Steps<L>,
) -> Result<(Records, Rows<B>), NoMemory>
    requires low { place ≤ℤ places_end }
    requires kept { last_image (S.images store.old) ≡ Some (S.images store.old).tip }
    ensures answers { IfOk result (λ d. AnswersGroups (R.refusal rule.now)
        (R.rule rule.now) R.entries_of R.answer_of place groups.now (S.images store.old) d.1) }
    ensures after { IfOk result (λ d. DecidesGroups (R.refusal rule.now)
        (R.rule rule.now) R.entries_of R.answer_of place groups.now (S.images store.old)
        (S.images store.new) d.0) }
    ensures kept { (S.images store.new).kept ≡ (S.images store.old).kept }
    ensures calls { (S.images store.new).kept_made ≡ (S.images store.old).kept_made }
    ensures begins { (S.images store.new).kept_begun ≡ (S.images store.old).kept_begun }
    ensures settled { IsSettled (S.images store.old) → IsSettled (S.images store.new) }
    ensures made { IfOk result (λ d. (S.images store.new).made ≤
        (S.images store.old).made + weights (S.images store.old).tip d.0) }
    ensures own { CostsAtMost result
        (group_cost (R.refusal rule.now) (R.rule rule.now) R.entries_of
        (begun place (S.images store.old)) groups.now) steps.old steps.new }
    ensures later { steps.old ≤ steps.new }
{
    let mut work = Work::new(alloc, place);
    let answers = over_groups(alloc, store, &mut work, rule, groups, steps)?;
    Ok((work.into_records(), answers))
}
