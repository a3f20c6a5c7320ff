//! A request's entries, each decided on the image after the earlier ones.

ghost use Rattle.std.specs.Prelude.{◌≡◌, ◌≤◌, ◌+◌, ℤ, ◌≤ℤ◌, Ok, Some, Result, IfOk, OnOk, IsSome, false};
ghost use Rattle.kr_defs.specs.declared.limits.TheConstants.{PLACES_END as places_end};
ghost use Rattle.kr_calls.specs.Deciding as deciding;
ghost use Rattle.kr_calls.specs.Deciding.{weights};
ghost use Rattle.kr_store.specs.Images.{IsSettled, last_kept, last_image};
ghost use Rattle.kr_rules.specs.Costs.{cost, draft_cost};
ghost use Rattle.kr_rules.specs.Progress.{work_at, place_of, Leads};
ghost use Rattle.kr_rules.specs.Refusals.{IfError};
ghost use Rattle.kr_rules.specs.Decisions.{AnswersEach, CostsAtMost, DecidesEach, DecidesNext, DecidesOne, DecidesUnless, GoesThrough, CallsStayWithin, begun};

use crate::taking::take;
use crate::{Refusal, Rule, Work};
use kr_base::{NoMemory, Steps};
use kr_calls::Draft;
use kr_calls::errors::POLICY_VIOLATION;
use kr_defs::{Records, Rows};
use kr_store::{Seen, Store};
use std::alloc::Global;
use std::sync::ledger::Ledger;

// The answer to an entry that is refused.
fn answer_to<E, A: Drop, R: Rule<E, A>>(
    alloc: Global,
    rule: &R,
    refusal: &Refusal,
    entry: &E,
) -> Result<A, NoMemory>
    ensures { IfOk result (λ answer. IfError refusal.now
        (λ error. answer ≡ R.refusal rule.now error entry.now)) }
{
    match refusal {
        Refusal::Error(error) => rule.refusal(alloc, error, entry),
        Refusal::NoMemory => Err(NoMemory),
    }
}

/// An entry is done by its rule: its records are taken, all or none. A refused one costs no more than its own records.
pub(crate) fn one<E, A: Drop, R: Rule<E, A>, S: Store, L: Ledger>(
    alloc: Global,
    store: &mut S,
    work: &mut Work,
    rule: &R,
    entry: &E,
    steps: &mut Steps<L>,
) -> Result<A, NoMemory>
    requires some { IsSome (last_kept (S.images store.old)) }
    requires leads { Leads (S.images store.old) work.old.records }
    ensures done { IfOk result (λ answer. DecidesNext (R.refusal rule.now) (R.rule rule.now)
        entry.now work.old work.new (S.images store.old) (S.images store.new) answer) }
    ensures leads { OnOk result (Leads (S.images store.new) work.new.records) }
    ensures kept { (S.images store.new).kept ≡ (S.images store.old).kept }
    ensures calls { (S.images store.new).kept_made ≡ (S.images store.old).kept_made }
    ensures begins { (S.images store.new).kept_begun ≡ (S.images store.old).kept_begun }
    ensures settled { IsSettled (S.images store.old) → IsSettled (S.images store.new) }
    ensures start { OnOk result (work.new.start ≡ work.old.start) }
    ensures made { CallsStayWithin result (S.images store.old)
        (S.images store.new) work.old.records work.new.records }
    ensures own { CostsAtMost result (draft_cost (S.images store.old).tip (R.rule rule.now
        (S.images store.old).tip (place_of work.old) entry.now)) steps.old steps.new }
    ensures later { steps.old ≤ steps.new }
{
    let seen = Seen::tip(store);
    match rule.judge(alloc, &seen, work, entry) {
        Ok(Draft { records, answer }) => {
            if take(alloc, store, work, records, steps)? {
                Ok(answer)
            } else {
                rule.refusal(alloc, &POLICY_VIOLATION, entry)
            }
        }
        Err(refusal) => answer_to(alloc, rule, &refusal, entry),
    }
}

/// The answers to all entries, in order.
pub fn over_entries<E, A: Drop, R: Rule<E, A>, S: Store, L: Ledger>(
    alloc: Global,
    store: &mut S,
    work: &mut Work,
    rule: &R,
    entries: &[E],
    steps: &mut Steps<L>,
) -> Result<Rows<A>, NoMemory>
    requires some { IsSome (last_kept (S.images store.old)) }
    requires leads { Leads (S.images store.old) work.old.records }
    ensures answers { IfOk result (λ answers. answers ≡ deciding.answers (R.refusal rule.now)
        (R.rule rule.now) (work_at work.old (S.images store.old).tip) entries.now) }
    ensures after { OnOk result (GoesThrough (R.refusal rule.now)
        (R.rule rule.now) entries.now work.old work.new (S.images store.old) (S.images store.new)) }
    ensures leads { OnOk result (Leads (S.images store.new) work.new.records) }
    ensures kept { (S.images store.new).kept ≡ (S.images store.old).kept }
    ensures calls { (S.images store.new).kept_made ≡ (S.images store.old).kept_made }
    ensures begins { (S.images store.new).kept_begun ≡ (S.images store.old).kept_begun }
    ensures settled { IsSettled (S.images store.old) → IsSettled (S.images store.new) }
    ensures start { OnOk result (work.new.start ≡ work.old.start) }
    ensures made { CallsStayWithin result (S.images store.old)
        (S.images store.new) work.old.records work.new.records }
    ensures own { CostsAtMost result (cost (R.refusal rule.now) (R.rule rule.now)
        (work_at work.old (S.images store.old).tip) entries.now) steps.old steps.new }
    ensures later { steps.old ≤ steps.new }
{
    let mut answers = Rows::new(alloc);
    for entry in entries {
        answers.push(one(alloc, store, work, rule, entry, steps)?)?;
    }
    Ok(answers)
}

/// A request of one entry is decided: its records and its answer. What it costs is said by `cost`, as for the calls below:
/// each record of a draft is applied once at most, also where the entry is refused.
#[tactic(auto, using(crate::proofs::RecordLists::bases))]
pub fn decide_one<E, A: Drop, R: Rule<E, A>, S: Store, L: Ledger>(
    alloc: Global,
    store: &mut S,
    place: i64,
    rule: &R,
    entry: &E,
    steps: &mut Steps<L>,
) -> Result<(Records, A), NoMemory>
    requires low { place ≤ℤ places_end }
    requires kept { last_image (S.images store.old) ≡ Some (S.images store.old).tip }
    ensures decided { IfOk result (λ d. DecidesOne (R.refusal rule.now)
        (R.rule rule.now) place entry.now (S.images store.old) (S.images store.new) d) }
    ensures kept { (S.images store.new).kept ≡ (S.images store.old).kept }
    ensures calls { (S.images store.new).kept_made ≡ (S.images store.old).kept_made }
    ensures begins { (S.images store.new).kept_begun ≡ (S.images store.old).kept_begun }
    ensures settled { IsSettled (S.images store.old) → IsSettled (S.images store.new) }
    ensures made { IfOk result (λ d. (S.images store.new).made ≤
        (S.images store.old).made + weights (S.images store.old).tip d.0) }
    ensures own { CostsAtMost result (draft_cost (S.images store.old).tip
        (R.rule rule.now (S.images store.old).tip place entry.now)) steps.old steps.new }
    ensures later { steps.old ≤ steps.new }
{
    let mut work = Work::new(alloc, place);
    let answer = one(alloc, store, &mut work, rule, entry, steps)?;
    Ok((work.into_records(), answer))
}

/// A request of several entries is decided: its records and its answers.
#[tactic(auto, using(crate::proofs::RecordLists::bases))]
pub fn decide_each<E, A: Drop, R: Rule<E, A>, S: Store, L: Ledger>(
    alloc: Global,
    store: &mut S,
    place: i64,
    rule: &R,
    entries: &[E],
    steps: &mut Steps<L>,
) -> Result<(Records, Rows<A>), NoMemory>
    requires low { place ≤ℤ places_end }
    requires kept { last_image (S.images store.old) ≡ Some (S.images store.old).tip }
    ensures answers { IfOk result (λ d. AnswersEach (R.refusal rule.now)
        (R.rule rule.now) place entries.now (S.images store.old) d.1) }
    ensures after { IfOk result (λ d. DecidesEach (R.refusal rule.now)
        (R.rule rule.now) place entries.now (S.images store.old) (S.images store.new) d.0) }
    ensures kept { (S.images store.new).kept ≡ (S.images store.old).kept }
    ensures calls { (S.images store.new).kept_made ≡ (S.images store.old).kept_made }
    ensures begins { (S.images store.new).kept_begun ≡ (S.images store.old).kept_begun }
    ensures settled { IsSettled (S.images store.old) → IsSettled (S.images store.new) }
    ensures made { IfOk result (λ d. (S.images store.new).made ≤
        (S.images store.old).made + weights (S.images store.old).tip d.0) }
    ensures own { CostsAtMost result (cost (R.refusal rule.now) (R.rule rule.now)
        (begun place (S.images store.old)) entries.now) steps.old steps.new }
    ensures later { steps.old ≤ steps.new }
{
    let mut work = Work::new(alloc, place);
    let answers = over_entries(alloc, store, &mut work, rule, entries, steps)?;
    Ok((work.into_records(), answers))
}

/// A request of several entries is decided, as by `decide_each`; with validate-only no record stands.
#[tactic(auto, using(crate::proofs::RecordLists::bases))]
pub fn decide_or_validate<E, A: Drop, R: Rule<E, A>, S: Store, L: Ledger>(
    alloc: Global,
    store: &mut S,
    place: i64,
    rule: &R,
    entries: &[E],
    validate_only: bool,
    steps: &mut Steps<L>,
) -> Result<(Records, Rows<A>), NoMemory>
    requires low { place ≤ℤ places_end }
    requires kept { last_image (S.images store.old) ≡ Some (S.images store.old).tip }
    ensures answers { IfOk result (λ d. AnswersEach (R.refusal rule.now)
        (R.rule rule.now) place entries.now (S.images store.old) d.1) }
    ensures after { IfOk result (λ d. DecidesUnless (R.refusal rule.now)
        (R.rule rule.now) validate_only place entries.now (S.images store.old)
        (S.images store.new) d.0) }
    ensures kept { (S.images store.new).kept ≡ (S.images store.old).kept }
    ensures calls { (S.images store.new).kept_made ≡ (S.images store.old).kept_made }
    ensures begins { (S.images store.new).kept_begun ≡ (S.images store.old).kept_begun }
    ensures settled { IsSettled (S.images store.old) → IsSettled (S.images store.new) }
    ensures made { IfOk result (λ d. (S.images store.new).made ≤
        (S.images store.old).made + weights (S.images store.old).tip d.0) }
    ensures own { validate_only ≡ false → CostsAtMost result (cost (R.refusal rule.now)
        (R.rule rule.now) (begun place (S.images store.old)) entries.now) steps.old steps.new }
    ensures later { steps.old ≤ steps.new }
{
    let (records, answers) = decide_each(alloc, store, place, rule, entries, steps)?;
    if validate_only {
        store.revert_to_last(steps);
        return Ok((Rows::new(alloc), answers));
    }
    Ok((records, answers))
}
