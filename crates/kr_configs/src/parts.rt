//! Values that are lists, with commas between their parts.

ghost use Rattle.std.specs.Prelude.{◌≡◌, [], ◌∷◌, ◌++◌, IfOk, bytes_eq, filter, fold, not};
ghost use Rattle.std.specs.List.{list_any};
ghost use Rattle.kr_calls.specs.IncrementalAlterConfigs as incremental_alter_configs;
ghost use Rattle.kr_defs.specs.Texts as texts;

use kr_base::NoMemory;
use kr_defs::{Text, Texts, parts};
use std::alloc::Global;
use std::collections::HashSet;
use std::marker::Model;

/// Parts of a list, in order.
#[derive(Drop)]
struct Parts<'a> {
    list: Vec<&'a str>,
    known: HashSet<&'a str>,
}

impl<'a> Model for Parts<'a> {
    ghost use Rattle.std.specs.Prelude.{◌≡◌, ℕ, List, map, bytes_eq};
    ghost use Rattle.std.specs.List.{list_any};

    ghost Value = { List (List ℕ) };

    ghost view = { λ p. map (λ s. s.now) p.list.items };

    ghost invariant = { λ p. (part : List ℕ) → list_any (λ s. bytes_eq part s.now) p.known.keys ≡ list_any (λ s. bytes_eq part s.now) p.list.items };
}

impl<'a> Parts<'a> {
    fn new(alloc: Global) -> Parts<'a>
        ensures { result ≡ [] }
    {
        Parts {
            list: Vec::new(alloc),
            known: HashSet::new(alloc),
        }
    }

    fn has(&self, part: &str) -> bool
        ensures { result ≡ list_any (bytes_eq part.now) self.now }
    {
        self.known.contains(part)
    }

    // The parts with one more at the end.
    fn with(mut self, part: &'a str) -> Result<Parts<'a>, NoMemory>
        ensures { IfOk result (λ all. all ≡ self.entry ++ part.now ∷ []) }
    {
        self.known.insert(part)?;
        self.list.push(part)?;
        Ok(self)
    }

    // The parts with one more at the end, where it isn't there.
    fn with_new(self, part: &'a str) -> Result<Parts<'a>, NoMemory>
        ensures { IfOk result (λ all. all ≡ incremental_alter_configs.with_part self.entry part.now) }
    {
        if self.has(part) {
            return Ok(self);
        }
        self.with(part)
    }

    fn join(&self, alloc: Global) -> Result<Text, NoMemory>
        ensures { IfOk result (λ text. text ≡ texts.joined self.now) }
    {
        let text = self.list.join(alloc, ",")?;
        Ok(Text::from_string(text))
    }
}

// The parts, as they stand.
fn parts_of<'a>(alloc: Global, texts: &'a [Text]) -> Result<Parts<'a>, NoMemory>
    ensures { IfOk result (λ all. all ≡ texts.now) }
{
    let mut all = Parts::new(alloc);
    for part in texts {
        all = all.with(part.as_str())?;
    }
    Ok(all)
}

// The parts with those of more that aren't there, in order.
fn with_all_new<'a>(parts: Parts<'a>, more: &'a [Text]) -> Result<Parts<'a>, NoMemory>
    ensures { IfOk result (λ all. all ≡ fold incremental_alter_configs.with_part parts.entry more.now) }
{
    let mut all = parts;
    for part in more {
        all = all.with_new(part.as_str())?;
    }
    Ok(all)
}

// The parts that aren't among those.
fn others<'a>(alloc: Global, parts: &'a [Text], those: &Parts) -> Result<Parts<'a>, NoMemory>
    ensures { IfOk result (λ left. left ≡ filter (λ part. not (list_any (bytes_eq part) those.now)) parts.now) }
{
    let mut left = Parts::new(alloc);
    for part in parts {
        if !those.has(part.as_str()) {
            left = left.with(part.as_str())?;
        }
    }
    Ok(left)
}

/// The list with those parts of another that it hasn't, behind its own.
pub(crate) fn append(alloc: Global, list: &Text, more: &Text) -> Result<Text, NoMemory>
    ensures { IfOk result (λ text. text ≡ incremental_alter_configs.appended list.now more.now) }
{
    let own = parts(alloc, list)?;
    let more = parts(alloc, more)?;
    let all = with_all_new(parts_of(alloc, own.as_slice())?, more.as_slice())?;
    all.join(alloc)
}

/// The list without all parts that another has.
pub(crate) fn subtract(alloc: Global, list: &Text, those: &Text) -> Result<Text, NoMemory>
    ensures { IfOk result (λ text. text ≡ incremental_alter_configs.subtracted list.now those.now) }
{
    let own = parts(alloc, list)?;
    let those = parts(alloc, those)?;
    let gone = parts_of(alloc, those.as_slice())?;
    let left = others(alloc, own.as_slice(), &gone)?;
    left.join(alloc)
}
