//! The copies with their writer, and what was chosen to be shown next.

ghost use Rattle.std.specs.Prelude.{◌≡◌, true, [], ◌++◌, drop, OnOk, OnErr, MatchResult, IfOk};
ghost use Rattle.left_right.specs.Sides.{view};
ghost use Rattle.kr_view.specs.CopiesRule.{seen};
ghost use Rattle.kr_view.specs.Runs.{is_single};
ghost use Rattle.kr_view.specs.Showing.{MayShow};
ghost use Rattle.kr_view.specs.Steps.{entries_in, HandsOver, ShowsLogOrNone};

use crate::rule::{CopiesRule, Sees, ThreadView};
use crate::run::{Run, Single, Step, is_single};
use crate::shown::Shown;
use core::mem::{replace, replace_with};
use kr_base::NoMemory;
use kr_calls::Entry;
use left_right::writer::Writer;
use std::alloc::{AllocError, Global};
use std::marker::Model;
use std::sync::Wait;

/// The writer of the copies.
pub(crate) type Copies = Writer<Shown, Step, ThreadView, CopiesRule>;

/// The copies, and a run that no copy has yet. It is not `Drop`: end it by `close`.
pub(crate) struct Window {
    copies: Copies,
    run: Run,
    alloc: Global,
}

impl Model for Window {
    ghost use Rattle.kr_view.specs.Displays.{Display};

    ghost Value = { Display };

    ghost use Rattle.kr_view.specs.Window.{display_of};

    ghost view = { display_of };
}

// Hands over a step. It comes back where there is no memory.
fn append(copies: &mut Copies, step: Step) -> Result<(), Step>
    ensures desk { copies.new.desk ≡ copies.old.desk }
    ensures pending { HandsOver result step (drop copies.old.behind copies.old.log.items)
        (drop copies.new.behind copies.new.log.items) }
{
    copies.append(step)
}

// Hands over the run, and leaves an empty one. Without memory nothing changes.
fn flush(copies: &mut Copies, run: &mut Run, alloc: Global) -> Result<(), NoMemory>
    ensures desk { copies.new.desk ≡ copies.old.desk }
    ensures ok { OnOk result ((run.new ≡ []) × (entries_in (drop copies.new.behind copies.new.log.items) ≡ entries_in (drop copies.old.behind copies.old.log.items) ++ run.old)) }
    ensures err { OnErr result ((run.new ≡ run.old) × (drop copies.new.behind copies.new.log.items ≡ drop copies.old.behind copies.old.log.items)) }
{
    if run.is_empty() {
        return Ok(());
    }
    let full = replace(run, Run::new(alloc));
    match append(copies, Step::Run { run: full }) {
        Ok(()) => Ok(()),
        Err(Step::Run { run: back }) => {
            *run = back;
            Err(NoMemory)
        }
        Err(Step::Single { .. }) => unreachable!(),
    }
}

// Shows what was handed over.
pub(crate) fn show<R: Wait>(copies: Copies, rt: &R) -> (Copies, Result<(), AllocError>)
    requires { MayShow copies.desk.shown.value.options copies.desk.shown.value.list
        (entries_in (drop copies.behind copies.log.items)) }
    ensures list { ShowsLogOrNone result.1 copies.desk.shown.value result.0.desk.shown.value
        copies.behind copies.log.items result.0.behind result.0.log.items }
    ensures options { result.0.desk.shown.value.options ≡ copies.desk.shown.value.options }
    ensures view { IfOk result.1 (λ _. view result.0.desk.place ≡ seen true result.0.desk.shown.value.options result.0.desk.shown.value.list) }
{
    copies.publish_as::<Sees, R>(rt)
}

// The same, where the writer stands.
fn show_held<R: Wait>(copies: &mut Copies, rt: &R) -> Result<(), AllocError>
    requires { MayShow copies.old.desk.shown.value.options copies.old.desk.shown.value.list
        (entries_in (drop copies.old.behind copies.old.log.items)) }
    ensures list { ShowsLogOrNone result copies.old.desk.shown.value copies.new.desk.shown.value
        copies.old.behind copies.old.log.items copies.new.behind copies.new.log.items }
    ensures options { copies.new.desk.shown.value.options ≡ copies.old.desk.shown.value.options }
{
    replace_with(copies, rt, |copies, rt| show(copies, rt))
}

// The same, where something was handed over. Else readers have it all, and nobody is waited for.
fn show_pending<R: Wait>(copies: &mut Copies, rt: &R) -> Result<(), AllocError>
    requires { MayShow copies.old.desk.shown.value.options copies.old.desk.shown.value.list
        (entries_in (drop copies.old.behind copies.old.log.items)) }
    ensures list { ShowsLogOrNone result copies.old.desk.shown.value copies.new.desk.shown.value
        copies.old.behind copies.old.log.items copies.new.behind copies.new.log.items }
    ensures options { copies.new.desk.shown.value.options ≡ copies.old.desk.shown.value.options }
{
    if !copies.has_pending_operations() {
        return Ok(());
    }
    show_held(copies, rt)
}

impl Window {
    ghost use Rattle.kr_view.specs.Displays.{with_waiting, all_shown};

    pub(crate) fn new(alloc: Global, copies: Copies) -> Window
        ensures { result ≡ record { options = copies.desk.shown.value.options; list = copies.desk.shown.value.list; waiting = entries_in (drop copies.behind copies.log.items) } }
    {
        Window {
            copies,
            run: Run::new(alloc),
            alloc,
        }
    }

    // Chooses an entry that a copy takes in by itself. It comes back where there is no memory.
    fn choose_single(&mut self, entry: Entry) -> Result<(), Entry>
        requires { is_single entry ≡ true }
        ensures { MatchResult result (λ _. self.new ≡ with_waiting self.old entry) (λ refused. (refused ≡ entry) × (self.new ≡ self.old)) }
    {
        if flush(&mut self.copies, &mut self.run, self.alloc).is_err() {
            return Err(entry);
        }
        let single = Single::new(entry);
        match append(&mut self.copies, Step::Single { single }) {
            Ok(()) => Ok(()),
            Err(Step::Single { single }) => Err(single.into_entry()),
            Err(Step::Run { .. }) => unreachable!(),
        }
    }

    /// Chooses an entry to be shown behind the ones chosen before. It comes back where there is no memory.
    pub(crate) fn choose(&mut self, entry: Entry) -> Result<(), Entry>
        ensures { MatchResult result (λ _. self.new ≡ with_waiting self.old entry) (λ refused. (refused ≡ entry) × (self.new ≡ self.old)) }
    {
        if is_single(&entry) {
            self.choose_single(entry)
        } else {
            self.run.push(entry)
        }
    }

    /// Shows all that was chosen, at one step. Without memory nothing changes.
    pub(crate) fn show<R: Wait>(&mut self, rt: &R) -> Result<(), NoMemory>
        requires { MayShow self.old.options self.old.list self.old.waiting }
        ensures ok { OnOk result (self.new ≡ all_shown self.old) }
        ensures err { OnErr result (self.new ≡ self.old) }
    {
        flush(&mut self.copies, &mut self.run, self.alloc)?;
        show_pending(&mut self.copies, rt)?;
        Ok(())
    }

    pub(crate) fn close<R: Wait>(self, rt: &R) {
        let Window {
            copies,
            run: _run,
            alloc: _alloc,
        } = self;
        drop(copies.take(rt));
    }
}
