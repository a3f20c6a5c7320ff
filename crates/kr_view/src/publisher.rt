//! The worker's side: what is staged, and its publishing.

ghost use Rattle.std.specs.Prelude.{◌≡◌, [], ◌∷◌, ◌++◌, drop, MatchResult, OnOk};
ghost use Rattle.kr_calls.specs.SeatList.{IsClosedList, is_below};
ghost use Rattle.kr_view.specs.Staged.{staged_above, staged_below, is_logged};
ghost use Rattle.kr_view.specs.Steps.{entries_in};

use crate::window::{Copies, Window};
use kr_base::NoMemory;
use kr_calls::Entry;
use std::alloc::Global;
use std::collections::VecDeque;
use std::marker::Model;
use std::sync::Wait;

/// What stages entries and makes them visible. It is not `Drop`: end it by `close`.
pub struct Publisher {
    // The copies, and the writer's side of them.
    window: Window,
    // Staged items and loads, in order.
    items: VecDeque<Entry>,
    // Staged pins, unpins, answers and stops, in order.
    notes: VecDeque<Entry>,
}

impl Model for Publisher {
    ghost use Rattle.kr_view.specs.Shelves.{Shelf};

    ghost Value = { Shelf };

    ghost use Rattle.kr_view.specs.Publishers.{shelf_of};

    ghost view = { shelf_of };
}

fn is_below(entry: &Entry, end: &i64) -> bool
    ensures { result ≡ is_below end.now entry.now }
{
    match entry {
        Entry::Item { place, .. } => place < end,
        Entry::Load { offset, .. } => offset <= end,
        Entry::Pin { .. } | Entry::Unpin { .. } | Entry::Answer { .. } | Entry::Stop { .. } => true,
    }
}

fn is_logged(entry: &Entry) -> bool
    ensures { result ≡ is_logged entry.now }
{
    match entry {
        Entry::Item { .. } | Entry::Load { .. } => true,
        Entry::Pin { .. } | Entry::Unpin { .. } => false,
        Entry::Answer { .. } | Entry::Stop { .. } => false,
    }
}

// Adds an entry at the back. It comes back where there is no memory for it.
fn put(queue: &mut VecDeque<Entry>, entry: Entry) -> Result<(), Entry>
    ensures { MatchResult result (λ _. queue.new.items ≡ queue.old.items ++ entry ∷ []) (λ refused. (refused ≡ entry) × (queue.new.items ≡ queue.old.items)) }
{
    match queue.push_back(entry) {
        Ok(()) => Ok(()),
        Err(failed) => Err(failed.value),
    }
}

// Chooses what is below the end. Without memory the rest stays staged.
fn choose_items(window: &mut Window, items: &mut VecDeque<Entry>, end: &i64) -> Result<(), NoMemory>
    ensures options { window.new.options ≡ window.old.options }
    ensures list { window.new.list ≡ window.old.list }
    ensures same { window.new.waiting ++ staged_below end.now items.new.items ≡ window.old.waiting ++ staged_below end.now items.old.items }
    ensures left { staged_above end.now items.new.items ≡ staged_above end.now items.old.items }
    ensures all { OnOk result (items.new.items ≡ staged_above end.now items.old.items) }
    ensures none { OnOk result (staged_below end.now items.new.items ≡ []) }
{
    while let Some(entry) = items.pop_front() {
        if !is_below(&entry, end) {
            items.push_front_reserved(entry);
            return Ok(());
        }
        if let Err(entry) = window.choose(entry) {
            items.push_front_reserved(entry);
            return Err(NoMemory);
        }
    }
    Ok(())
}

// Chooses all notes. Without memory the rest stays staged.
fn choose_notes(window: &mut Window, notes: &mut VecDeque<Entry>) -> Result<(), NoMemory>
    ensures options { window.new.options ≡ window.old.options }
    ensures list { window.new.list ≡ window.old.list }
    ensures same { window.new.waiting ++ notes.new.items ≡ window.old.waiting ++ notes.old.items }
    ensures all { OnOk result (notes.new.items ≡ []) }
{
    while let Some(entry) = notes.pop_front() {
        if let Err(entry) = window.choose(entry) {
            notes.push_front_reserved(entry);
            return Err(NoMemory);
        }
    }
    Ok(())
}

impl Publisher {
    ghost use Rattle.kr_view.specs.Shelves.{bare_shelf, shown_at, with_staged, IsDelayed, MayPublish};

    pub(crate) fn new(alloc: Global, copies: Copies) -> Publisher
        ensures { result
            ≡ bare_shelf copies.desk.shown.value (entries_in (drop copies.behind copies.log.items)) }
    {
        Publisher {
            window: Window::new(alloc, copies),
            items: VecDeque::new(alloc),
            notes: VecDeque::new(alloc),
        }
    }

    /// Stages an entry behind the ones staged before. It comes back where there is no memory for it.
    pub fn stage(&mut self, entry: Entry) -> Result<(), Entry>
        ensures { MatchResult result (λ _. self.new ≡ with_staged self.old entry) (λ refused. (refused ≡ entry) × (self.new ≡ self.old)) }
    {
        if is_logged(&entry) {
            put(&mut self.items, entry)
        } else {
            put(&mut self.notes, entry)
        }
    }

    /// Makes visible, at one step, the staged items and images below the end, and behind them the staged pins, unpins, answers
    /// and stops. Each of these answers is right in the entries before it, each of these pins is of the end of those, and no
    /// transaction is open at the end of all.
    /// Without memory what is visible is as before, and a publish at this end shows the same; a later publish shows first what
    /// this one chose.
    pub fn publish<R: Wait>(&mut self, rt: &R, end: i64) -> Result<(), NoMemory>
        requires { MayPublish end self.old }
        ensures shown { MatchResult result (λ _. self.new ≡ shown_at end self.old) (λ _. IsDelayed end self.old self.new) }
        ensures closed { OnOk result (IsClosedList self.new.list) }
    {
        choose_items(&mut self.window, &mut self.items, &end)?;
        choose_notes(&mut self.window, &mut self.notes)?;
        self.window.show(rt)
    }

    /// Drops the staged items and images, and leaves the pins, unpins, answers and stops. All that the last publish chose is visible. It takes no memory.
    pub fn drop_staged(&mut self)
        requires { self.old.waiting ≡ [] }
        ensures { self.new ≡ record self.old { items = [] } }
    {
        self.items.clear();
    }

    /// Ends the publisher. A seat that is used afterwards may get no copy.
    pub fn close<R: Wait>(self, rt: &R) {
        let Publisher {
            window,
            items: _items,
            notes: _notes,
        } = self;
        window.close(rt);
    }
}
