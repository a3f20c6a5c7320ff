//! The clients that wait, and what is due to be told.

ghost use Rattle.std.specs.Prelude.{◌≡◌, ◌++◌, ◌∷◌, ◌+◌, ◌≤◌, ◌<◌, [], true, false, fold, length, option_to_list, IfErr, IfOk, IfNone, OnOk};
ghost use Rattle.std.specs.VecDeque.{deque_capacity, deque_len};
ghost use Rattle.kr_view.specs.Shelves.{with_staged};
ghost use Rattle.kr_shared.specs.Lines.{HasLineRoom, IsEmpty, IsSeated, entries_of, line_entry};
ghost use Rattle.kr_shared.specs.Works.{KeepsShown};
ghost use Rattle.kr_shared.specs.Answers as rules;
ghost use Rattle.kr_shared.specs.Turns.{pin_entry, unpin_entry};
ghost use Rattle.kr_shared.specs.Answers.{answering};

use crate::asked::Asked;
use crate::bell::SeatBells;
use kr_base::{NoMemory, Shared};
use kr_calls::{Answer, AnswerKind, Answered, Entry, Pin, Reply};
use kr_model::Ended;
use kr_view::Publisher;
use std::alloc::Global;
use std::collections::VecDeque;
use std::marker::Model;

/// What is told to clients, before there is room for it among what is published.
#[derive(Drop)]
pub(crate) enum Note {
    /// What was decided of a client's write.
    Decided {
        kind: AnswerKind,
        answered: Answered,
    },
    /// What takes no more memory of its own.
    Bare {
        entry: Entry,
    },
}

/// An answer without a decision, at the place.
pub(crate) fn bare_answer(seat: u32, ticket: u64, place: &i64, kind: AnswerKind) -> Note
    ensures { line_entry result ≡ rules.answer_entry (rules.bare_answer seat ticket place.now kind) }
{
    let answer = Answer {
        seat,
        ticket,
        place: *place,
        kind,
        answered: None,
    };
    Note::Bare {
        entry: Entry::Answer { answer },
    }
}

/// A pin of a place.
pub(crate) fn note_of_pin(seat: u32, ticket: u64, place: &i64) -> Note
    ensures { line_entry result ≡ pin_entry seat ticket place.now }
{
    let pin = Pin {
        seat,
        ticket,
        place: *place,
    };
    Note::Bare {
        entry: Entry::Pin { pin },
    }
}

/// An unpin of a place.
pub(crate) fn note_of_unpin(seat: u32, ticket: u64, place: &i64) -> Note
    ensures { line_entry result ≡ unpin_entry seat ticket place.now }
{
    let pin = Pin {
        seat,
        ticket,
        place: *place,
    };
    Note::Bare {
        entry: Entry::Unpin { pin },
    }
}

/// A stop.
pub(crate) fn stop(number: u64) -> Note
    ensures { line_entry result ≡ rules.stop_entry number }
{
    Note::Bare {
        entry: Entry::Stop { number },
    }
}

// The seat that is told this; none where each is.
fn seat_of(note: &Note) -> Option<u32> {
    match note {
        Note::Decided { answered, .. } => Some(answered.seat),
        Note::Bare {
            entry: Entry::Answer { answer },
        } => Some(answer.seat),
        Note::Bare {
            entry: Entry::Pin { pin } | Entry::Unpin { pin },
        } => Some(pin.seat),
        Note::Bare { .. } => None,
    }
}

/// The writes that wait, in order, and behind them what is due. To end a write that waits takes no memory.
#[derive(Drop)]
pub(crate) struct Line {
    waiting: VecDeque<Asked>,
    // The last one that waits, until there is room for it behind the others.
    newest: Option<Asked>,
    due: VecDeque<Note>,
}

impl Model for Line {
    ghost use Rattle.kr_shared.specs.LineFields.{line_of};
    ghost use Rattle.kr_shared.specs.Lines.{LineView};

    ghost Value = { LineView };

    ghost view = { line_of };
}

/// What was decided of what was asked.
pub(crate) fn note_of_decision(
    asked: Asked,
    kind: AnswerKind,
    place: &i64,
    count: u32,
    reply: Reply,
) -> Note
    ensures { line_entry result ≡ rules.answer_entry (rules.decided_answer asked kind place.now count reply) }
{
    let Asked {
        seat,
        ticket,
        floor,
        call,
        basis,
    } = asked;
    Note::Decided {
        kind,
        answered: Answered {
            seat,
            call,
            ticket,
            floor,
            place: *place,
            count,
            basis,
            reply,
        },
    }
}

// The answer that holds what was decided. It comes back where there is no memory.
fn answer_that_holds(
    alloc: Global,
    kind: AnswerKind,
    answered: Answered,
) -> Result<Answer, Answered>
    ensures ok { IfOk result (λ answer. answer ≡ rules.answer_with kind answered) }
    ensures err { IfErr result (λ refused. refused ≡ answered) }
{
    let seat = answered.seat;
    let ticket = answered.ticket;
    let place = answered.place;
    match Shared::new(alloc, answered) {
        Ok(held) => Ok(Answer {
            seat,
            ticket,
            place,
            kind,
            answered: Some(held),
        }),
        Err(failed) => Err(failed.value),
    }
}

// Stages an entry. It comes back where there is no room for it.
fn stage_entry(publisher: &mut Publisher, entry: Entry) -> Result<(), Note>
    ensures ok { OnOk result (publisher.new ≡ with_staged publisher.old entry) }
    ensures err { IfErr result (λ refused. (line_entry refused ≡ entry)
        × (publisher.new ≡ publisher.old)) }
{
    match publisher.stage(entry) {
        Ok(()) => Ok(()),
        Err(entry) => Err(Note::Bare { entry }),
    }
}

// Stages what is due. It comes back where there is no memory.
fn stage_note(alloc: Global, publisher: &mut Publisher, note: Note) -> Result<(), Note>
    ensures ok { OnOk result (publisher.new ≡ with_staged publisher.old (line_entry note)) }
    ensures err { IfErr result (λ refused. (line_entry refused ≡ line_entry note)
        × (publisher.new ≡ publisher.old)) }
{
    match note {
        Note::Decided { kind, answered } => match answer_that_holds(alloc, kind, answered) {
            Ok(answer) => stage_entry(publisher, Entry::Answer { answer }),
            Err(answered) => Err(Note::Decided { kind, answered }),
        },
        Note::Bare { entry } => stage_entry(publisher, entry),
    }
}

// Stages all that is due, in order. What found no room stays due.
fn stage_all(
    alloc: Global,
    publisher: &mut Publisher,
    due: &mut VecDeque<Note>,
) -> Result<(), NoMemory>
    ensures same { fold with_staged publisher.new (entries_of due.new.items)
        ≡ fold with_staged publisher.old (entries_of due.old.items) }
    ensures keeps { KeepsShown publisher.old publisher.new }
    ensures all { OnOk result ((due.new.items ≡ []) × (deque_len due.new ≡ 0)) }
    ensures fewer { deque_len due.new ≤ deque_len due.old }
    ensures capacity { deque_capacity due.new ≡ deque_capacity due.old }
{
    while let Some(note) = due.pop_front() {
        if let Err(note) = stage_note(alloc, publisher, note) {
            due.push_front_reserved(note);
            return Err(NoMemory);
        }
    }
    Ok(())
}

impl Line {
    pub(crate) fn new(alloc: Global) -> Line
        ensures { IsEmpty result }
    {
        Line {
            waiting: VecDeque::new(alloc),
            newest: None,
            due: VecDeque::new(alloc),
        }
    }

    /// Room for what comes of one event more: then it takes no memory to note it. Nothing is due.
    #[tactic(auto, using(crate::proofs::Lines::lining))]
    pub(crate) fn make_room(&mut self, alloc: Global) -> Result<(), NoMemory>
        requires { IsSeated self.old }
        ensures same { self.new ≡ record self.old { room = self.new.room } }
        ensures room { OnOk result (self.new.waits < self.new.room) }
        ensures more { self.old.room ≤ self.new.room }
    {
        let Some(needed) = self.waiting.len().checked_add(2) else {
            return Err(NoMemory);
        };
        if self.due.capacity() < needed {
            self.due = VecDeque::with_capacity(alloc, needed.saturating_add(needed))?;
        }
        Ok(())
    }

    /// One more waits, behind all others.
    #[tactic(auto, using(crate::proofs::Lines::lining))]
    pub(crate) fn enter(&mut self, asked: Asked)
        requires { self.old.seated ≡ true }
        ensures { self.new ≡ record self.old {
          waiting = self.old.waiting ++ asked ∷ [];
          waits = self.old.waits + 1;
          seated = false;
        } }
    {
        self.newest = Some(asked);
    }

    // The one that waits longest.
    fn first(&mut self) -> Option<Asked>
        ensures first { self.old.waiting ≡ option_to_list result ++ self.new.waiting }
        ensures none { IfNone result (self.old.waiting ≡ []) }
        ensures waits { self.new.waits + length (option_to_list result) ≡ self.old.waits }
        ensures same { self.new ≡ record self.old {
          waiting = self.new.waiting;
          waits = self.new.waits;
          seated = self.new.seated;
        } }
    {
        match self.waiting.pop_front() {
            Some(asked) => Some(asked),
            None => self.newest.take(),
        }
    }

    /// Those that are told what is due are owed a ring.
    pub(crate) fn owe(&self, bells: &SeatBells) {
        for note in &self.due {
            match seat_of(note) {
                Some(seat) => bells.owe(seat),
                None => bells.owe_all(),
            }
        }
    }

    /// One more is due to be told.
    #[tactic(auto, using(crate::proofs::Lines::lining))]
    pub(crate) fn note(&mut self, note: Note)
        requires { self.old.dues < self.old.room }
        ensures { self.new ≡ record self.old {
          due = self.old.due ++ line_entry note ∷ [];
          dues = self.old.dues + 1;
        } }
    {
        self.due.push_back_reserved(note);
    }

    /// What waited longest is answered. It takes no memory.
    pub(crate) fn end_first(&mut self, ended: Ended, reply: Reply)
        requires { HasLineRoom self.old }
        ensures answered { answering self.new.waiting self.new.due
            ≡ rules.with_reply self.old.waiting self.old.due ended reply }
        ensures fewer { self.new.dues + self.new.waits ≤ self.old.dues + self.old.waits }
        ensures same { self.new.room ≡ self.old.room }
    {
        let Some(asked) = self.first() else {
            return;
        };
        let Ended { kind, decided: at } = ended;
        let note = note_of_decision(asked, kind, &at.place, at.count, reply);
        self.note(note);
    }

    /// The newest waits behind the others, where there is room.
    pub(crate) fn seat_newest(&mut self) -> Result<(), NoMemory>
        ensures same { self.new ≡ record self.old { seated = self.new.seated } }
        ensures seated { OnOk result (self.new.seated ≡ true) }
    {
        let Some(asked) = self.newest.take() else {
            return Ok(());
        };
        match self.waiting.push_back(asked) {
            Ok(()) => Ok(()),
            Err(failed) => {
                self.newest = Some(failed.value);
                Err(NoMemory)
            }
        }
    }

    /// Stages all that is due, in order. What found no room stays due.
    pub(crate) fn stage(&mut self, alloc: Global, publisher: &mut Publisher) -> Result<(), NoMemory>
        ensures due { fold with_staged publisher.new self.new.due
            ≡ fold with_staged publisher.old self.old.due }
        ensures keeps { KeepsShown publisher.old publisher.new }
        ensures all { OnOk result ((self.new.due ≡ []) × (self.new.dues ≡ 0)) }
        ensures fewer { self.new.dues ≤ self.old.dues }
        ensures same { self.new ≡ record self.old { due = self.new.due; dues = self.new.dues } }
    {
        stage_all(alloc, publisher, &mut self.due)
    }
}
