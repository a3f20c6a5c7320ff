//! What a worker keeps between its turns, and how it serves an event.

ghost use Rattle.std.specs.Prelude.{◌≡◌, ◌&&◌, ◌<◌, ◌++◌, ℤ, [], true, false, Some, OnOk, IfOk, IfErr, OnErr, IsOk, is_some, fold, int_lt, IsTrue, not};
ghost use Rattle.std.specs.Int.{int_max};
ghost use Rattle.kr_calls.specs.declared.events.Event.TheVariants as events;
ghost use Rattle.kr_calls.specs.Decide.{is_read};
ghost use Rattle.kr_calls.specs.SeatList.{is_below};
ghost use Rattle.kr_queue.specs.Jobs.{is_fit};
ghost use Rattle.kr_view.specs.Shelves.{IsDelayed, MayPublish, shown_at, with_staged};
ghost use Rattle.kr_view.specs.Staged.{staged_above, staged_below};
ghost use Rattle.kr_model.specs.Engine.{IsSound, IsStep, outputs_left};
ghost use Rattle.kr_model.specs.World.{is_far};
ghost use Rattle.law_published_log.specs.Following.{AreNotes};
ghost use Rattle.kr_shared.specs.Answers.{aside_noted};
ghost use Rattle.kr_shared.specs.Desks.{ComesToSame, HasSpare, IsNewDesk, IsPrepared, IsCaughtUp, DeskStands, StaysDue, held_back, aside_by, entered_by, settled, takes_writes};
ghost use Rattle.kr_shared.specs.Gives.{GivesOut};
ghost use Rattle.kr_shared.specs.Lines.{HasLineRoom, IsSeated, line_entry};
ghost use Rattle.kr_shared.specs.Turns.{LosesLed, LosesUnless, Notes, NotesUnlessAhead, job_again, outside, write_job};
ghost use Rattle.kr_shared.specs.Tasks.{IsTask, basis_at};
ghost use Rattle.kr_shared.specs.Works.{IsBareNote, KeepsShown, Onwards, call_in, call_of};
ghost use Rattle.kr_shared.specs.inner.Dropping.{left_if, up_to_below};
ghost use Rattle.kr_shared.specs.inner.DeskCalls.{ComesBack, ComesBackCaughtUp, DeskDoesJob, DeskPins, DeskServes, DeskServesRequest, DeskServesWhole, DeskWrites};

use crate::answers::{Aside, Asking, asked_by};
use crate::bell::SeatBells;
use crate::line::{Line, Note, bare_answer, note_of_decision, note_of_pin, note_of_unpin, stop};
use crate::taking::{Given, give_out};
use kr_base::{Clock, NoMemory, Quorum, Steps};
use kr_calls::{AnswerKind, Ask, Call, Entry, Event, Reason, Reply};
use kr_defs::Basis;
use kr_defs::limits::GREATEST_TIP;
use kr_engine::Engine;
use kr_queue::Job;
use kr_view::Publisher;
use std::alloc::Global;
use std::collections::VecDeque;
use std::marker::Model;
use std::sync::Wait;
use std::sync::ledger::Ledger;

/// The engine, the publisher of its log below the closed end, the clients that wait, and what isn't published yet. It is not
/// `Drop`: end it by `close`.
pub(crate) struct Desk {
    alloc: Global,
    publisher: Publisher,
    engine: Engine,
    line: Line,
    // What the engine added to the log, until the closed end is behind it.
    unstaged: VecDeque<Entry>,
    // Behind it, what the last step added.
    fresh: VecDeque<Entry>,
}

impl Model for Desk {
    ghost use Rattle.kr_shared.specs.Desks.{DeskState};

    ghost Value = { DeskState };

    ghost view = { λ d. record {
      shelf = d.publisher;
      engine = d.engine;
      line = d.line;
      unstaged = d.unstaged.items;
      fresh = d.fresh.items;
    } };
}

/// How an event was served.
#[derive(Drop)]
pub(crate) struct Served {
    /// No append failed.
    pub appended: bool,
    /// Why the event was refused, if it was.
    pub refusal: Option<Reason>,
}

/// Who asks.
#[derive(Drop)]
pub(crate) struct Caller {
    /// The client's number, from 1.
    pub seat: u32,
    /// The number of the call among those of the client.
    pub ticket: u64,
    /// The place in the log up to which the client had seen it.
    pub floor: i64,
}

fn call_of(ask: Ask) -> Option<Call>
    ensures { result ≡ call_of ask }
{
    match ask {
        Ask::Call(call) => Some(call),
        Ask::Bare { .. } => None,
    }
}

fn call_in(event: Event) -> Option<Call>
    ensures { result ≡ call_in event }
{
    match event {
        Event::Request { ask, .. } => call_of(ask),
        _ => None,
    }
}

// The client's job from which the event was made.
fn job_again(seat: u32, ticket: u64, floor: &i64, event: Event) -> Job
    ensures { result ≡ job_again seat ticket floor.now event }
{
    match event {
        Event::Request {
            ask: Ask::Call(call),
            ..
        } => Job::Write {
            seat,
            ticket,
            floor: *floor,
            call,
        },
        other => Job::Link { event: other },
    }
}

// The log takes no more.
fn is_far(tip: &i64) -> bool
    ensures { result ≡ is_far tip.now }
{
    GREATEST_TIP < *tip
}

fn later(time: &i64, other: &i64) -> i64
    ensures { result ≡ int_max time.now other.now }
{
    (*time).max(*other)
}

// An item or an image in place of all stands below the end.
fn is_below(entry: &Entry, end: &i64) -> bool
    ensures { result ≡ is_below end.now entry.now }
{
    match entry {
        Entry::Item { place, .. } => place < end,
        Entry::Load { offset, .. } => offset <= end,
        Entry::Pin { .. } | Entry::Unpin { .. } | Entry::Answer { .. } | Entry::Stop { .. } => true,
    }
}

// What was added last stands behind the others. What found no room stays.
fn join(unstaged: &mut VecDeque<Entry>, fresh: &mut VecDeque<Entry>) -> Result<(), NoMemory>
    ensures same { unstaged.new.items ++ fresh.new.items ≡ unstaged.old.items ++ fresh.old.items }
    ensures all { OnOk result (fresh.new.items ≡ []) }
{
    while let Some(entry) = fresh.pop_front() {
        if let Err(failed) = unstaged.push_back(entry) {
            fresh.push_front_reserved(failed.value);
            return Err(NoMemory);
        }
    }
    Ok(())
}

// Stages what is below the end, in order. What found no room stays.
fn stage_below(
    publisher: &mut Publisher,
    unstaged: &mut VecDeque<Entry>,
    end: &i64,
) -> Result<(), NoMemory>
    ensures same { fold with_staged publisher.new (staged_below end.now unstaged.new.items)
        ≡ fold with_staged publisher.old (staged_below end.now unstaged.old.items) }
    ensures left { staged_above end.now unstaged.new.items
        ≡ staged_above end.now unstaged.old.items }
    ensures keeps { KeepsShown publisher.old publisher.new }
    ensures all { OnOk result (staged_below end.now unstaged.new.items ≡ []) }
{
    while let Some(entry) = unstaged.pop_front() {
        if !is_below(&entry, end) {
            unstaged.push_front_reserved(entry);
            return Ok(());
        }
        if let Err(entry) = publisher.stage(entry) {
            unstaged.push_front_reserved(entry);
            return Err(NoMemory);
        }
    }
    Ok(())
}

// What stands behind the last entry below the end goes.
#[tactic(auto, using(crate::proofs::Dropped::dropping))]
fn drop_behind(entries: &mut VecDeque<Entry>, end: &i64)
    ensures { entries.new.items ≡ up_to_below end.now entries.old.items }
{
    while let Some(entry) = entries.pop_back() {
        if is_below(&entry, end) {
            entries.push_back_reserved(entry);
            return;
        }
    }
}

impl Desk {
    pub(crate) fn new(alloc: Global, publisher: Publisher, engine: Engine) -> Desk
        ensures { IsNewDesk publisher engine result }
    {
        Desk {
            alloc,
            publisher,
            engine,
            line: Line::new(alloc),
            unstaged: VecDeque::new(alloc),
            fresh: VecDeque::new(alloc),
        }
    }

    // ---- what is due is published

    // Stages what the engine added to the log below its closed end.
    fn stage_entries(&mut self) -> Result<(), NoMemory>
        ensures due { StaysDue self.old self.new }
        ensures fresh { OnOk result (self.new.fresh ≡ []) }
        ensures unstaged { OnOk result
            (staged_below self.new.engine.closed self.new.unstaged ≡ []) }
    {
        join(&mut self.unstaged, &mut self.fresh)?;
        let end = self.engine.closed();
        stage_below(&mut self.publisher, &mut self.unstaged, &end)
    }

    // Finds room for the one that waits last.
    fn seat_newest(&mut self) -> Result<(), NoMemory>
        ensures due { StaysDue self.old self.new }
        ensures unstaged { self.new.unstaged ≡ self.old.unstaged }
        ensures fresh { self.new.fresh ≡ self.old.fresh }
        ensures seated { OnOk result (self.new.line.seated ≡ true) }
    {
        self.line.seat_newest()
    }

    // Stages what clients are to be told.
    fn stage_notes(&mut self) -> Result<(), NoMemory>
        requires fresh { self.old.fresh ≡ [] }
        requires unstaged { staged_below self.old.engine.closed self.old.unstaged ≡ [] }
        ensures due { StaysDue self.old self.new }
        ensures unstaged { self.new.unstaged ≡ self.old.unstaged }
        ensures fresh { self.new.fresh ≡ self.old.fresh }
        ensures all { OnOk result (self.old.line.seated ≡ true → IsSeated self.new.line) }
    {
        self.line.stage(self.alloc, &mut self.publisher)
    }

    // Stages all that is due.
    fn prepare(&mut self) -> Result<(), NoMemory>
        ensures due { StaysDue self.old self.new }
        ensures all { OnOk result (IsPrepared self.new) }
    {
        self.stage_entries()?;
        self.seat_newest()?;
        self.stage_notes()
    }

    // Publishes up to the closed end.
    fn show<R: Wait>(&mut self, rt: &R) -> Result<(), NoMemory>
        requires { MayPublish self.old.engine.closed self.old.shelf }
        ensures ok { OnOk result (self.new ≡ record self.old {
          shelf = shown_at self.old.engine.closed self.old.shelf;
        }) }
        ensures err { OnErr result (IsDelayed self.old.engine.closed self.old.shelf self.new.shelf
            × (self.new ≡ record self.old { shelf = self.new.shelf })) }
    {
        let end = self.engine.closed();
        self.publisher.publish(rt, end)
    }

    /// Those that are told what is due are owed a ring.
    pub(crate) fn owe(&self, bells: &SeatBells) {
        self.line.owe(bells);
    }

    /// Publishes all that is due. Without memory it stays due.
    pub(crate) fn settle<R: Wait>(&mut self, rt: &R) -> Result<(), NoMemory>
        requires { DeskStands self.old }
        ensures same { ComesToSame self.old self.new }
        ensures done { OnOk result (IsCaughtUp self.new) }
        ensures onwards { Onwards self.old.shelf self.new.shelf }
    {
        self.prepare()?;
        self.show(rt)
    }

    // ---- the engine takes an event

    /// The epoch in which this node leads.
    fn led_epoch(&self) -> Option<i32>
        ensures { result ≡ self.now.engine.leading }
    {
        self.engine.leading()
    }

    // This node leads.
    fn is_led(&self) -> bool
        ensures { result ≡ is_some self.now.engine.leading }
    {
        self.engine.leading().is_some()
    }

    // A write would be taken.
    fn takes_writes(&self) -> bool
        ensures { result ≡ takes_writes self.now.engine }
    {
        self.engine.leading().is_some() && !is_far(&self.engine.tip())
    }

    // This node led, and leads no more.
    fn has_lost(&self, led: bool) -> bool
        ensures { result ≡ (led && not (is_some self.now.engine.leading)) }
    {
        led && self.engine.leading().is_none()
    }

    // The engine takes an event. Without memory all is as before.
    fn step<L: Ledger>(&mut self, event: &Event, steps: &mut Steps<L>) -> Result<(), NoMemory>
        requires sound { IsSound self.old.engine }
        requires drained { outputs_left self.old.engine ≡ [] }
        ensures done { OnOk result (IsStep self.old.engine self.new.engine event.now) }
        ensures sound { IsSound self.new.engine }
        ensures same { self.new ≡ record self.old { engine = self.new.engine } }
        ensures err { OnErr result (self.new ≡ self.old) }
        ensures lost { (epoch : ℤ) → event.now ≡ events.Lost epoch → IsOk result }
    {
        self.engine.step(event, steps)
    }

    // A write that is taken waits behind the others; one that isn't is put aside.
    fn enter(&mut self, asking: Option<Asking>, event: Event, takes: bool) -> Option<Aside>
        requires seated { IsSeated self.old.line }
        requires room { self.old.line.waits < self.old.line.room }
        ensures aside { result ≡ aside_by takes asking event }
        ensures entered { self.new.line.waiting
            ≡ self.old.line.waiting ++ entered_by takes asking event }
        ensures due { self.new.line.due ≡ self.old.line.due }
        ensures room { HasSpare result self.new.line }
        ensures same { self.new ≡ record self.old { line = self.new.line } }
    {
        let Some(asking) = asking else {
            return None;
        };
        let Some(call) = call_in(event) else {
            return None;
        };
        let Aside { asked, place } = asked_by(asking, call);
        if takes {
            self.line.enter(asked);
            return None;
        }
        Some(Aside { asked, place })
    }

    // All that the engine gives is given out.
    #[tactic(auto, using(kr_model::proofs::SoundEngines::sound_order))]
    fn give_out<Q: Quorum>(&mut self, quorum: &mut Q) -> Given
        requires ordered { IsSound self.old.engine }
        requires room { HasLineRoom self.old.line }
        ensures given { GivesOut self.old.engine self.new.engine (Q.pieces quorum.old)
            (Q.pieces quorum.new) (Q.faults quorum.old) (Q.faults quorum.new) self.old.line
            self.new.line result }
        ensures same { self.new ≡ record self.old {
          engine = self.new.engine;
          line = self.new.line;
        } }
    {
        give_out(&mut self.engine, quorum, &mut self.line)
    }

    // A write that doesn't wait was refused, or is lost at once.
    fn answer(&mut self, aside: Option<Aside>, refusal: &Option<Reason>, reply: Option<Reply>)
        requires { HasSpare aside self.old.line }
        ensures due { self.new.line.due
            ≡ self.old.line.due ++ aside_noted aside refusal.now reply }
        ensures waiting { self.new.line.waiting ≡ self.old.line.waiting }
        ensures room { HasLineRoom self.new.line }
        ensures same { self.new ≡ record self.old { line = self.new.line } }
    {
        let Some(Aside { asked, place }) = aside else {
            return;
        };
        if refusal.is_some() {
            let kind = AnswerKind::Exhausted;
            let note = bare_answer(asked.seat, asked.ticket, &place, kind);
            self.line.note(note);
            return;
        }
        if let Some(reply) = reply {
            let note = note_of_decision(asked, AnswerKind::Lost, &place, 0, reply);
            self.line.note(note);
        }
    }

    // With a leadership all goes that isn't below the committed end.
    fn drop_lost(&mut self, lost: bool)
        ensures left { held_back self.new
            ≡ left_if lost self.old.engine.committed (held_back self.old) }
        ensures fresh { self.old.fresh ≡ [] → self.new.fresh ≡ [] }
        ensures same { self.new ≡ record self.old {
          unstaged = self.new.unstaged;
          fresh = self.new.fresh;
        } }
    {
        if !lost {
            return;
        }
        let end = self.engine.committed();
        drop_behind(&mut self.fresh, &end);
        if self.fresh.is_empty() {
            drop_behind(&mut self.unstaged, &end);
        }
    }

    // What the step added stands behind the others.
    fn keep_fresh(&mut self)
        requires { self.old.fresh ≡ [] }
        ensures { self.new ≡ record self.old {
          fresh = self.old.engine.fresh;
          engine = record self.old.engine { fresh = [] };
        } }
    {
        self.fresh = VecDeque::from_vec(self.engine.take_fresh());
    }

    /// Serves an event: the engine takes it, the quorum gets what it appends, and what is to be published is due. Without
    /// memory for the step all is as before, and the event comes back.
    fn serve<Q: Quorum, L: Ledger>(
        &mut self,
        quorum: &mut Q,
        event: Event,
        asking: Option<Asking>,
        steps: &mut Steps<L>,
    ) -> Result<Served, Event>
        requires stands { DeskStands self.old }
        requires rests { IsCaughtUp self.old }
        requires room { self.old.line.waits < self.old.line.room }
        requires task { IsTask self.old.engine event asking }
        ensures done { IfOk result (λ served. DeskServes Q.pieces Q.faults
            quorum.old quorum.new self.old self.new event asking served) }
        ensures stands { OnOk result (DeskStands self.new × AreNotes self.new.line.due) }
        ensures err { IfErr result (λ refused. ComesBack Q.pieces Q.faults
            refused event quorum.old quorum.new self.old self.new) }
        ensures shown { KeepsShown self.old.shelf self.new.shelf }
    {
        let led = self.is_led();
        let takes = self.takes_writes();
        if self.step(&event, steps).is_err() {
            return Err(event);
        }
        let aside = self.enter(asking, event, takes);
        let Given {
            appended,
            refusal,
            reply,
        } = self.give_out(quorum);
        self.answer(aside, &refusal, reply);
        let lost = self.has_lost(led);
        self.drop_lost(lost);
        self.keep_fresh();
        Ok(Served { appended, refusal })
    }

    // The leadership in this epoch is lost. It takes no memory.
    fn lose_led<Q: Quorum, L: Ledger>(&mut self, quorum: &mut Q, epoch: i32, steps: &mut Steps<L>)
        requires stands { DeskStands self.old }
        requires led { self.old.engine.leading ≡ Some epoch }
        requires bare { AreNotes self.old.line.due }
        ensures done { LosesLed (Q.pieces quorum.old) (Q.pieces quorum.new)
            (Q.faults quorum.old) (Q.faults quorum.new) (settled self.old) (settled self.new)
            (Some epoch) }
        ensures stands { DeskStands self.new }
        ensures shown { KeepsShown self.old.shelf self.new.shelf }
    {
        let event = Event::Lost { epoch };
        if self.step(&event, steps).is_err() {
            unreachable!();
        }
        let _given = self.give_out(quorum);
        let _fresh = self.engine.take_fresh();
        self.drop_lost(true);
    }

    // The leadership is lost in which this node leads, where an append failed.
    fn lose<Q: Quorum, L: Ledger>(&mut self, quorum: &mut Q, appended: bool, steps: &mut Steps<L>)
        requires stands { DeskStands self.old }
        requires bare { AreNotes self.old.line.due }
        ensures done { LosesUnless appended (Q.pieces quorum.old) (Q.pieces quorum.new)
            (Q.faults quorum.old) (Q.faults quorum.new) (settled self.old) (settled self.new) }
        ensures stands { DeskStands self.new }
        ensures shown { KeepsShown self.old.shelf self.new.shelf }
    {
        if appended {
            return;
        }
        if let Some(epoch) = self.led_epoch() {
            self.lose_led(quorum, epoch, steps);
        }
    }

    /// Serves an event, and where an append failed the loss of the leadership. Without memory for the step all is as before,
    /// and the event comes back.
    fn serve_whole<Q: Quorum, L: Ledger>(
        &mut self,
        quorum: &mut Q,
        event: Event,
        asking: Option<Asking>,
        steps: &mut Steps<L>,
    ) -> Result<Option<Reason>, Event>
        requires stands { DeskStands self.old }
        requires rests { IsCaughtUp self.old }
        requires room { self.old.line.waits < self.old.line.room }
        requires task { IsTask self.old.engine event asking }
        ensures done { IfOk result (λ refusal. DeskServesWhole Q.pieces Q.faults
            quorum.old quorum.new self.old self.new event asking refusal) }
        ensures stands { OnOk result (DeskStands self.new) }
        ensures err { IfErr result (λ refused. ComesBack Q.pieces Q.faults
            refused event quorum.old quorum.new self.old self.new) }
        ensures shown { KeepsShown self.old.shelf self.new.shelf }
    {
        let Served { appended, refusal } = self.serve(quorum, event, asking, steps)?;
        self.lose(quorum, appended, steps);
        Ok(refusal)
    }

    // ---- jobs

    // A pin, an unpin, an answer or a stop is to be told at once.
    fn note(&mut self, note: Note)
        requires stands { DeskStands self.old }
        requires rests { IsCaughtUp self.old }
        requires room { self.old.line.waits < self.old.line.room }
        requires bare { IsBareNote (settled self.old).shelf.list (line_entry note) }
        ensures done { Notes (settled self.old) (settled self.new) (line_entry note) }
        ensures stands { DeskStands self.new }
        ensures shown { self.new.shelf ≡ self.old.shelf }
    {
        self.line.note(note);
    }

    // What decisions rest on at the time.
    fn basis_at(&self, now: &i64) -> Result<Basis, NoMemory>
        ensures { IfOk result (λ basis. basis ≡ basis_at self.now.engine now.now) }
    {
        let mut basis = self.engine.basis()?;
        basis.time = later(&basis.time, now);
        Ok(basis)
    }

    // The client has seen more of the log than there is.
    fn is_behind(&self, floor: &i64) -> bool
        ensures { result ≡ int_lt self.now.engine.tip floor.now }
    {
        self.engine.tip() < *floor
    }

    // Room for what comes of one event.
    fn make_room(&mut self) -> Result<(), NoMemory>
        requires stands { DeskStands self.old }
        requires rests { IsCaughtUp self.old }
        ensures same { settled self.new ≡ settled self.old }
        ensures stands { DeskStands self.new }
        ensures rests { IsCaughtUp self.new }
        ensures shown { self.new.shelf ≡ self.old.shelf }
        ensures engine { self.new.engine ≡ self.old.engine }
        ensures room { OnOk result (self.new.line.waits < self.new.line.room) }
    {
        self.line.make_room(self.alloc)
    }

    // A client's write, at the time. Without memory for the step all is as before, and the job comes back.
    fn write_at<Q: Quorum, L: Ledger>(
        &mut self,
        quorum: &mut Q,
        caller: Caller,
        now: &i64,
        call: Call,
        steps: &mut Steps<L>,
    ) -> Result<(), Job>
        requires stands { DeskStands self.old }
        requires rests { IsCaughtUp self.old }
        requires room { self.old.line.waits < self.old.line.room }
        requires write { IsTrue (not (is_read call.request)) }
        requires floor { IsTrue (not (int_lt self.old.engine.tip caller.floor)) }
        ensures done { OnOk result (DeskServesRequest Q.pieces Q.faults
            quorum.old quorum.new self.old self.new caller now.now call) }
        ensures stands { OnOk result (DeskStands self.new) }
        ensures err { IfErr result (λ refused. ComesBack Q.pieces Q.faults
            refused (write_job caller call) quorum.old quorum.new self.old self.new) }
        ensures shown { KeepsShown self.old.shelf self.new.shelf }
    {
        let Caller {
            seat,
            ticket,
            floor,
        } = caller;
        let Ok(basis) = self.basis_at(now) else {
            return Err(Job::Write {
                seat,
                ticket,
                floor,
                call,
            });
        };
        let place = self.engine.tip();
        let asking = Asking {
            seat,
            ticket,
            floor,
            place,
            basis,
        };
        let event = Event::Request {
            client: seat,
            now: *now,
            ask: Ask::Call(call),
        };
        match self.serve_whole(quorum, event, Some(asking), steps) {
            Ok(_) => Ok(()),
            Err(event) => Err(job_again(seat, ticket, &floor, event)),
        }
    }

    // A client's write. Without memory all is as before, and the job comes back.
    fn write<Q: Quorum, C: Clock, L: Ledger>(
        &mut self,
        quorum: &mut Q,
        clock: &mut C,
        caller: Caller,
        call: Call,
        steps: &mut Steps<L>,
    ) -> Result<(), Job>
        requires stands { DeskStands self.old }
        requires rests { IsCaughtUp self.old }
        requires room { self.old.line.waits < self.old.line.room }
        requires write { IsTrue (not (is_read call.request)) }
        ensures done { OnOk result (DeskWrites (outside Q.pieces Q.faults C.asks C.last
            quorum.old quorum.new clock.old clock.new) self.old self.new caller call) }
        ensures stands { OnOk result (DeskStands self.new) }
        ensures err { IfErr result (λ refused. ComesBack Q.pieces Q.faults
            refused (write_job caller call) quorum.old quorum.new self.old self.new) }
        ensures shown { KeepsShown self.old.shelf self.new.shelf }
    {
        if self.is_behind(&caller.floor) {
            let tip = self.engine.tip();
            let kind = AnswerKind::Ahead;
            let note = bare_answer(caller.seat, caller.ticket, &tip, kind);
            self.note(note);
            return Ok(());
        }
        let now = clock.now();
        self.write_at(quorum, caller, &now, call, steps)
    }

    // What a client keeps or gives back is to be told, unless the client has seen more of the log than there is.
    fn note_unless_ahead(&mut self, caller: Caller, note: Note)
        requires stands { DeskStands self.old }
        requires rests { IsCaughtUp self.old }
        requires room { self.old.line.waits < self.old.line.room }
        requires bare { IsBareNote (settled self.old).shelf.list (line_entry note) }
        ensures done { NotesUnlessAhead (int_lt self.old.engine.tip caller.floor)
            (settled self.old) (settled self.new) caller.seat caller.ticket (line_entry note) }
        ensures stands { DeskStands self.new }
        ensures shown { self.new.shelf ≡ self.old.shelf }
    {
        if self.is_behind(&caller.floor) {
            let tip = self.engine.tip();
            let kind = AnswerKind::Ahead;
            self.note(bare_answer(caller.seat, caller.ticket, &tip, kind));
            return;
        }
        self.note(note);
    }

    // The closed end is pinned, unless the client has seen more of the log than there is.
    fn note_pin(&mut self, caller: Caller)
        requires stands { DeskStands self.old }
        requires rests { IsCaughtUp self.old }
        requires room { self.old.line.waits < self.old.line.room }
        ensures done { DeskPins self.old self.new caller }
        ensures stands { DeskStands self.new }
        ensures shown { self.new.shelf ≡ self.old.shelf }
    {
        let place = self.engine.closed();
        let note = note_of_pin(caller.seat, caller.ticket, &place);
        self.note_unless_ahead(caller, note);
    }

    // Does a job, for whose notes there is room.
    fn do_with_room<Q: Quorum, C: Clock, L: Ledger>(
        &mut self,
        quorum: &mut Q,
        clock: &mut C,
        job: Job,
        steps: &mut Steps<L>,
    ) -> Result<Option<Reason>, Job>
        requires stands { DeskStands self.old }
        requires rests { IsCaughtUp self.old }
        requires room { self.old.line.waits < self.old.line.room }
        requires fit { IsTrue (is_fit job) }
        ensures done { IfOk result (λ refusal. DeskDoesJob (outside Q.pieces Q.faults C.asks C.last
            quorum.old quorum.new clock.old clock.new) self.old self.new job refusal) }
        ensures stands { OnOk result (DeskStands self.new) }
        ensures err { IfErr result (λ refused. ComesBack Q.pieces Q.faults
            refused job quorum.old quorum.new self.old self.new) }
        ensures shown { KeepsShown self.old.shelf self.new.shelf }
    {
        match job {
            Job::Link { event } => match self.serve_whole(quorum, event, None, steps) {
                Ok(refusal) => Ok(refusal),
                Err(event) => Err(Job::Link { event }),
            },
            Job::Stop { number } => {
                self.note(stop(number));
                Ok(None)
            }
            Job::Write {
                seat,
                ticket,
                floor,
                call,
            } => {
                let caller = Caller {
                    seat,
                    ticket,
                    floor,
                };
                self.write(quorum, clock, caller, call, steps)?;
                Ok(None)
            }
            Job::Pin {
                seat,
                ticket,
                floor,
            } => {
                self.note_pin(Caller {
                    seat,
                    ticket,
                    floor,
                });
                Ok(None)
            }
            Job::Unpin {
                seat,
                ticket,
                floor,
                place,
            } => {
                let note = note_of_unpin(seat, ticket, &place);
                let caller = Caller {
                    seat,
                    ticket,
                    floor,
                };
                self.note_unless_ahead(caller, note);
                Ok(None)
            }
        }
    }

    /// Does a job; what is to be published of it is due. Without memory for the step all is as before, and the job comes
    /// back.
    pub(crate) fn do_job<Q: Quorum, C: Clock, L: Ledger>(
        &mut self,
        quorum: &mut Q,
        clock: &mut C,
        job: Job,
        steps: &mut Steps<L>,
    ) -> Result<Option<Reason>, Job>
        requires stands { DeskStands self.old }
        requires rests { IsCaughtUp self.old }
        requires fit { IsTrue (is_fit job) }
        ensures done { IfOk result (λ refusal. DeskDoesJob (outside Q.pieces Q.faults C.asks C.last
            quorum.old quorum.new clock.old clock.new) self.old self.new job refusal) }
        ensures stands { DeskStands self.new }
        ensures err { IfErr result (λ refused. ComesBackCaughtUp Q.pieces Q.faults
            refused job quorum.old quorum.new self.old self.new) }
        ensures shown { KeepsShown self.old.shelf self.new.shelf }
    {
        if self.make_room().is_err() {
            return Err(job);
        }
        self.do_with_room(quorum, clock, job, steps)
    }

    pub(crate) fn close<R: Wait>(self, rt: &R) {
        let Desk {
            alloc: _alloc,
            publisher,
            engine: _engine,
            line: _line,
            unstaged: _unstaged,
            fresh: _fresh,
        } = self;
        publisher.close(rt);
    }
}
