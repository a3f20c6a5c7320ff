//! The top call: one run of the tool.

ghost use Rattle.std.specs.Prelude.{◌≡◌, ◌⊎◌, ◌↔◌, ℕ, Some, [], ◌++◌, ◌∷◌, IfOk, IsSome, IsTrue, codes, string_bytes};
ghost use Rattle.std.specs.Fmt.{decimal};
ghost use Rattle.std.specs.Io.KnownBytes.{Appends};
ghost use Rattle.kr_base.specs.Causes.{Rose, Still};
ghost use Rattle.kr_session_loop.specs.Endings.{BreaksRightly, EndsWith, RefusesBroken, ServesWhole};
ghost use Rattle.kr_fold.specs.Endings.{DumpEnds, DumpsWhole, FoldEnds, FoldsNoMore, FoldsWhole, RefusesBroken as RefusesBrokenImage, RefusesLonger};
ghost use Rattle.kr_leaders.specs.Endings.{BalanceEnds, BalancesWhole, RefusesPast};
ghost use Rattle.kr_words.specs.Notes as notes;
ghost use Rattle.kr_words.specs.Making.{AllAnswered, MakeEnds, MakesWhole, NodesEnds};
ghost use Rattle.kr_words.specs.Notes.{AreServed, IsBalance, IsDump, IsFold, IsMake, IsNodes, IsOf, IsSession, note_of, line, IsMalformed};

use crate::making::{write_nodes, write_summary};
use crate::percents::percent_of;
use crate::seeds::seed_of;
use kr_base::{Sink, Source};
use kr_defs::Text;
use kr_fold::{ToolFault, dump, fold};
use kr_leaders::balance;
use kr_process::{Status, WordsFault};
use kr_session_loop::session;
use std::alloc::{AllocError, Global};

/// Runs the tool by its word: `session` serves the session that comes from `input` and writes its output frames to
/// `output`; `fold` reads record batches from place 0 to the end of the input and writes the image that they make;
/// `dump` reads an image and writes its text; `make N` leads a controller through the session of the number, and writes what
/// came of it; `nodes N` makes the moves of the number with three controllers over one list, and writes what came of them;
/// `balance P` reads an image, gives back to their preferred leaders the partitions of the brokers of which more
/// than P % are imbalanced, and writes the image behind that. The line of a status other than Done goes to `notes`; a fault
/// of `notes` changes no status. All other words are answered Usage.
pub fn run<S: Source, K: Sink, E: Sink>(
    alloc: Global,
    words: &[Text],
    input: &mut S,
    output: &mut K,
    notes: &mut E,
) -> Status
    // The bytes that were taken and those that were written, at each status.
    ensures session { IsSession words.now → EndsWith (S.left input.old) (S.left input.new)
        (K.written output.old) (K.written output.new) result }
    ensures fold { IsFold words.now → IsOf (FoldEnds (S.left input.old) (S.left input.new)
        (K.written output.old) (K.written output.new)) result }
    ensures dump { IsDump words.now → IsOf (DumpEnds (S.left input.old) (S.left input.new)
        (K.written output.old) (K.written output.new)) result }
    ensures make { (seed : ℕ) → IsMake words.now seed → IsOf (MakeEnds seed (S.left input.old)
        (S.left input.new) (K.written output.old) (K.written output.new)) result }
    ensures nodes { (seed : ℕ) → IsNodes words.now seed → IsOf (NodesEnds seed (S.left input.old)
        (S.left input.new) (K.written output.old) (K.written output.new)) result }
    ensures balance { (percent : ℕ) → IsBalance words.now percent →
        IsOf (BalanceEnds percent (S.left input.old) (S.left input.new) (K.written output.old)
        (K.written output.new)) result }

    // Usage is told exactly where the words aren't served, and then nothing is taken or written.
    ensures usage { result ≡ Status.Usage → AreServed words.now → ⊥ }
    ensures served { (AreServed words.now → ⊥) → result ≡ Status.Usage }
    ensures idle { result ≡ Status.Usage → EndsWith (S.left input.old) (S.left input.new)
        (K.written output.old) (K.written output.new) Status.Usage }

    // A fault is told only where that object's count rose in this call.
    ensures read { result ≡ Status.ReadFault → Rose (S.faults input.old) (S.faults input.new) }
    ensures write { result ≡ Status.WriteFault → Rose (K.faults output.old) (K.faults output.new) }

    // Where no read and no write failed: a whole session is served, and a broken one is refused at that frame.
    ensures complete { IsSession words.now → Still (S.faults input.old) (S.faults input.new) →
        Still (K.faults output.old) (K.faults output.new) → ServesWhole (S.left input.old) result }
    ensures broken { IsSession words.now → Still (S.faults input.old) (S.faults input.new) →
        Still (K.faults output.old) (K.faults output.new) →
        RefusesBroken (S.left input.old) result }

    // Where it is refused, no frame stands.
    ensures breaks { IsSession words.now → BreaksRightly (S.left input.old) result }

    // Where no read and no write failed: a log is folded and an image dumped, and what breaks is refused at that batch.
    ensures fold_complete { IsFold words.now → Still (S.faults input.old) (S.faults input.new) →
        Still (K.faults output.old) (K.faults output.new) →
        IsOf (FoldsWhole (S.left input.old)) result }
    ensures fold_broken { IsFold words.now → Still (S.faults input.old) (S.faults input.new) →
        Still (K.faults output.old) (K.faults output.new) →
        IsOf (FoldsNoMore (S.left input.old)) result }
    ensures dump_complete { IsDump words.now → Still (S.faults input.old) (S.faults input.new) →
        Still (K.faults output.old) (K.faults output.new) →
        IsOf (DumpsWhole (S.left input.old)) result }
    ensures dump_broken { IsDump words.now → Still (S.faults input.old) (S.faults input.new) →
        Still (K.faults output.old) (K.faults output.new) →
        IsOf (RefusesBrokenImage (S.left input.old)) result }
    ensures dump_longer { IsDump words.now → Still (S.faults input.old) (S.faults input.new) →
        Still (K.faults output.old) (K.faults output.new) →
        IsOf (RefusesLonger (S.left input.old)) result }
    ensures make_complete { (seed : ℕ) → IsMake words.now seed →
        Still (K.faults output.old) (K.faults output.new) → IsOf MakesWhole result }
    ensures nodes_complete { (seed : ℕ) → IsNodes words.now seed →
        Still (K.faults output.old) (K.faults output.new) → IsOf MakesWhole result }

    // Of the number's session the lines count each request once, as answered without an error or with one.
    ensures make_answered { (seed : ℕ) → IsMake words.now seed → result ≡ Status.Done →
        AllAnswered seed }

    // Likewise an image is balanced, or refused: also where it is past the last place at which a leader begins.
    ensures balance_complete { (percent : ℕ) → IsBalance words.now percent →
        Still (S.faults input.old) (S.faults input.new) →
        Still (K.faults output.old) (K.faults output.new) →
        IsOf (BalancesWhole (S.left input.old)) result }
    ensures balance_past { (percent : ℕ) → IsBalance words.now percent →
        Still (S.faults input.old) (S.faults input.new) →
        Still (K.faults output.old) (K.faults output.new) →
        IsOf (RefusesPast (S.left input.old)) result }
    ensures balance_broken { (percent : ℕ) → IsBalance words.now percent →
        Still (S.faults input.old) (S.faults input.new) →
        Still (K.faults output.old) (K.faults output.new) →
        IsOf (RefusesBrokenImage (S.left input.old)) result }
    ensures balance_longer { (percent : ℕ) → IsBalance words.now percent →
        Still (S.faults input.old) (S.faults input.new) →
        Still (K.faults output.old) (K.faults output.new) →
        IsOf (RefusesLonger (S.left input.old)) result }

    // The notes get exactly the status's line.
    ensures notes { Still (E.faults notes.old) (E.faults notes.new) →
        Appends (E.written notes.old) (E.written notes.new) (note_of result) }
{
    let status = serve_words(alloc, words, input, output);
    tell(alloc, status, notes)
}

/// Whether the words ask for a session, which comes as frames.
pub fn serves_session(words: &[Text]) -> bool
    ensures { IsTrue result ↔ IsSession words.now }
{
    match word_of(words) {
        Some(Word::Session) => true,
        _ => false,
    }
}

/// Answers for words that aren't known: Usage where one isn't text, NoMemory where memory for them ran out, each with its
/// line.
pub fn refuse<E: Sink>(alloc: Global, fault: WordsFault, notes: &mut E) -> Status
    ensures usage { fault ≡ WordsFault.NotText → result ≡ Status.Usage }
    ensures no_memory { fault ≡ WordsFault.NoMemory → result ≡ Status.NoMemory }
    ensures notes { Still (E.faults notes.old) (E.faults notes.new) →
        Appends (E.written notes.old) (E.written notes.new) (note_of result) }
{
    let status = match fault {
        WordsFault::NotText => Status::Usage,
        WordsFault::NoMemory => Status::NoMemory,
    };
    tell(alloc, status, notes)
}

// Does the job that the words name.
fn serve_words<S: Source, K: Sink>(
    alloc: Global,
    words: &[Text],
    input: &mut S,
    output: &mut K,
) -> Status
    ensures session { IsSession words.now → EndsWith (S.left input.old) (S.left input.new)
        (K.written output.old) (K.written output.new) result }
    ensures fold { IsFold words.now → IsOf (FoldEnds (S.left input.old) (S.left input.new)
        (K.written output.old) (K.written output.new)) result }
    ensures dump { IsDump words.now → IsOf (DumpEnds (S.left input.old) (S.left input.new)
        (K.written output.old) (K.written output.new)) result }
    ensures make { (seed : ℕ) → IsMake words.now seed → IsOf (MakeEnds seed (S.left input.old)
        (S.left input.new) (K.written output.old) (K.written output.new)) result }
    ensures nodes { (seed : ℕ) → IsNodes words.now seed → IsOf (NodesEnds seed (S.left input.old)
        (S.left input.new) (K.written output.old) (K.written output.new)) result }
    ensures balance { (percent : ℕ) → IsBalance words.now percent →
        IsOf (BalanceEnds percent (S.left input.old) (S.left input.new) (K.written output.old)
        (K.written output.new)) result }
    ensures usage { result ≡ Status.Usage → AreServed words.now → ⊥ }
    ensures served { (AreServed words.now → ⊥) → result ≡ Status.Usage }
    ensures idle { result ≡ Status.Usage → EndsWith (S.left input.old) (S.left input.new)
        (K.written output.old) (K.written output.new) Status.Usage }
    ensures read { result ≡ Status.ReadFault → Rose (S.faults input.old) (S.faults input.new) }
    ensures write { result ≡ Status.WriteFault → Rose (K.faults output.old) (K.faults output.new) }
    ensures complete { IsSession words.now → Still (S.faults input.old) (S.faults input.new) →
        Still (K.faults output.old) (K.faults output.new) → ServesWhole (S.left input.old) result }
    ensures broken { IsSession words.now → Still (S.faults input.old) (S.faults input.new) →
        Still (K.faults output.old) (K.faults output.new) →
        RefusesBroken (S.left input.old) result }
    ensures breaks { IsSession words.now → BreaksRightly (S.left input.old) result }
    ensures fold_complete { IsFold words.now → Still (S.faults input.old) (S.faults input.new) →
        Still (K.faults output.old) (K.faults output.new) →
        IsOf (FoldsWhole (S.left input.old)) result }
    ensures fold_broken { IsFold words.now → Still (S.faults input.old) (S.faults input.new) →
        Still (K.faults output.old) (K.faults output.new) →
        IsOf (FoldsNoMore (S.left input.old)) result }
    ensures dump_complete { IsDump words.now → Still (S.faults input.old) (S.faults input.new) →
        Still (K.faults output.old) (K.faults output.new) →
        IsOf (DumpsWhole (S.left input.old)) result }
    ensures dump_broken { IsDump words.now → Still (S.faults input.old) (S.faults input.new) →
        Still (K.faults output.old) (K.faults output.new) →
        IsOf (RefusesBrokenImage (S.left input.old)) result }
    ensures dump_longer { IsDump words.now → Still (S.faults input.old) (S.faults input.new) →
        Still (K.faults output.old) (K.faults output.new) →
        IsOf (RefusesLonger (S.left input.old)) result }
    ensures make_complete { (seed : ℕ) → IsMake words.now seed →
        Still (K.faults output.old) (K.faults output.new) → IsOf MakesWhole result }
    ensures nodes_complete { (seed : ℕ) → IsNodes words.now seed →
        Still (K.faults output.old) (K.faults output.new) → IsOf MakesWhole result }
    ensures make_answered { (seed : ℕ) → IsMake words.now seed → result ≡ Status.Done →
        AllAnswered seed }
    ensures balance_complete { (percent : ℕ) → IsBalance words.now percent →
        Still (S.faults input.old) (S.faults input.new) →
        Still (K.faults output.old) (K.faults output.new) →
        IsOf (BalancesWhole (S.left input.old)) result }
    ensures balance_past { (percent : ℕ) → IsBalance words.now percent →
        Still (S.faults input.old) (S.faults input.new) →
        Still (K.faults output.old) (K.faults output.new) →
        IsOf (RefusesPast (S.left input.old)) result }
    ensures balance_broken { (percent : ℕ) → IsBalance words.now percent →
        Still (S.faults input.old) (S.faults input.new) →
        Still (K.faults output.old) (K.faults output.new) →
        IsOf (RefusesBrokenImage (S.left input.old)) result }
    ensures balance_longer { (percent : ℕ) → IsBalance words.now percent →
        Still (S.faults input.old) (S.faults input.new) →
        Still (K.faults output.old) (K.faults output.new) →
        IsOf (RefusesLonger (S.left input.old)) result }
{
    match word_of(words) {
        None => Status::Usage,
        Some(Word::Session) => session(alloc, input, output),
        Some(Word::Fold) => status_of(fold(alloc, input, output)),
        Some(Word::Dump) => status_of(dump(alloc, input, output)),
        Some(Word::Make(seed)) => status_of(write_summary(alloc, seed, output)),
        Some(Word::Nodes(seed)) => status_of(write_nodes(alloc, seed, output)),
        Some(Word::Balance(percent)) => status_of(balance(alloc, percent, input, output)),
    }
}

// The words that are built.
#[derive(Clone, Copy, Debug, Drop, PartialEq, Eq)]
enum Word {
    Session,
    Fold,
    Dump,
    Make(u32),
    Nodes(u32),
    Balance(u8),
}

// The word that is one text alone.
fn lone_word(word: &Text) -> Option<Word>
    ensures session { (result ≡ Some Word.Session) ↔ (word.now ≡ codes "session") }
    ensures fold { (result ≡ Some Word.Fold) ↔ (word.now ≡ codes "fold") }
    ensures dump { (result ≡ Some Word.Dump) ↔ (word.now ≡ codes "dump") }
    ensures make { (seed : ℕ) → result ≡ Some (Word.Make seed) → ⊥ }
    ensures nodes { (seed : ℕ) → result ≡ Some (Word.Nodes seed) → ⊥ }
    ensures balance { (percent : ℕ) → result ≡ Some (Word.Balance percent) → ⊥ }
{
    match word.as_str() {
        "session" => Some(Word::Session),
        "fold" => Some(Word::Fold),
        "dump" => Some(Word::Dump),
        _ => None,
    }
}

// `make` and its number.
fn make_word(word: &Text, number: &Text) -> Option<Word>
    ensures session { result ≡ Some Word.Session → ⊥ }
    ensures fold { result ≡ Some Word.Fold → ⊥ }
    ensures dump { result ≡ Some Word.Dump → ⊥ }
    ensures make { (seed : ℕ) →
        (result ≡ Some (Word.Make seed)) ↔ IsMake (word.now ∷ number.now ∷ []) seed }
    ensures nodes { (seed : ℕ) → result ≡ Some (Word.Nodes seed) → ⊥ }
    ensures balance { (percent : ℕ) → result ≡ Some (Word.Balance percent) → ⊥ }
    ensures word { IsSome result → word.now ≡ codes "make" }
{
    if word.as_str() != "make" {
        return None;
    }
    match seed_of(number.as_str()) {
        Some(seed) => Some(Word::Make(seed)),
        None => None,
    }
}

// `nodes` and its number.
fn nodes_word(word: &Text, number: &Text) -> Option<Word>
    ensures session { result ≡ Some Word.Session → ⊥ }
    ensures fold { result ≡ Some Word.Fold → ⊥ }
    ensures dump { result ≡ Some Word.Dump → ⊥ }
    ensures make { (seed : ℕ) → result ≡ Some (Word.Make seed) → ⊥ }
    ensures nodes { (seed : ℕ) →
        (result ≡ Some (Word.Nodes seed)) ↔ IsNodes (word.now ∷ number.now ∷ []) seed }
    ensures balance { (percent : ℕ) → result ≡ Some (Word.Balance percent) → ⊥ }
    ensures word { IsSome result → word.now ≡ codes "nodes" }
{
    if word.as_str() != "nodes" {
        return None;
    }
    match seed_of(number.as_str()) {
        Some(seed) => Some(Word::Nodes(seed)),
        None => None,
    }
}

// `balance` and its percentage.
fn balance_word(word: &Text, number: &Text) -> Option<Word>
    ensures session { result ≡ Some Word.Session → ⊥ }
    ensures fold { result ≡ Some Word.Fold → ⊥ }
    ensures dump { result ≡ Some Word.Dump → ⊥ }
    ensures make { (seed : ℕ) → result ≡ Some (Word.Make seed) → ⊥ }
    ensures nodes { (seed : ℕ) → result ≡ Some (Word.Nodes seed) → ⊥ }
    ensures balance { (percent : ℕ) →
        (result ≡ Some (Word.Balance percent)) ↔ IsBalance (word.now ∷ number.now ∷ []) percent }
{
    if word.as_str() != "balance" {
        return None;
    }
    match percent_of(number.as_str()) {
        Some(percent) => Some(Word::Balance(percent)),
        None => None,
    }
}

// `nodes` or `balance`, and its number.
fn later_word(word: &Text, number: &Text) -> Option<Word>
    ensures session { result ≡ Some Word.Session → ⊥ }
    ensures fold { result ≡ Some Word.Fold → ⊥ }
    ensures dump { result ≡ Some Word.Dump → ⊥ }
    ensures make { (seed : ℕ) → result ≡ Some (Word.Make seed) → ⊥ }
    ensures nodes { (seed : ℕ) →
        (result ≡ Some (Word.Nodes seed)) ↔ IsNodes (word.now ∷ number.now ∷ []) seed }
    ensures balance { (percent : ℕ) →
        (result ≡ Some (Word.Balance percent)) ↔ IsBalance (word.now ∷ number.now ∷ []) percent }
{
    match nodes_word(word, number) {
        Some(made) => Some(made),
        None => balance_word(word, number),
    }
}

// The word that a text and its number are.
fn numbered_word(word: &Text, number: &Text) -> Option<Word>
    ensures session { result ≡ Some Word.Session → ⊥ }
    ensures fold { result ≡ Some Word.Fold → ⊥ }
    ensures dump { result ≡ Some Word.Dump → ⊥ }
    ensures make { (seed : ℕ) →
        (result ≡ Some (Word.Make seed)) ↔ IsMake (word.now ∷ number.now ∷ []) seed }
    ensures nodes { (seed : ℕ) →
        (result ≡ Some (Word.Nodes seed)) ↔ IsNodes (word.now ∷ number.now ∷ []) seed }
    ensures balance { (percent : ℕ) →
        (result ≡ Some (Word.Balance percent)) ↔ IsBalance (word.now ∷ number.now ∷ []) percent }
{
    match make_word(word, number) {
        Some(made) => Some(made),
        None => later_word(word, number),
    }
}

// The word that the words are.
fn word_of(words: &[Text]) -> Option<Word>
    ensures session { (result ≡ Some Word.Session) ↔ IsSession words.now }
    ensures fold { (result ≡ Some Word.Fold) ↔ IsFold words.now }
    ensures dump { (result ≡ Some Word.Dump) ↔ IsDump words.now }
    ensures make { (seed : ℕ) → (result ≡ Some (Word.Make seed)) ↔ IsMake words.now seed }
    ensures nodes { (seed : ℕ) → (result ≡ Some (Word.Nodes seed)) ↔ IsNodes words.now seed }
    ensures balance { (percent : ℕ) →
        (result ≡ Some (Word.Balance percent)) ↔ IsBalance words.now percent }
{
    match words {
        [word] => lone_word(word),
        [word, number] => numbered_word(word, number),
        _ => None,
    }
}

fn status_of(answer: Result<(), ToolFault>) -> Status
    ensures { result ≡ notes.status_of answer }
{
    match answer {
        Ok(()) => Status::Done,
        Err(ToolFault::Malformed { at }) => Status::Malformed { at },
        Err(ToolFault::ReadFault) => Status::ReadFault,
        Err(ToolFault::WriteFault) => Status::WriteFault,
        Err(ToolFault::NoMemory) => Status::NoMemory,
        Err(ToolFault::TooLong) => Status::TooLong,
    }
}

// Writes the line of a status, and answers it: or NoMemory, where memory for the line of a bad frame ran out.
fn tell<E: Sink>(alloc: Global, status: Status, notes: &mut E) -> Status
    ensures same { (result ≡ status) ⊎ ((result ≡ Status.NoMemory) × IsMalformed status) }
    ensures told { Still (E.faults notes.old) (E.faults notes.new) →
        Appends (E.written notes.old) (E.written notes.new) (note_of result) }
{
    match status {
        Status::Done => {}
        Status::Usage => put_line(
            b"usage: kr_tool session | fold | dump | make N | nodes N | balance P\n",
            notes,
        ),
        Status::Malformed { at } => return tell_malformed(alloc, at, notes),
        Status::ReadFault => put_line(b"read fault\n", notes),
        Status::WriteFault => put_line(b"write fault\n", notes),
        Status::NoMemory => put_line(b"out of memory\n", notes),
        Status::TooLong => put_line(b"input too long\n", notes),
    }
    status
}

fn tell_malformed<E: Sink>(alloc: Global, at: u64, notes: &mut E) -> Status
    ensures same { (result ≡ Status.Malformed at) ⊎ (result ≡ Status.NoMemory) }
    ensures told { Still (E.faults notes.old) (E.faults notes.new) →
        Appends (E.written notes.old) (E.written notes.new) (note_of result) }
{
    match malformed_line(alloc, at) {
        Ok(text) => {
            put_line(text.as_bytes(), notes);
            Status::Malformed { at }
        }
        Err(_) => {
            put_line(b"out of memory\n", notes);
            Status::NoMemory
        }
    }
}

fn malformed_line(alloc: Global, at: u64) -> Result<String, AllocError>
    ensures { IfOk result (λ text. string_bytes text ≡ line (codes "malformed at " ++ decimal at)) }
{
    format!(in alloc; "malformed at {at}\n")
}

// A fault of the notes is passed over.
fn put_line<E: Sink>(text: &[u8], notes: &mut E)
    ensures { Still (E.faults notes.old) (E.faults notes.new) →
        Appends (E.written notes.old) (E.written notes.new) text.now }
{
    let _ = notes.put(text);
}
